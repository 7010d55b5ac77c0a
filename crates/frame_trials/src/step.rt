use crate::call::{Answer, Call};

// A call made a number of times, and what it answers each time.
#[derive(Clone, Copy)]
pub struct Step(pub u32, pub Call, pub Answer);

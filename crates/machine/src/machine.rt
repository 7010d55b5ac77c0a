ghost use Rattle.std.specs.Prelude.{◌<◌, ◌≤◌};

use frames::memory::BuildFrames;
use lang::stack::Stack;
use lang::value::Value;

// The most values that wait.
const MOST_VALUES: usize = 512;

// The most return positions.
const MOST_RETURNS: usize = 256;

// A machine over any frame memory: the values that wait, the positions to return to, the frames,
// the position of the next instruction, and the steps done. The code comes with each call. That the stacks have room is in
// `Ready` and no ghost field: with one, no function could make a machine over a frame memory that it names.
#[derive(Drop)]
pub struct Machine<'m, F: BuildFrames + Drop> {
    values: Stack<'m, Value>,
    returns: Stack<'m, u16>,
    frames: F,
    at: usize,
    steps: u32,
}

// The position of the instruction that is being done. The one after it is a position of 16 bits too.
#[derive(Clone, Copy)]
struct Position {
    at: u16,
    ghost below: { at < 65535 },
}

pub mod runs;
pub mod slots;
pub mod values;

impl Position {
    ghost use Rattle.std.specs.Prelude.{◌≡◌, ◌+◌, ◌-◌, MatchOption};

    // None from 65,535 on.
    fn new(at: usize) -> Option<Position>
        ensures { MatchOption result (65535 ≤ at) (λ position. position.at ≡ at) }
    {
        // an `if`, since in a closure the cast would lack the test's fact
        if at < 65535 {
            Some(Position { at: at as u16 })
        } else {
            None
        }
    }

    // The position after it.
    fn next(self) -> usize
        ensures { result ≡ self.at + 1 }
    {
        self.at as usize + 1
    }

    // The position a distance ahead of it.
    fn ahead(self, by: u16) -> usize
        ensures { result ≡ self.at + by }
    {
        self.at as usize + by as usize
    }

    // The position a distance before it.
    fn before(self, by: u16) -> usize
        ensures { result ≡ self.at - by }
    {
        self.at.saturating_sub(by) as usize
    }
}

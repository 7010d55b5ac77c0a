ghost use Rattle.std.specs.Prelude.{◌≡◌};
ghost use Rattle.lang.specs.Faults.{number};

use std::fmt;

// Why a run ends early, each with its number. `number` of specs/Faults.antt says the same.
#[derive(Clone, Copy, PartialEq, Eq, Debug)]
pub enum Fault {
    Kind = 21,
    Range = 22,
    Frames = 23,
    Slots = 24,
    Values = 25,
    Steps = 26,
}

// The fault's number.
impl From<Fault> for u8 {
    ghost from_gives = { λ fault n. n ≡ number fault };

    fn from(fault: Fault) -> u8 {
        fault as u8
    }
}

impl fmt::Display for Fault {
    fn fmt<W: fmt::Write>(&self, f: &mut fmt::Formatter<W>) -> fmt::Result {
        write!(f, "{}", u8::from(*self))
    }
}

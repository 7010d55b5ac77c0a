ghost use Rattle.std.specs.Prelude.{◌≡◌};
ghost use Rattle.lang.specs.Refusals.{number};

use std::fmt;

// Why a call is turned away, each with its number, in their order. `number` of specs/Refusals.antt says the same.
#[derive(Clone, Copy, PartialEq, Eq, PartialOrd, Ord, Debug)]
pub enum Refusal {
    ShortMemory = 1,
    BadSheet = 2,
    TextTooLong = 3,
    BadByte = 4,
    NameTooLong = 5,
    NumberTooLarge = 6,
    Unexpected = 7,
    NestTooDeep = 8,
    TooManyNodes = 9,
    NotVisible = 10,
    NameTwice = 11,
    WrongSort = 12,
    WrongCount = 13,
    ScopesTooDeep = 14,
    TooManyNames = 15,
    RunOpen = 16,
    NoRule = 17,
    NoRun = 18,
    BadEntry = 19,
    TooManyFrames = 23,
    TooManySlots = 24,
    ChainTooDeep = 27,
    NoSuchSlot = 28,
}

impl Refusal {
    // A text refused for this at a place.
    pub fn at(self, place: u16) -> Refused
        ensures { result ≡ record { place = place; why = self } }
    {
        Refused { place, why: self }
    }
}

// The refusal's number.
impl From<Refusal> for u8 {
    ghost from_gives = { λ why n. n ≡ number why };

    fn from(why: Refusal) -> u8 {
        why as u8
    }
}

impl fmt::Display for Refusal {
    fn fmt<W: fmt::Write>(&self, f: &mut fmt::Formatter<W>) -> fmt::Result {
        write!(f, "{}", u8::from(*self))
    }
}

// A refused text: the place it is refused at, and why. Of two, the earlier place is less, then the lower number.
#[derive(Clone, Copy, PartialEq, Eq, PartialOrd, Ord, Debug)]
pub struct Refused {
    pub place: u16,
    pub why: Refusal,
}

impl fmt::Display for Refused {
    fn fmt<W: fmt::Write>(&self, f: &mut fmt::Formatter<W>) -> fmt::Result {
        write!(f, "refused {} {}", self.why, self.place)
    }
}

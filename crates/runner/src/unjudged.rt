ghost use Rattle.std.specs.Prelude.{◌≡◌};
ghost use Rattle.runner.specs.declared.unjudged.Unjudged.TheVariants as unjudged;

use lang::refusal::Refusal;
use std::alloc::AllocError;

// Why a rule could not be judged at all: what was handed over is too short, or no memory was to be had.
#[derive(Clone, Copy, PartialEq, Eq, Debug)]
pub enum Unjudged {
    Short(Refusal),
    NoMemory,
}

impl From<Refusal> for Unjudged {
    ghost from_gives = { λ refusal why. why ≡ unjudged.Short refusal };

    fn from(refusal: Refusal) -> Unjudged {
        Unjudged::Short(refusal)
    }
}

impl From<AllocError> for Unjudged {
    ghost from_gives = { λ _ why. why ≡ unjudged.NoMemory };

    fn from(_e: AllocError) -> Unjudged {
        Unjudged::NoMemory
    }
}

use crate::call::Call;
use lang::value::Slot;

// Numbers that look like chance and are the same in each run.
#[derive(Drop)]
pub struct Counter(pub u64);

// So many calls, of 100 so many that open and so many that enter, mostly frames narrower than the bound.
#[derive(Clone, Copy)]
pub struct Mixture {
    pub times: u32,
    pub open: usize,
    pub enter: usize,
    pub bound: u64,
}

impl Counter {
    // A number below the bound, 0 if the bound is 0.
    fn below(&mut self, bound: u64) -> usize {
        self.0 = self
            .0
            .wrapping_mul(6364136223846793005)
            .wrapping_add(1442695040888963407);
        if bound == 0 {
            return 0;
        }
        ((self.0 >> 33) % bound) as usize
    }

    pub fn number(&mut self) -> u16 {
        (self.below(65536) & 0xffff) as u16
    }

    pub fn slot(&mut self) -> Slot {
        let number = self.number();
        match self.below(6) {
            0 => Slot::Unset,
            1 => Slot::Truth(number % 2 == 0),
            2 => Slot::Position(number),
            3 => Slot::Number(-i32::from(number)),
            _ => Slot::Number(i32::from(number)),
        }
    }

    // Mostly few, at times up to 20, now and then far too many.
    fn hops(&mut self) -> usize {
        match self.below(40) {
            0 => usize::MAX,
            1 => 65536,
            2..=7 => self.below(21),
            _ => self.below(4),
        }
    }

    fn offset(&mut self) -> usize {
        match self.below(40) {
            0 => usize::MAX,
            1 => 65536,
            2..=7 => self.below(2049),
            _ => self.below(4),
        }
    }

    // The slots of a new frame: mostly below the bound.
    fn width(&mut self, bound: u64) -> usize {
        match self.below(60) {
            0 => usize::MAX,
            1 => 65536,
            2 => self.below(2100),
            _ => self.below(bound),
        }
    }

    pub fn call(&mut self, mixture: Mixture) -> Call {
        let Mixture {
            open,
            enter,
            bound,
            ..
        } = mixture;
        let pick = self.below(100);
        if pick < open {
            return Call::Open(self.width(bound));
        }
        if pick < open.saturating_add(enter) {
            return Call::Enter(self.hops(), self.width(bound));
        }
        match self.below(30) {
            0..=8 => Call::Leave,
            9..=20 => Call::Put(self.hops(), self.offset(), self.slot()),
            21..=27 => Call::Get(self.hops(), self.offset()),
            28 => Call::SlotsOut(self.hops()),
            _ if self.below(20) == 0 => Call::Clear,
            _ => Call::SlotCount,
        }
    }
}

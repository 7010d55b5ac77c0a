use crate::call::{Answer, Answers, Call, Tried};
use crate::counter::{Counter, Mixture};
use crate::model::Model;
use crate::step::Step;
use crate::{edges, limits};
use frames::chain::Chain;
use frames::display::Display;
use lang::refusal::Refusal;
use lang::value::Slot;
use std::alloc::{AllocError, Global};
use std::test::*;

// So many of whatever `make` makes: memory to lend is full of rubbish.
fn filled<T: Drop, M: FnMut() -> T + Drop>(
    heap: Global,
    count: usize,
    mut make: M,
) -> Result<Vec<T>, AllocError>
    requires { M.IsAlwaysCallable make }
{
    let mut all = Vec::new(heap);
    for _ in 0..count {
        all.push(make())?;
    }
    Ok(all)
}

fn dirty_numbers(heap: Global, count: usize) -> Result<Vec<u16>, AllocError> {
    let mut counter = Counter(3);
    filled(heap, count, || counter.number())
}

// No slot of a new frame holds what lay there: so none of these is unset.
fn dirty_slots(heap: Global, count: usize) -> Result<Vec<Slot>, AllocError> {
    let mut counter = Counter(5);
    filled(heap, count, || match counter.slot() {
        Slot::Unset => Slot::Number(77),
        slot => slot,
    })
}

// Memory that a frame memory can be lent, part by part.
#[derive(Drop)]
struct Lent {
    links: Vec<u16>,
    starts: Vec<u16>,
    slots: Vec<Slot>,
}

impl Lent {
    // So much of each kind.
    fn dirty(heap: Global, links: usize, starts: usize, slots: usize) -> Result<Lent, AllocError> {
        Ok(Lent {
            links: dirty_numbers(heap, links)?,
            starts: dirty_numbers(heap, starts)?,
            slots: dirty_slots(heap, slots)?,
        })
    }

    // This and the next differ in a type: one for both would have to name the trait of the links.
    fn chain(&mut self) -> Result<Chain<'_>, Refusal> {
        Chain::over(
            self.links.as_mut_slice(),
            self.starts.as_mut_slice(),
            self.slots.as_mut_slice(),
        )
    }

    fn display(&mut self) -> Result<Display<'_>, Refusal> {
        Display::over(
            self.links.as_mut_slice(),
            self.starts.as_mut_slice(),
            self.slots.as_mut_slice(),
        )
    }
}

// The number that something is refused with, or 0.
fn number<T: Drop>(made: Result<T, Refusal>) -> u8 {
    made.err().map_or(0, u8::from)
}

// What can be seen from the last frame: the counts, and all slots of each frame up to 17 hops out
// with one too many.
fn view<T: Answers>(heap: Global, memory: &mut T) -> Result<Vec<Answer>, AllocError> {
    let mut seen = Vec::new(heap);
    seen.push(memory.answer(Call::FrameCount))?;
    seen.push(memory.answer(Call::SlotCount))?;
    for hops in 0..18usize {
        let width = memory.answer(Call::SlotsOut(hops));
        seen.push(width)?;
        if let Answer::Count(n) = width {
            for offset in 0..=n {
                seen.push(memory.answer(Call::Get(hops, offset)))?;
            }
        }
    }
    Ok(seen)
}

// One call to the memory of that name: the answer is the wanted one, and a refused call changes
// nothing that can be seen.
fn same_answer<T: Answers>(
    heap: Global,
    memory: &mut T,
    trial: &str,
    name: &str,
    call: Call,
    want: Answer,
) -> Result<(), Fail> {
    let before = view(heap, memory)?;
    let answer = memory.answer(call);
    if answer != want {
        return Err(Fail::new(format_args!("{trial}: {name}: {call:?}: {answer:?}, not {want:?}")));
    }
    if let Answer::Refused(_) = want {
        let after = view(heap, memory)?;
        if before != after {
            return Err(Fail::new(format_args!(
                "{trial}: {name}: {call:?}: refused, and changed something"
            )));
        }
    }
    Ok(())
}

// How often each answer came.
#[derive(Drop)]
struct Tally {
    done: usize,
    frames: usize,
    slots: usize,
    chain: usize,
    none: usize,
}

impl Tally {
    fn add(&mut self, answer: Answer) {
        match answer {
            Answer::Done => self.done = self.done.saturating_add(1),
            Answer::Refused(23) => self.frames = self.frames.saturating_add(1),
            Answer::Refused(24) => self.slots = self.slots.saturating_add(1),
            Answer::Refused(27) => self.chain = self.chain.saturating_add(1),
            Answer::Refused(28) => self.none = self.none.saturating_add(1),
            _ => {}
        }
    }
}

// 8,000 calls that lead to many frames, to many slots, to long chains, and back and forth.
const MIXTURES: [Mixture; 5] = [
    Mixture {
        times: 1500,
        open: 15,
        enter: 65,
        bound: 4,
    },
    Mixture {
        times: 2000,
        open: 20,
        enter: 40,
        bound: 60,
    },
    Mixture {
        times: 1500,
        open: 60,
        enter: 10,
        bound: 5,
    },
    Mixture {
        times: 1500,
        open: 16,
        enter: 16,
        bound: 40,
    },
    Mixture {
        times: 1500,
        open: 20,
        enter: 60,
        bound: 9,
    },
];

// The chain, the display and the model side by side, in the trial of that name.
#[derive(Drop)]
struct Trio<'c, 'd> {
    trial: &'static str,
    heap: Global,
    chain: Tried<Chain<'c>>,
    display: Tried<Display<'d>>,
    model: Model,
    tally: Tally,
}

impl<'c, 'd> Trio<'c, 'd> {
    fn new(
        trial: &'static str,
        heap: Global,
        chain: Tried<Chain<'c>>,
        display: Tried<Display<'d>>,
    ) -> Trio<'c, 'd> {
        let tally = Tally {
            done: 0,
            frames: 0,
            slots: 0,
            chain: 0,
            none: 0,
        };
        Trio {
            trial,
            heap,
            chain,
            display,
            model: Model::new(heap),
            tally,
        }
    }

    // One call to all three: they answer alike, and the same stands after it.
    fn turn(&mut self, call: Call) -> Result<Answer, Fail> {
        let want = self.model.answer(call);
        self.tally.add(want);
        self.expect(call, want)?;
        Ok(want)
    }

    fn expect(&mut self, call: Call, want: Answer) -> Result<(), Fail> {
        let trial = self.trial;
        same_answer(self.heap, &mut self.chain, trial, "chain", call, want)?;
        same_answer(self.heap, &mut self.display, trial, "display", call, want)?;
        self.compare(Some(call))
    }

    // The same stands in all three after the call, or before the first.
    fn compare(&mut self, call: Option<Call>) -> Result<(), Fail> {
        let trial = self.trial;
        let model = view(self.heap, &mut self.model)?;
        let chain = view(self.heap, &mut self.chain)?;
        let display = view(self.heap, &mut self.display)?;
        if chain != model {
            return Err(Fail::new(format_args!("{trial}: {call:?}: what stands in the chain")));
        }
        if display != model {
            return Err(Fail::new(format_args!("{trial}: {call:?}: what stands in the display")));
        }
        Ok(())
    }

    fn steps(&mut self, steps: &[Step]) -> Result<(), Fail> {
        for (number, step) in steps.iter().enumerate() {
            let Step(times, call, want) = *step;
            for _ in 0..times {
                let answer = self.turn(call)?;
                if answer != want {
                    let trial = self.trial;
                    return Err(Fail::new(format_args!(
                        "{trial}: step {number}: {answer:?}, not {want:?}"
                    )));
                }
            }
        }
        Ok(())
    }

    // Leaves all frames, so that each is the last once.
    fn unwind(&mut self) -> Result<(), Fail> {
        for _ in 0..257 {
            if let Answer::Refused(_) = self.turn(Call::Leave)? {
                return Ok(());
            }
        }
        Err(Fail::new("over 256 frames"))
    }

    // The calls of one mixture, and then out of all frames.
    fn calls(&mut self, counter: &mut Counter, mixture: Mixture) -> Result<(), Fail> {
        for _ in 0..mixture.times {
            let call = counter.call(mixture);
            self.turn(call)?;
        }
        self.unwind()
    }

    fn mixtures(&mut self, counter: &mut Counter) -> Result<(), Fail> {
        for mixture in MIXTURES {
            self.calls(counter, mixture)?;
        }
        self.often()
    }

    // Each answer came often.
    fn often(&self) -> Result<(), Fail> {
        for (name, count, least) in [
            ("done", self.tally.done, 2000),
            ("frames", self.tally.frames, 100),
            ("slots", self.tally.slots, 100),
            ("chain", self.tally.chain, 100),
            ("none", self.tally.none, 100),
        ] {
            if count <= least {
                return Err(Fail::new(name));
            }
        }
        Ok(())
    }

    // The steps, and out of all frames; then, given a seed, the calls from a counter.
    fn follow(&mut self, steps: &[Step], seed: Option<u64>) -> Result<(), Fail> {
        self.steps(steps)?;
        self.unwind()?;
        if let Some(seed) = seed {
            self.mixtures(&mut Counter(seed))?;
        }
        Ok(())
    }
}

// All three over dirty memory, in the trial of that name.
fn play(trial: &'static str, heap: Global, steps: &[Step], seed: Option<u64>) -> Result<(), Fail> {
    let mut chain = Lent::dirty(heap, 256, 256, 2048)?;
    let mut display = Lent::dirty(heap, 4096, 256, 2048)?;
    let (chain, display) = (Tried(chain.chain()?), Tried(display.display()?));
    let mut trio = Trio::new(trial, heap, chain, display);
    trio.compare(None)?;
    trio.follow(steps, seed)
}

#[test]
fn edges_of_frames(rt: HostRuntime) -> Result<(), Fail> {
    let heap = rt.alloc();
    play("no frame", heap, &edges::NO_FRAME, None)?;
    play("unset", heap, &edges::UNSET, None)?;
    play("between", heap, &edges::BETWEEN, None)
}

#[test]
fn limits_of_memory(rt: HostRuntime) -> Result<(), Fail> {
    let heap = rt.alloc();
    play("frames", heap, &limits::FRAMES, None)?;
    play("slots", heap, &limits::SLOTS, None)?;
    play("chain", heap, &limits::CHAIN, None)?;
    play("together", heap, &limits::TOGETHER, None)
}

// Lengths of parents, levels, starts and slots: too short for both memories.
const SHORT: [(usize, usize, usize, usize); 8] = [
    (255, 4095, 256, 2048),
    (256, 4096, 255, 2048),
    (256, 4096, 256, 2047),
    (255, 4095, 255, 2047),
    (0, 0, 256, 2048),
    (256, 4096, 0, 2048),
    (256, 4096, 256, 0),
    (0, 0, 0, 0),
];

#[test]
fn short_memory(rt: HostRuntime) -> Result<(), Fail> {
    let heap = rt.alloc();
    for (parents, levels, starts, slots) in SHORT {
        let mut lent = Lent::dirty(heap, parents, starts, slots)?;
        assert_eq!(rt; number(lent.chain()), 1);
        let mut lent = Lent::dirty(heap, levels, starts, slots)?;
        assert_eq!(rt; number(lent.display()), 1);
    }
    let mut lent = Lent::dirty(heap, 256, 256, 2048)?;
    assert_eq!(rt; number(lent.chain()), 0);
    let mut lent = Lent::dirty(heap, 257, 300, 2049)?;
    assert_eq!(rt; number(lent.chain()), 0);
    let mut lent = Lent::dirty(heap, 4096, 256, 2048)?;
    assert_eq!(rt; number(lent.display()), 0);
    let mut lent = Lent::dirty(heap, 4097, 300, 2049)?;
    assert_eq!(rt; number(lent.display()), 0);
    Ok(())
}

#[test]
fn calls_from_a_counter(rt: HostRuntime) -> Result<(), Fail> {
    play(
        "calls from a counter",
        rt.alloc(),
        &edges::BETWEEN,
        Some(2024),
    )
}

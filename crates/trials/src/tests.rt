use crate::case::Case;
use crate::{examples, faults, grammar, names, words};
use frames::chain::Chain;
use lang::code::{Code, MOST_CODE};
use lang::instruction::Instruction;
use lang::refusal::Refused;
use lang::sheet::Sheet;
use lang::value::{Slot, Value};
use machine::machine::Machine;
use machine::outcome::{Outcome, Ran};
use runner::example::example_sheet;
use runner::listing::listing;
use runner::owned::{judge_over_chain, judge_over_display};
use runner::report::report;
use runner::unjudged::Unjudged;
use std::alloc::Global;
use std::test::Fail;

// The report of a text, over the frame memory that `judge` takes.
fn report_by<J: FnOnce(Global, &[u8], &mut Sheet) -> Result<Result<Ran, Refused>, Unjudged>>(
    heap: Global,
    text: &[u8],
    judge: J,
) -> Result<String, Fail>
    requires { J.IsAlwaysCallable judge }
{
    let mut sheet = example_sheet()?;
    let judged = judge(heap, text, &mut sheet)?;
    Ok(report(heap, judged, &sheet)?)
}

// The report over both is what is wanted.
fn expect(heap: Global, text: &[u8], want: &str) -> Result<(), Fail> {
    let chain = report_by(heap, text, judge_over_chain)?;
    let display = report_by(heap, text, judge_over_display)?;
    for (memory, lines) in [("chain", chain.as_str()), ("display", display.as_str())] {
        if lines != want {
            return Err(Fail::new(format_args!("{memory}: {lines}, not {want}")));
        }
    }
    Ok(())
}

fn expect_plain(heap: Global, cases: &[(&str, &str)]) -> Result<(), Fail> {
    for (text, want) in cases {
        expect(heap, text.as_bytes(), want)?;
    }
    Ok(())
}

fn expect_built(heap: Global, cases: &[Case]) -> Result<(), Fail> {
    for case in cases {
        let text = case.text(heap)?;
        expect(heap, text.as_slice(), case.want)?;
    }
    Ok(())
}

#[test]
fn worked_examples(rt: HostRuntime) -> Result<(), Fail> {
    expect_plain(rt.alloc(), &examples::PLAIN)?;
    expect_built(rt.alloc(), &examples::BUILT)
}

#[test]
fn words_at_their_edges(rt: HostRuntime) -> Result<(), Fail> {
    expect_plain(rt.alloc(), &words::PLAIN)?;
    expect_built(rt.alloc(), &words::BUILT)
}

#[test]
fn grammar_at_its_edges(rt: HostRuntime) -> Result<(), Fail> {
    expect_plain(rt.alloc(), &grammar::PLAIN)?;
    expect_built(rt.alloc(), &grammar::BUILT)
}

#[test]
fn names_at_their_edges(rt: HostRuntime) -> Result<(), Fail> {
    expect_plain(rt.alloc(), &names::PLAIN)?;
    expect_built(rt.alloc(), &names::BUILT)
}

#[test]
fn faults_at_their_edges(rt: HostRuntime) -> Result<(), Fail> {
    expect_plain(rt.alloc(), &faults::PLAIN)?;
    expect_built(rt.alloc(), &faults::BUILT)
}

// What becomes of a text of one byte: a space, a letter and an opening brace want more, the other marks and digits
// begin no command, and any other byte is of no word.
fn one_byte(b: u8) -> &'static str {
    match b {
        9 | 10 | 13 | 32 => "refused 7 1\n",
        65..=90 | 97..=122 | 123 => "refused 7 1\n",
        48..=57 => "refused 7 0\n",
        40..=45 | 59..=61 | 125 => "refused 7 0\n",
        _ => "refused 4 0\n",
    }
}

#[test]
fn every_byte(rt: HostRuntime) -> Result<(), Fail> {
    let heap = rt.alloc();
    for b in 0..=255u8 {
        expect(heap, &[b], one_byte(b))?;
    }
    Ok(())
}

const HIDDEN_ENTRY: &str = "{ const days = days + 1; fee := days; }";

const HIDDEN_CODE: &str =
    "0 18 1 0 0 0\n1 2 1 0 0 15\n2 1 0 1 0 22\n3 6 0 0 0 15\n4 19 0 0 0 2\n5 2 0 0 0 32\n6 26 1 1 0 25\n7 20 0 0 0 0\n";

#[test]
fn listings(rt: HostRuntime) -> Result<(), Fail> {
    let heap = rt.alloc();
    let sheet = example_sheet()?;
    let hidden = listing(heap, HIDDEN_ENTRY.as_bytes(), &sheet)?;
    assert_eq!(rt; hidden.as_str(), HIDDEN_CODE);
    let ab = listing(heap, b"fee := let a = 1 in let b = 2 in a;", &sheet)?;
    let ba = listing(heap, b"fee := let b = 1 in let a = 2 in b;", &sheet)?;
    assert_eq!(rt; ab.as_str(), ba.as_str());
    Ok(())
}

// Code that no rule has: its one instruction wants a value and none waits. The machine is over a frame memory that this
// function names.
#[test]
fn a_stuck_step_is_not_counted(rt: HostRuntime) -> Result<(), Fail> {
    let heap = rt.alloc();
    let mut parents = vec![in heap; 0u16; 256]?;
    let mut starts = vec![in heap; 0u16; 256]?;
    let mut slots = vec![in heap; Slot::Unset; 2048]?;
    let chain = Chain::over(&mut parents, &mut starts, &mut slots)?;
    let mut values = vec![in heap; Value::Number(0); 512]?;
    let mut returns = vec![in heap; 0u16; 256]?;
    let mut machine = Machine::over(&mut values, &mut returns, chain)?;
    let mut instructions = vec![in heap; Instruction::Back; MOST_CODE]?;
    let mut places = vec![in heap; 0u16; MOST_CODE]?;
    let mut code = Code::over(&mut instructions, &mut places)?;
    code.emit(Instruction::Not, 7)?;
    machine.begin(&[])?;
    let ran = machine.run(&code, 10);
    let stuck = Ran {
        outcome: Outcome::Stuck,
        steps: 0,
    };
    assert_eq!(rt; ran, stuck);
    Ok(())
}

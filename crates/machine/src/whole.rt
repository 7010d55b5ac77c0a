ghost use Rattle.std.specs.Prelude.{◌≡◌, map};
ghost use Rattle.lang.specs.Sheets.{entries_of};
ghost use Rattle.machine.specs.Shows.{Ready};
ghost use Rattle.machine.specs.Settles.{TakenOver, Settled};
ghost use Rattle.machine.specs.Whole.{Means};

use crate::machine::Machine;
use crate::machine::runs::MOST_STEPS;
use crate::outcome::{Outcome, Ran};
use frames::memory::BuildFrames;
use lang::code::Code;
use lang::refusal::Refusal;
use lang::sheet::Sheet;
use lang::value::Value;

// The entries' values, in the front of a table: a gate's memory is fixed, so they are no `Vec`.
fn starting<'t>(sheet: &Sheet, table: &'t mut [Value; 32]) -> &'t [Value]
    ensures { result.now ≡ map (λ e. e.value) (entries_of sheet.now) }
{
    let count = sheet.len(); // at most 32
    // by number, since after `iter_mut().zip(..)` a proof knows nothing of the cells
    for (i, entry) in sheet.entries().iter().enumerate() {
        table[i] = entry.value;
    }
    &table[..count]
}

// The values that the first frame holds go into the sheet.
fn take_over<F: BuildFrames + Drop>(machine: &Machine<F>, sheet: &mut Sheet)
    ensures { Ready F.ReadFrames.sound machine.now → TakenOver (F.ReadFrames.frames machine.now.frames) (entries_of sheet.old) (entries_of sheet.new) }
{
    // by number, since the sheet changes in the loop and lends out no entry to change
    for i in 0..sheet.len() {
        // after done each slot of the first frame holds a value
        if let Some(value) = machine.entry(i) {
            sheet.overwrite(i, value);
        }
    }
}

// Done takes over the entries' values; a fault leaves them.
fn settle<F: BuildFrames + Drop>(outcome: Outcome, machine: &Machine<F>, sheet: &mut Sheet)
    ensures { Ready F.ReadFrames.sound machine.now → Settled outcome (F.ReadFrames.frames machine.now.frames) (entries_of sheet.old) (entries_of sheet.new) }
{
    match outcome {
        Outcome::Done => take_over(machine, sheet),
        Outcome::Fault { .. } => {}
        // neither happens to a rule's code that has all its steps
        Outcome::Paused | Outcome::Stuck => {}
    }
}

// Runs code over a sheet, to its end or its fault, and settles the entries. No frame stands afterwards.
// With the code of a rule this is what the rule means.
pub fn run_over<F: BuildFrames + Drop>(
    machine: &mut Machine<F>,
    code: &Code,
    sheet: &mut Sheet,
) -> Result<Ran, Refusal>
    ensures { Means F.ReadFrames.sound F.ReadFrames.frames code.now (entries_of sheet.old) (entries_of sheet.new) machine.old machine.new result }
{
    let mut table = [Value::Number(0); 32];
    machine.begin(starting(sheet, &mut table))?;
    // with all steps done, one more call finds the fault
    let ran = machine.run(code, MOST_STEPS + 1);
    settle(ran.outcome, machine, sheet);
    machine.clear();
    Ok(ran)
}

use lang::refusal::Refused;
use lang::sheet::Sheet;
use machine::outcome::Ran;
use std::alloc::{AllocError, Global};

// The line of a refused text: one function, since a report and a listing both want it.
pub fn refusal_line(heap: Global, refused: Refused) -> Result<String, AllocError> {
    format!(in heap; "{refused}\n")
}

// The lines of a run: how it ended, and each entry's number and value.
fn run_lines(heap: Global, ran: Ran, sheet: &Sheet) -> Result<String, AllocError> {
    let mut lines = format!(in heap; "{ran}\n")?;
    for (i, entry) in sheet.entries().iter().enumerate() {
        writeln!(lines, "{i} {}", entry.value)?;
    }
    Ok(lines)
}

// The lines that report a judged rule over the sheet as it stands then.
pub fn report(
    heap: Global,
    judged: Result<Ran, Refused>,
    sheet: &Sheet,
) -> Result<String, AllocError> {
    match judged {
        Ok(ran) => run_lines(heap, ran, sheet),
        Err(refused) => refusal_line(heap, refused),
    }
}

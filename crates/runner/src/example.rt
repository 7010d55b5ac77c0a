use lang::refusal::Refusal;
use lang::sheet::{Described, Sheet};

// The sheet of the examples: `days` given 3, `fee` kept 0, `open` kept, a truth, 0.
pub fn example_sheet() -> Result<Sheet, Refusal> {
    Sheet::new(&[
        Described {
            name: b"days",
            kind: 0,
            mark: 0,
            value: 3,
        },
        Described {
            name: b"fee",
            kind: 0,
            mark: 1,
            value: 0,
        },
        Described {
            name: b"open",
            kind: 1,
            mark: 1,
            value: 0,
        },
    ])
}

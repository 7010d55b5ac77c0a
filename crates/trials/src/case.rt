use std::alloc::{AllocError, Global};

// A text in parts, two of them repeated, and the lines that report what becomes of it.
// In a repeated part `#` stands for the count of the turns before. One row of a table, so its parts have no type of their own.
pub struct Case {
    pub front: &'static str,
    pub unit: &'static str,
    pub times: u32,
    pub middle: &'static str,
    pub unit2: &'static str,
    pub times2: u32,
    pub back: &'static str,
    pub want: &'static str,
}

// One turn of a repeated part.
fn push_turn(heap: Global, text: &mut Vec<u8>, unit: &str, turn: u32) -> Result<(), AllocError> {
    for b in unit.as_bytes() {
        if *b == b'#' {
            let number = format!(in heap; "{turn}")?;
            text.extend_from_slice(number.as_bytes())?;
        } else {
            text.push(*b)?;
        }
    }
    Ok(())
}

fn push_turns(heap: Global, text: &mut Vec<u8>, unit: &str, times: u32) -> Result<(), AllocError> {
    for turn in 0..times {
        push_turn(heap, text, unit, turn)?;
    }
    Ok(())
}

impl Case {
    // The whole text.
    pub fn text(&self, heap: Global) -> Result<Vec<u8>, AllocError> {
        let mut text = Vec::new(heap);
        text.extend_from_slice(self.front.as_bytes())?;
        push_turns(heap, &mut text, self.unit, self.times)?;
        text.extend_from_slice(self.middle.as_bytes())?;
        push_turns(heap, &mut text, self.unit2, self.times2)?;
        text.extend_from_slice(self.back.as_bytes())?;
        Ok(text)
    }
}

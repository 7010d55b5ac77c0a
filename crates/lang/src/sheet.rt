ghost use Rattle.std.specs.Prelude.{◌≡◌, ◌≤◌};

use crate::name::Name;
use crate::refusal::Refusal;
use crate::sheet::entries::value_of;
use crate::value::Value;

// Whether a rule may change an entry: a given one is a constant to it, a kept one a variable.
#[derive(Clone, Copy, PartialEq, Eq, Debug)]
pub enum Mark {
    Given,
    Kept,
}

// An entry of the sheet. Its kind is that of its value.
#[derive(Clone, Copy, PartialEq, Eq, Debug)]
pub struct Entry {
    pub name: Name,
    pub mark: Mark,
    pub value: Value,
}

// The entries that a rule stands over, numbered from 0: the first `count` of a table in the gate's own memory, which is
// fixed, so it is no `Vec`.
#[derive(Clone, Copy)]
pub struct Sheet {
    entries: [Entry; 32],
    count: usize,
    ghost few: { count ≤ 32 },
}

// An entry as the host gives it: kind 0 is a number and 1 a truth, whose value is 0 or 1; mark 0 is given and 1 kept.
// The host's numbers stay numbers here, since a bad one is refused as a bad sheet.
#[derive(Clone, Copy)]
pub struct Described<'t> {
    pub name: &'t [u8],
    pub kind: u8,
    pub mark: u8,
    pub value: i64,
}

pub mod entries;

const NO_ENTRY: Entry = Entry {
    name: Name { bytes: [0; 16] },
    mark: Mark::Given,
    value: Value::Number(0),
};

impl Sheet {
    ghost use Rattle.std.specs.Prelude.{◌<◌, true, length, take, is_some, Some, None, MatchResult};
    ghost use Rattle.std.specs.List.{slice_get};
    ghost use Rattle.lang.specs.Refusals.{number as numbered};
    ghost use Rattle.lang.specs.Sheets.{entries_of, entry_of, named, added, added_to, sheet_from, told_value, told, valued};

    // The sheet with these entries; 2 for more than 32, for a bad, reserved or repeated name, and for a bad kind,
    // mark or value.
    pub fn new(entries: &[Described]) -> Result<Sheet, Refusal>
        ensures { MatchResult result (λ s. Some (entries_of s) ≡ sheet_from entries.now) (λ e. (None ≡ sheet_from entries.now) × (numbered e ≡ 2)) }
    {
        let mut sheet = Sheet {
            entries: [NO_ENTRY; 32],
            count: 0,
        };
        for described in entries {
            sheet.add_described(*described)?;
        }
        Ok(sheet)
    }

    // Its entries, numbered from 0.
    pub fn entries(&self) -> &[Entry]
        ensures { result.now ≡ entries_of self.now }
    {
        &self.entries[..self.count]
    }

    // How many entries it has.
    pub fn len(&self) -> usize
        ensures value { result ≡ length (entries_of self.now) }
        ensures front { take result self.now.entries ≡ entries_of self.now }
        ensures few { result ≤ 32 }
    {
        self.entries().len()
    }

    // The entry with a number.
    pub fn entry(&self, number: usize) -> Option<Entry>
        ensures value { result ≡ slice_get (entries_of self.now) number }
        ensures within { is_some result ≡ true → number < 32 }
    {
        self.entries().get(number).copied()
    }

    // Whether an entry has the name.
    fn has(&self, name: Name) -> bool
        ensures { result ≡ named name (entries_of self.now) }
    {
        self.entries().iter().any(|entry| name == entry.name)
    }

    // One entry more; 2, and nothing changes, where its name stands already or 32 stand.
    fn add(&mut self, entry: Entry) -> Result<(), Refusal>
        ensures { MatchResult result (λ _. Some (entries_of self.new) ≡ added (entries_of self.old) entry) (λ e. (None ≡ added (entries_of self.old) entry) × (numbered e ≡ 2)) }
    {
        let at = self.count;
        if at >= 32 || self.has(entry.name) {
            return Err(Refusal::BadSheet);
        }
        self.entries[at] = entry;
        self.count = at + 1;
        Ok(())
    }

    // The same for an entry as the host describes it.
    fn add_described(&mut self, described: Described) -> Result<(), Refusal>
        ensures { MatchResult result (λ _. Some (entries_of self.new) ≡ added_to (Some (entries_of self.old)) (entry_of described.entry)) (λ e. (None ≡ added_to (Some (entries_of self.old)) (entry_of described.entry)) × (numbered e ≡ 2)) }
    {
        let entry = Entry::try_from(described)?;
        self.add(entry)
    }

    // Gives one entry another value of its kind, and changes no other; 19 where there is no such entry or the kind is another.
    pub fn set(&mut self, number: usize, value: Value) -> Result<(), Refusal>
        ensures { MatchResult result (λ _. Some (entries_of self.new) ≡ told_value (entries_of self.old) number (Some value)) (λ e. (None ≡ told_value (entries_of self.old) number (Some value)) × (self.new ≡ self.old) × (numbered e ≡ 19)) }
    {
        let entry = self.entry(number).ok_or(Refusal::BadEntry)?;
        if !entry.value.alike(value) {
            return Err(Refusal::BadEntry);
        }
        self.entries[number] = Entry { value, ..entry };
        Ok(())
    }

    // Gives one entry another value, of whichever kind, and changes no other.
    pub fn overwrite(&mut self, number: usize, value: Value)
        ensures { entries_of self.new ≡ valued (entries_of self.old) number value }
    {
        let Some(entry) = self.entry(number) else {
            return;
        };
        self.entries[number] = Entry { value, ..entry };
    }

    // The same as `set` by a kind and a number, as the host gives them; 19 for a bad kind or value too.
    pub fn tell(&mut self, number: usize, kind: u8, value: i64) -> Result<(), Refusal>
        ensures { MatchResult result (λ _. Some (entries_of self.new) ≡ told (entries_of self.old) number kind value) (λ e. (None ≡ told (entries_of self.old) number kind value) × (self.new ≡ self.old) × (numbered e ≡ 19)) }
    {
        let value = value_of(kind, value).ok_or(Refusal::BadEntry)?;
        self.set(number, value)
    }
}

ghost use Rattle.translate.specs.Rooms.{KeepsNames};

use crate::lookup::{in_record, inner};
use crate::record::{Found, Record, Sort};
use crate::view::{Nodes, Routine, routine_below};
use crate::violation::lesser;
use lang::name::Name;
use lang::narrow::{byte, short};
use lang::refusal::{Refusal, Refused};
use lang::sheet::Sheet;
use lang::stack::Stack;
use reader::node::Param;
use reader::tree::Tree;

// The most names of a block, and the most parameters of a routine.
pub const MOST_SLOTS: usize = 64;

pub const MOST_PARAMS: usize = 8;

// The names that are visible at a place of a tree, where `depth` frames stand.
#[derive(Drop)]
pub struct Scope<'t, 'm, 's, 'n> {
    pub tree: &'t Tree<'m>,
    pub names: &'s mut Stack<'n, Record>,
    pub depth: u8,
}

// The scope around a frame, to go back to: its count of names, and its depth.
#[derive(Clone, Copy, PartialEq, Eq, Debug)]
pub struct Outer {
    names: usize,
    depth: u8,
}

impl Scope<'_, '_, '_, '_> {
    // The level of the innermost frame.
    fn level(&self) -> u8 {
        self.depth.saturating_sub(1)
    }

    // The innermost visible declaration of a name, and in its frame the first.
    pub fn look_up(&self, name: Name) -> Option<Found> {
        self.names.as_slice().iter().fold(None, |found, record| {
            inner(found, in_record(self.tree, *record, name))
        })
    }

    // The hops and the offset of a name. A checked name is always found.
    pub fn pair(&self, name: Name) -> (u8, u8) {
        self.look_up(name).map_or((0, 0), |found| {
            (self.level().saturating_sub(found.level), found.offset)
        })
    }

    // Whether the innermost frame has the name.
    fn in_frame(&self, name: Name) -> bool {
        self.look_up(name)
            .is_some_and(|found| found.level == self.level())
    }

    // Goes into a frame that has no name yet, and answers what to go back to.
    pub fn enter(&mut self) -> Outer
        ensures { KeepsNames self.old self.new }
    {
        let outer = Outer {
            names: self.names.len(),
            depth: self.depth,
        };
        self.depth = self.depth.saturating_add(1);
        outer
    }

    pub fn leave(&mut self, outer: Outer)
        ensures { KeepsNames self.old self.new }
    {
        self.names.truncate(outer.names);
        self.depth = outer.depth;
    }

    // The innermost frame has a name more, at a slot.
    pub fn push(&mut self, name: Name, sort: Sort, slot: usize)
        ensures { KeepsNames self.old self.new }
    {
        let found = Found {
            sort,
            level: self.level(),
            offset: byte(slot),
        };
        // there is room: of each frame at most 64 names are kept one by one
        let _ = self.names.push(Record::Known { name, found });
    }

    // The names of the sheet, and no others: where a text starts. A constructor that takes the sheet was tried: after it,
    // a proof did not know what the scope's `&mut` left in the names (their room stayed open), as it does of a literal.
    pub fn start(&mut self, sheet: &Sheet)
        ensures { KeepsNames self.old self.new }
    {
        self.names.clear();
        for (i, entry) in sheet.entries().iter().enumerate() {
            self.push(entry.name, Sort::from(entry.mark), i);
        }
    }

    // One name more in the innermost frame, at a slot, of which `most` are allowed; else the violation at its place.
    // The names past the first too many stand later in the text than that one, so they have no part in the least
    // violation.
    pub fn declare(
        &mut self,
        named: Param,
        sort: Sort,
        slot: usize,
        most: usize,
    ) -> Result<(), Refused>
        ensures { KeepsNames self.old self.new }
    {
        if slot > most {
            return Ok(());
        }
        if self.in_frame(named.name) {
            return Err(Refusal::NameTwice.at(named.at));
        }
        if slot == most {
            return Err(Refusal::TooManyNames.at(named.at));
        }
        self.push(named.name, sort, slot);
        Ok(())
    }

    // The parameters of a routine are the names of its body's frame; the least violation.
    pub fn declare_params(&mut self, routine: Routine) -> Option<Refused>
        ensures { KeepsNames self.old self.new }
    {
        let params = self.tree.node(routine.node).info.params;
        let count = routine.count as usize;
        let mut least = None;
        for (i, p) in params.iter().take(count).enumerate() {
            let declared = self.declare(*p, Sort::Constant, i, MOST_PARAMS);
            least = lesser(least, declared.err());
        }
        least
    }

    // The routines of a block join its names, in order; the least violation.
    pub fn declare_routines(&mut self, routines: Nodes) -> Option<Refused>
        ensures { KeepsNames self.old self.new }
    {
        let (_, before) = routines.split_last(self.tree)?;
        let least = self.declare_routines(before);
        let Some(routine) = routine_below(self.tree, routines.end) else {
            return least;
        };
        let slot = routine.slot as usize;
        let declared = self.declare(routine.named, routine.sort(), slot, MOST_SLOTS);
        lesser(least, declared.err())
    }

    // In a block with too many names, one record stands for all its routines: those past the most are called
    // from earlier bodies too.
    pub fn push_rest(&mut self, count: u16, routines: Nodes)
        ensures { KeepsNames self.old self.new }
    {
        if count as usize > MOST_SLOTS {
            let level = self.level();
            let _ = self.names.push(Record::Rest {
                level,
                start: short(routines.start),
                end: short(routines.end),
            });
        }
    }
}

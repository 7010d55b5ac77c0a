ghost use Rattle.reader.specs.Looking.{Ends};

use crate::grammar::Reader;
use crate::node::{Info, Label, NO_INFO, NO_PARAM, Node, Param};
use lang::narrow::short;

// Where a construct begins: the place of its first word, and the number of its first node.
#[derive(Clone, Copy)]
pub struct Start {
    place: u16,
    first: u16,
}

// The parameters of a routine: the first nine, and how many there are. An array as in the node, since there is no
// heap here, and a text that has a ninth is refused.
#[derive(Clone, Copy)]
pub struct Params {
    first: [Param; 9],
    count: u16,
}

impl Params {
    // No parameter.
    pub fn none() -> Params {
        Params {
            first: [NO_PARAM; 9],
            count: 0,
        }
    }

    // One parameter more; past the ninth it is only counted.
    pub fn add(&mut self, param: Param) {
        if let Some(free) = self.first.get_mut(self.count as usize) {
            *free = param;
        }
        self.count = self.count.saturating_add(1);
    }
}

// A construct of a label.
pub fn plain(label: Label) -> Info {
    Info { label, ..NO_INFO }
}

// A construct with a name.
pub fn named(label: Label, name: Param) -> Info {
    Info {
        label,
        name: name.name,
        at: name.at,
        ..NO_INFO
    }
}

// A routine.
pub fn routine(label: Label, name: Param, params: Params, slot: u16) -> Info {
    let first = params.first;
    Info {
        count: params.count,
        slot,
        params: first,
        ..named(label, name)
    }
}

impl<'t, 'm> Reader<'t, 'm> {
    // Where a construct begins that begins with the word looked at.
    pub fn start(&self) -> Start {
        Start {
            place: self.here(),
            first: short(self.tree.len()),
        }
    }

    // How many nodes there are from a number on.
    pub fn nodes_since(&self, first: usize) -> u16 {
        short(self.tree.len().saturating_sub(first))
    }

    // Ends a construct: its node follows those of its parts.
    pub fn end(&mut self, start: Start, info: Info)
        ensures { Ends self.old self.new }
    {
        self.tree.push(Node {
            info: Info {
                place: start.place,
                ..info
            },
            start: start.first,
        });
    }
}

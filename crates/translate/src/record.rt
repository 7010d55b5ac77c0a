ghost use Rattle.std.specs.Prelude.{◌≡◌};
ghost use Rattle.translate.specs.Sorts.{mark_sort, binding_sort};

use lang::instruction::Binding;
use lang::name::Name;
use lang::sheet::Mark;

// What a name is declared as; a routine with its count of parameters.
#[derive(Clone, Copy, PartialEq, Eq, Debug)]
pub enum Sort {
    Constant,
    Variable,
    Function(u16),
    Procedure(u16),
}

// A given entry is a constant to a rule, a kept one a variable.
impl From<Mark> for Sort {
    ghost from_gives = { λ mark sort. sort ≡ mark_sort mark };

    fn from(mark: Mark) -> Sort {
        match mark {
            Mark::Given => Sort::Constant,
            Mark::Kept => Sort::Variable,
        }
    }
}

impl From<Binding> for Sort {
    ghost from_gives = { λ binding sort. sort ≡ binding_sort binding };

    fn from(binding: Binding) -> Sort {
        match binding {
            Binding::Constant => Sort::Constant,
            Binding::Variable => Sort::Variable,
        }
    }
}

// What a use means. `level` counts the frames outside the one that has the name.
#[derive(Clone, Copy, PartialEq, Eq, Debug)]
pub struct Found {
    pub sort: Sort,
    pub level: u8,
    pub offset: u8,
}

// A visible name, or the routines of a block that has more names than are kept one by one.
// `start` and `end` are a list of nodes, in 16 bits each, since a record stands in memory that the host lends.
#[derive(Clone, Copy, PartialEq, Eq, Debug)]
pub enum Record {
    Known { name: Name, found: Found },
    Rest { level: u8, start: u16, end: u16 },
}

// The zero record.
pub const NO_RECORD: Record = Record::Known {
    name: Name { bytes: [0; 16] },
    found: Found {
        sort: Sort::Constant,
        level: 0,
        offset: 0,
    },
};

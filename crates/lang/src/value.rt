ghost use Rattle.std.specs.Prelude.{◌≡◌};
ghost use Rattle.lang.specs.Values.{kind_of, slot_of, value_in, alike as same_kind};

use std::fmt;

// The two kinds of value.
#[derive(Clone, Copy, PartialEq, Eq, Debug)]
pub enum Kind {
    Number,
    Truth,
}

// What an expression is worth.
#[derive(Clone, Copy, PartialEq, Eq, Debug)]
pub enum Value {
    Number(i32),
    Truth(bool),
}

// What a slot of a frame holds.
#[derive(Clone, Copy, PartialEq, Eq, Debug)]
pub enum Slot {
    Unset,
    Number(i32),
    Truth(bool),
    Position(u16),
}

impl Value {
    pub fn kind(self) -> Kind
        ensures { result ≡ kind_of self }
    {
        match self {
            Value::Number(_) => Kind::Number,
            Value::Truth(_) => Kind::Truth,
        }
    }

    // Whether two values are of one kind.
    pub fn alike(self, other: Value) -> bool
        ensures { result ≡ same_kind self other }
    {
        self.kind() == other.kind()
    }
}

// The slot that holds a value.
impl From<Value> for Slot {
    ghost from_gives = { λ value slot. slot ≡ slot_of value };

    fn from(value: Value) -> Slot {
        match value {
            Value::Number(z) => Slot::Number(z),
            Value::Truth(b) => Slot::Truth(b),
        }
    }
}

// A value as a number: a truth is 1 or 0.
impl fmt::Display for Value {
    fn fmt<W: fmt::Write>(&self, f: &mut fmt::Formatter<W>) -> fmt::Result {
        match self {
            Value::Number(z) => write!(f, "{z}"),
            Value::Truth(true) => f.write_str("1"),
            Value::Truth(false) => f.write_str("0"),
        }
    }
}

impl Slot {
    // The value that a slot holds, if it holds one. A `TryFrom` would want an error to
    // name, and be no plainer.
    pub fn value(self) -> Option<Value>
        ensures { result ≡ value_in self }
    {
        match self {
            Slot::Number(z) => Some(Value::Number(z)),
            Slot::Truth(b) => Some(Value::Truth(b)),
            Slot::Unset => None,
            Slot::Position(_) => None,
        }
    }
}

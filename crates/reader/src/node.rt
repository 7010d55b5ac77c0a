use lang::name::Name;

// What a node stands for.
#[derive(Clone, Copy, PartialEq, Eq, Debug)]
pub enum Label {
    Number(i32),
    Truth(bool),
    Read,
    Call,
    Minus,
    Not,
    Add,
    Sub,
    Mul,
    Equal,
    Less,
    And,
    Or,
    Choose,
    Let,
    Const,
    Var,
    Fun,
    Proc,
    Block,
    Assign,
    Do,
    If,
    While,
}

// A parameter, and where its name stands.
#[derive(Clone, Copy, PartialEq, Eq, Debug)]
pub struct Param {
    pub name: Name,
    pub at: u16,
}

// What a node says of itself, wherever it stands in the table.
// `place` is the construct's first byte. `name` and `at`: the name that is read, called, assigned or
// declared, and its place. `count`: a call's args, a routine's parameters, a block's slots.
// `slot`: the offset of a datum or routine in its block. `routines` and `commands`: how many nodes these
// parts of a block have. `params`: the first nine parameters of a routine.
// One record for every label, and an array for the parameters: the host lends the nodes, and there is no heap here.
#[derive(Clone, Copy, PartialEq, Eq, Debug)]
pub struct Info {
    pub label: Label,
    pub place: u16,
    pub name: Name,
    pub at: u16,
    pub count: u16,
    pub slot: u16,
    pub routines: u16,
    pub commands: u16,
    pub params: [Param; 9],
}

// A node. Its own nodes end just before it, and `start` is the number of the first of them.
#[derive(Clone, Copy, PartialEq, Eq, Debug)]
pub struct Node {
    pub info: Info,
    pub start: u16,
}

pub const NO_NAME: Name = Name { bytes: [0; 16] };

pub const NO_PARAM: Param = Param {
    name: NO_NAME,
    at: 0,
};

pub const NO_INFO: Info = Info {
    label: Label::Number(0),
    place: 0,
    name: NO_NAME,
    at: 0,
    count: 0,
    slot: 0,
    routines: 0,
    commands: 0,
    params: [NO_PARAM; 9],
};

// The zero record.
pub const BLANK: Node = Node {
    info: NO_INFO,
    start: 0,
};

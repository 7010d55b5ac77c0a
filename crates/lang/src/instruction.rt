ghost use Rattle.std.specs.Prelude.{◌≡◌};
ghost use Rattle.lang.specs.Instructions.{parts as parts_of};

use crate::value::Value;
use std::fmt;

// Whether a datum is a constant or a variable.
#[derive(Clone, Copy, PartialEq, Eq, Debug)]
pub enum Binding {
    Constant,
    Variable,
}

// One instruction of the machine. `parts` of specs/Instructions.antt gives each case its number and operands. `hops` and
// `offset` are two operands of the code, so each stands for itself: a pair would be no plainer.
#[derive(Clone, Copy, PartialEq, Eq, Debug)]
pub enum Instruction {
    Push(Value),
    Load { hops: u8, offset: u8 },
    Minus,
    Not,
    Add,
    Sub,
    Mul,
    Equal,
    Less,
    And,
    Or,
    Pick { by: u16 },
    Fork { by: u16 },
    Skip { by: u16 },
    Leave { by: u16 },
    Again { by: u16 },
    Open { slots: u8 },
    Fill { offset: u8, binding: Binding },
    Shut,
    Fun { offset: u8, by: u16, count: u8 },
    Proc { offset: u8, by: u16, count: u8 },
    Call { hops: u8, offset: u8, count: u8 },
    Do { hops: u8, offset: u8, count: u8 },
    Back,
    Store { hops: u8, offset: u8 },
    Let,
}

impl Instruction {
    // The instruction's number and its three operands, 0 where it has none. A method: `From` would
    // not name them, and be no plainer.
    pub fn parts(self) -> [i64; 4]
        ensures { result ≡ parts_of self }
    {
        match self {
            Instruction::Push(Value::Number(z)) => [1, 0, z as i64, 0],
            Instruction::Push(Value::Truth(false)) => [1, 1, 0, 0],
            Instruction::Push(Value::Truth(true)) => [1, 1, 1, 0],
            Instruction::Load { hops, offset } => [2, hops as i64, offset as i64, 0],
            Instruction::Minus => [4, 0, 0, 0],
            Instruction::Not => [5, 0, 0, 0],
            Instruction::Add => [6, 0, 0, 0],
            Instruction::Sub => [7, 0, 0, 0],
            Instruction::Mul => [8, 0, 0, 0],
            Instruction::Equal => [9, 0, 0, 0],
            Instruction::Less => [10, 0, 0, 0],
            Instruction::And => [11, 0, 0, 0],
            Instruction::Or => [12, 0, 0, 0],
            Instruction::Pick { by } => [13, by as i64, 0, 0],
            Instruction::Fork { by } => [14, by as i64, 0, 0],
            Instruction::Skip { by } => [15, by as i64, 0, 0],
            Instruction::Leave { by } => [16, by as i64, 0, 0],
            Instruction::Again { by } => [17, -(by as i64), 0, 0],
            Instruction::Open { slots } => [18, slots as i64, 0, 0],
            Instruction::Fill {
                offset,
                binding: Binding::Constant,
            } => [19, offset as i64, 0, 0],
            Instruction::Fill {
                offset,
                binding: Binding::Variable,
            } => [19, offset as i64, 1, 0],
            Instruction::Shut => [20, 0, 0, 0],
            Instruction::Fun { offset, by, count } => [21, offset as i64, by as i64, count as i64],
            Instruction::Proc { offset, by, count } => [22, offset as i64, by as i64, count as i64],
            Instruction::Call {
                hops,
                offset,
                count,
            } => [23, hops as i64, offset as i64, count as i64],
            Instruction::Do {
                hops,
                offset,
                count,
            } => [24, hops as i64, offset as i64, count as i64],
            Instruction::Back => [25, 0, 0, 0],
            Instruction::Store { hops, offset } => [26, hops as i64, offset as i64, 0],
            Instruction::Let => [27, 0, 0, 0],
        }
    }
}

// The number and the three operands, with a space between.
impl fmt::Display for Instruction {
    fn fmt<W: fmt::Write>(&self, f: &mut fmt::Formatter<W>) -> fmt::Result {
        let [number, a, b, c] = self.parts();
        write!(f, "{number} {a} {b} {c}")
    }
}

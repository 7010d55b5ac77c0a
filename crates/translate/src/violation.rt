use crate::record::Sort;
use lang::refusal::{Refusal, Refused};

// How a name is used; a call with its count of args.
#[derive(Clone, Copy, PartialEq, Eq, Debug)]
pub enum Use {
    Value,
    Variable,
    Function(u16),
    Procedure(u16),
}

impl Use {
    // Whether a name of that sort may be used so.
    pub fn check(self, sort: Sort) -> Result<(), Refusal> {
        match (self, sort) {
            (Use::Value, Sort::Constant | Sort::Variable) => Ok(()),
            (Use::Variable, Sort::Variable) => Ok(()),
            (Use::Function(args), Sort::Function(params))
            | (Use::Procedure(args), Sort::Procedure(params)) => {
                if args == params {
                    Ok(())
                } else {
                    Err(Refusal::WrongCount)
                }
            }
            _ => Err(Refusal::WrongSort),
        }
    }
}

// The lesser of two violations: the one at the earlier place, then the one with the lower number.
pub fn lesser(a: Option<Refused>, b: Option<Refused>) -> Option<Refused> {
    match (a, b) {
        (Some(a), Some(b)) => Some(a.min(b)),
        (a, b) => a.or(b),
    }
}

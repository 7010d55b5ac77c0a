ghost use Rattle.std.specs.Prelude.{◌≡◌, ◌+◌, ◌<◌, ◌≤◌};
ghost use Rattle.translate.specs.Views.{FallsLast, FallsBelow, FallsSplit, FallsExpr, FallsCommand, FallsDatum, FallsRoutine};

use crate::record::Sort;
use lang::instruction::{Binding, Instruction};
use lang::name::Name;
use lang::value::Value;
use reader::node::{Info, Label, Param};
use reader::tree::Tree;

// A list of nodes: those from the number `start` up to `end` and the nodes that they hold.
#[derive(Clone, Copy, PartialEq, Eq, Debug)]
pub struct Nodes {
    pub start: usize,
    pub end: usize,
}

// An expression's node, with the numbers of the nodes it holds. `place` is its first byte.
#[derive(Clone, Copy, PartialEq, Eq, Debug)]
pub enum Expr {
    Literal {
        place: u16,
        value: Value,
    },
    Read {
        place: u16,
        name: Name,
    },
    Unary {
        place: u16,
        op: Instruction,
        operand: usize,
    },
    Binary {
        place: u16,
        op: Instruction,
        left: usize,
        right: usize,
    },
    Choose {
        place: u16,
        test: usize,
        yes: usize,
        no: usize,
    },
    Let {
        place: u16,
        name: Name,
        value: usize,
        body: usize,
    },
    Call {
        place: u16,
        name: Name,
        count: u16,
        args: Nodes,
    },
}

// A command's node likewise. `Do` has `name` and `at` apart, since most uses want one alone: a pair would be no plainer.
#[derive(Clone, Copy, PartialEq, Eq, Debug)]
pub enum Command {
    Assign {
        place: u16,
        name: Name,
        value: usize,
    },
    Do {
        place: u16,
        name: Name,
        at: u16,
        count: u16,
        args: Nodes,
    },
    If {
        place: u16,
        test: usize,
        yes: usize,
        no: usize,
    },
    While {
        place: u16,
        test: usize,
        body: usize,
    },
    Block {
        place: u16,
        count: u16,
        data: Nodes,
        routines: Nodes,
        commands: Nodes,
    },
}

// The last datum below a node number: where its own nodes start, and its expression's node. `named` is the name that
// it declares, and where that stands.
#[derive(Clone, Copy, PartialEq, Eq, Debug)]
pub struct Datum {
    pub start: usize,
    pub value: usize,
    pub binding: Binding,
    pub place: u16,
    pub named: Param,
    pub slot: u16,
}

// A function's body is an expression, a procedure's a command.
#[derive(Clone, Copy, PartialEq, Eq, Debug)]
pub enum Form {
    Function,
    Procedure,
}

// The last routine below a node number likewise.
#[derive(Clone, Copy, PartialEq, Eq, Debug)]
pub struct Routine {
    pub start: usize,
    pub node: usize,
    pub body: usize,
    pub form: Form,
    pub place: u16,
    pub named: Param,
    pub slot: u16,
    pub count: u16,
}

// The last node below a number: where its own nodes start, and its number.
pub fn last(tree: &Tree, end: usize) -> Option<(usize, usize)>
    ensures { FallsLast end result }
{
    let n = end.checked_sub(1)?;
    let start = tree.node(n).start as usize;
    (start < end).then_some((start, n))
}

// The number of the node that is the whole text.
pub(crate) fn root(tree: &Tree) -> Option<usize> {
    last(tree, tree.len()).map(|(_, n)| n)
}

// The last N nodes below a number, in order. By index, since a proof sees nothing of the array in a loop over
// `iter_mut().rev()`: that form was tried, and its goal stayed open.
fn below<const N: usize>(tree: &Tree, end: usize) -> Option<[usize; N]>
    ensures { FallsBelow end result }
{
    let mut nodes = [0; N];
    let mut rest = end;
    for i in (0..N).rev() {
        let (start, n) = last(tree, rest)?;
        nodes[i] = n;
        rest = start;
    }
    Some(nodes)
}

// Two, since an expression of one operand and one of two are different variants: no type or constant tells them apart.
fn unary(tree: &Tree, n: usize, place: u16, op: Instruction) -> Option<Expr>
    ensures { FallsExpr n result }
{
    let [operand] = below::<1>(tree, n)?;
    Some(Expr::Unary { place, op, operand })
}

fn binary(tree: &Tree, n: usize, place: u16, op: Instruction) -> Option<Expr>
    ensures { FallsExpr n result }
{
    let [left, right] = below::<2>(tree, n)?;
    Some(Expr::Binary {
        place,
        op,
        left,
        right,
    })
}

// An expression's node; none where the node is no expression's.
pub fn expr_at(tree: &Tree, n: usize) -> Option<Expr>
    ensures { FallsExpr n result }
{
    let node = tree.node(n);
    let Info {
        label,
        place,
        name,
        ..
    } = node.info;
    match label {
        Label::Number(z) => Some(Expr::Literal {
            place,
            value: Value::Number(z),
        }),
        Label::Truth(b) => Some(Expr::Literal {
            place,
            value: Value::Truth(b),
        }),
        Label::Read => Some(Expr::Read { place, name }),
        Label::Call => Some(Expr::Call {
            place,
            name,
            count: node.info.count,
            args: Nodes {
                start: node.start as usize,
                end: n,
            },
        }),
        Label::Minus => unary(tree, n, place, Instruction::Minus),
        Label::Not => unary(tree, n, place, Instruction::Not),
        Label::Add => binary(tree, n, place, Instruction::Add),
        Label::Sub => binary(tree, n, place, Instruction::Sub),
        Label::Mul => binary(tree, n, place, Instruction::Mul),
        Label::Equal => binary(tree, n, place, Instruction::Equal),
        Label::Less => binary(tree, n, place, Instruction::Less),
        Label::And => binary(tree, n, place, Instruction::And),
        Label::Or => binary(tree, n, place, Instruction::Or),
        Label::Choose => {
            let [test, yes, no] = below::<3>(tree, n)?;
            Some(Expr::Choose {
                place,
                test,
                yes,
                no,
            })
        }
        Label::Let => {
            let [value, body] = below::<2>(tree, n)?;
            Some(Expr::Let {
                place,
                name,
                value,
                body,
            })
        }
        _ => None,
    }
}

// A command's node; none where the node is no command's.
pub fn command_at(tree: &Tree, n: usize) -> Option<Command>
    ensures { FallsCommand n result }
{
    let node = tree.node(n);
    let start = node.start as usize;
    let Info {
        label,
        place,
        name,
        at,
        count,
        ..
    } = node.info;
    match label {
        Label::Assign => {
            let [value] = below::<1>(tree, n)?;
            Some(Command::Assign { place, name, value })
        }
        Label::Do => Some(Command::Do {
            place,
            name,
            at,
            count,
            args: Nodes { start, end: n },
        }),
        Label::If => {
            let [test, yes, no] = below::<3>(tree, n)?;
            Some(Command::If {
                place,
                test,
                yes,
                no,
            })
        }
        Label::While => {
            let [test, body] = below::<2>(tree, n)?;
            Some(Command::While { place, test, body })
        }
        Label::Block => {
            let commands = n.saturating_sub(node.info.commands as usize);
            let routines = commands.saturating_sub(node.info.routines as usize);
            Some(Command::Block {
                place,
                count,
                data: Nodes {
                    start,
                    end: routines,
                },
                routines: Nodes {
                    start: routines,
                    end: commands,
                },
                commands: Nodes {
                    start: commands,
                    end: n,
                },
            })
        }
        _ => None,
    }
}

// The name that a declaration's node declares.
fn declared_by(info: Info) -> Param {
    Param {
        name: info.name,
        at: info.at,
    }
}

// The last datum below a number. Not one function with `routine_below`: they end in different
// structs, so it would be no plainer.
pub fn datum_below(tree: &Tree, end: usize) -> Option<Datum>
    ensures { FallsDatum end result }
{
    let (start, n) = last(tree, end)?;
    let (_, value) = last(tree, n)?;
    let info = tree.node(n).info;
    let binding = match info.label {
        Label::Var => Binding::Variable,
        _ => Binding::Constant,
    };
    Some(Datum {
        start,
        value,
        binding,
        place: info.place,
        named: declared_by(info),
        slot: info.slot,
    })
}

// The last routine below a number.
pub fn routine_below(tree: &Tree, end: usize) -> Option<Routine>
    ensures { FallsRoutine end result }
{
    let (start, node) = last(tree, end)?;
    let (_, body) = last(tree, node)?;
    let info = tree.node(node).info;
    let form = form_of(info.label);
    Some(Routine {
        start,
        node,
        body,
        form,
        place: info.place,
        named: declared_by(info),
        slot: info.slot,
        count: info.count,
    })
}

// The form of a routine, by its node's label.
fn form_of(label: Label) -> Form {
    match label {
        Label::Fun => Form::Function,
        _ => Form::Procedure,
    }
}

impl Form {
    // What a routine of this form with so many parameters declares its name as.
    fn sort(self, count: u16) -> Sort {
        match self {
            Form::Function => Sort::Function(count),
            Form::Procedure => Sort::Procedure(count),
        }
    }
}

impl Routine {
    // What it declares its name as.
    pub(crate) fn sort(self) -> Sort {
        self.form.sort(self.count)
    }
}

// What the routine at a node declares, if that is its name. The node alone is read: a whole `Routine` looks at its body
// too, and this is asked of every routine of a block that has too many names, for each use.
pub(crate) fn routine_named(tree: &Tree, n: usize, name: Name) -> Option<Sort> {
    let info = tree.node(n).info;
    (info.name == name).then_some(form_of(info.label).sort(info.count))
}

impl Nodes {
    // The last of them, and those before it.
    pub(crate) fn split_last(self, tree: &Tree) -> Option<(usize, Nodes)>
        ensures { FallsSplit self.end result }
    {
        if self.start >= self.end {
            return None;
        }
        let (end, n) = last(tree, self.end)?;
        Some((n, Nodes { end, ..self }))
    }
}

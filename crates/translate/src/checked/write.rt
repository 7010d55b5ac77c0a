ghost use Rattle.std.specs.Prelude.{◌≡◌, length};
ghost use Rattle.lang.specs.Codes.{instructions_of};
ghost use Rattle.lang.specs.Stacks.{room};
ghost use Rattle.translate.specs.Rooms.{SameRoom, KeepsNames, WriterKeeps};

use crate::checked::Checked;
use crate::record::{Record, Sort};
use crate::scope::{MOST_SLOTS, Scope};
use crate::view::{
    Command, Expr, Form, Nodes, Routine, command_at, datum_below, expr_at, root, routine_below,
};
use lang::code::Code;
use lang::instruction::{Binding, Instruction};
use lang::narrow::{byte, short};
use lang::sheet::Sheet;
use lang::stack::Stack;

// Writes code in the order of the text.
#[derive(Drop)]
struct Writer<'w, 't, 'm, 's, 'n, 'c, 'i> {
    scope: &'w mut Scope<'t, 'm, 's, 'n>,
    code: &'c mut Code<'i>,
}

// Writes the code of a checked tree from position 0, and answers its length.
pub fn translate(
    checked: Checked,
    sheet: &Sheet,
    names: &mut Stack<Record>,
    code: &mut Code,
) -> usize
    ensures names { room names.new ≡ room names.old }
    ensures code { SameRoom code.old code.new }
    ensures length { result ≡ length (instructions_of code.new) }
{
    code.clear();
    let mut scope = Scope {
        tree: checked.tree,
        names,
        depth: 1,
    };
    scope.start(sheet);
    write(&mut scope, code);
    names.clear();
    code.len()
}

// Writes the command that is the whole text.
fn write(scope: &mut Scope, code: &mut Code)
    ensures names { KeepsNames scope.old scope.new }
    ensures code { SameRoom code.old code.new }
{
    let mut writer = Writer { scope, code };
    writer.write_rule();
}

impl Writer<'_, '_, '_, '_, '_, '_, '_> {
    // One instruction more; a checked tree has at most three for each node, so there is room.
    fn emit(&mut self, instruction: Instruction, place: u16)
        ensures { WriterKeeps self.old self.new }
    {
        let _ = self.code.emit(instruction, place);
    }

    // From a position to the next to be written.
    fn distance(&self, from: usize) -> u16 {
        short(self.code.len().saturating_sub(from))
    }

    // The expression at a node.
    #[cycle(expression_code)]
    fn write_expr(&mut self, n: usize)
        ensures { WriterKeeps self.old self.new }
    {
        let Some(expr) = expr_at(self.scope.tree, n) else {
            return;
        };
        match expr {
            Expr::Literal { place, value } => self.emit(Instruction::Push(value), place),
            Expr::Read { place, name } => {
                let (hops, offset) = self.scope.pair(name);
                self.emit(Instruction::Load { hops, offset }, place);
            }
            Expr::Unary { place, op, operand } => {
                self.write_expr(operand);
                self.emit(op, place);
            }
            Expr::Binary {
                place,
                op,
                left,
                right,
            } => {
                self.write_expr(left);
                self.write_expr(right);
                self.emit(op, place);
            }
            Expr::Choose {
                place,
                test,
                yes,
                no,
            } => {
                self.write_expr(test);
                let pick = self.code.len();
                self.emit(Instruction::Pick { by: 0 }, place);
                self.write_expr(yes);
                let skip = self.code.len();
                self.emit(Instruction::Skip { by: 0 }, place);
                let by = self.distance(pick);
                self.code.patch(pick, Instruction::Pick { by });
                self.write_expr(no);
                let by = self.distance(skip);
                self.code.patch(skip, Instruction::Skip { by });
            }
            Expr::Let {
                place,
                name,
                value,
                body,
            } => {
                self.emit(Instruction::Let, place);
                let outer = self.scope.enter();
                self.write_expr(value);
                self.emit(
                    Instruction::Fill {
                        offset: 0,
                        binding: Binding::Constant,
                    },
                    place,
                );
                self.scope.push(name, Sort::Constant, 0);
                self.write_expr(body);
                self.scope.leave(outer);
                self.emit(Instruction::Shut, place);
            }
            Expr::Call {
                place,
                name,
                count,
                args,
            } => {
                self.write_args(args);
                let (hops, offset) = self.scope.pair(name);
                let count = byte(count as usize);
                self.emit(
                    Instruction::Call {
                        hops,
                        offset,
                        count,
                    },
                    place,
                );
            }
        }
    }

    // A list is written in order and can be stepped through only from its end back: with no heap to turn it round in, by
    // recursion. Each kind of list has its own: one for all that takes the step, and a trait with these as its bodies, were
    // tried, and neither gets a proof, as functions in a cycle must have the same type parameters, and no body of a trait
    // may call itself.
    #[cycle(expression_code)]
    fn write_args(&mut self, args: Nodes)
        ensures { WriterKeeps self.old self.new }
    {
        if let Some((n, before)) = args.split_last(self.scope.tree) {
            self.write_args(before);
            self.write_expr(n);
        }
    }

    // Each datum sees those before it, and their names stay.
    fn write_data(&mut self, data: Nodes)
        ensures { WriterKeeps self.old self.new }
    {
        if let Some((_, before)) = data.split_last(self.scope.tree) {
            self.write_data(before);
            self.write_datum(data.end);
        }
    }

    // The last datum below a number.
    fn write_datum(&mut self, end: usize)
        ensures { WriterKeeps self.old self.new }
    {
        let Some(datum) = datum_below(self.scope.tree, end) else {
            return;
        };
        self.write_expr(datum.value);
        let slot = datum.slot as usize;
        self.emit(
            Instruction::Fill {
                offset: byte(slot),
                binding: datum.binding,
            },
            datum.place,
        );
        let sort = Sort::from(datum.binding);
        let _ = self.scope.declare(datum.named, sort, slot, MOST_SLOTS);
    }

    // The command at a node.
    #[cycle(command_code)]
    fn write_command(&mut self, n: usize)
        ensures { WriterKeeps self.old self.new }
    {
        let Some(command) = command_at(self.scope.tree, n) else {
            return;
        };
        match command {
            Command::Assign { place, name, value } => {
                self.write_expr(value);
                let (hops, offset) = self.scope.pair(name);
                self.emit(Instruction::Store { hops, offset }, place);
            }
            Command::Do {
                place,
                name,
                count,
                args,
                ..
            } => {
                self.write_args(args);
                let (hops, offset) = self.scope.pair(name);
                let count = byte(count as usize);
                self.emit(
                    Instruction::Do {
                        hops,
                        offset,
                        count,
                    },
                    place,
                );
            }
            Command::If {
                place,
                test,
                yes,
                no,
            } => {
                self.write_expr(test);
                let fork = self.code.len();
                self.emit(Instruction::Fork { by: 0 }, place);
                self.write_command(yes);
                let skip = self.code.len();
                self.emit(Instruction::Skip { by: 0 }, place);
                let by = self.distance(fork);
                self.code.patch(fork, Instruction::Fork { by });
                self.write_command(no);
                let by = self.distance(skip);
                self.code.patch(skip, Instruction::Skip { by });
            }
            Command::While { place, test, body } => {
                let top = self.code.len();
                self.write_expr(test);
                let leave = self.code.len();
                self.emit(Instruction::Leave { by: 0 }, place);
                self.write_command(body);
                let by = self.distance(top);
                self.emit(Instruction::Again { by }, place);
                let by = self.distance(leave);
                self.code.patch(leave, Instruction::Leave { by });
            }
            Command::Block {
                place,
                count,
                data,
                routines,
                commands,
            } => {
                let slots = byte(count as usize);
                self.emit(Instruction::Open { slots }, place);
                let outer = self.scope.enter();
                self.write_data(data);
                let _ = self.scope.declare_routines(routines);
                self.write_routines(routines);
                self.write_commands(commands);
                self.scope.leave(outer);
                self.emit(Instruction::Shut, place);
            }
        }
    }

    #[cycle(command_code)]
    fn write_commands(&mut self, commands: Nodes)
        ensures { WriterKeeps self.old self.new }
    {
        if let Some((n, before)) = commands.split_last(self.scope.tree) {
            self.write_commands(before);
            self.write_command(n);
        }
    }

    #[cycle(command_code)]
    fn write_routines(&mut self, routines: Nodes)
        ensures { WriterKeeps self.old self.new }
    {
        if let Some((_, before)) = routines.split_last(self.scope.tree) {
            self.write_routines(before);
            self.write_routine(routines.end);
        }
    }

    // The last routine below a number.
    #[cycle(command_code)]
    fn write_routine(&mut self, end: usize)
        ensures { WriterKeeps self.old self.new }
    {
        let Some(routine) = routine_below(self.scope.tree, end) else {
            return;
        };
        let at = self.code.len();
        self.emit(declares(routine, 0), routine.place);
        let outer = self.scope.enter();
        let _ = self.scope.declare_params(routine);
        match routine.form {
            Form::Function => self.write_expr(routine.body),
            Form::Procedure => self.write_command(routine.body),
        }
        self.scope.leave(outer);
        self.emit(Instruction::Back, routine.place);
        let by = self.distance(at);
        self.code.patch(at, declares(routine, by));
    }

    // The command that is the whole text.
    fn write_rule(&mut self)
        ensures { WriterKeeps self.old self.new }
    {
        if let Some(n) = root(self.scope.tree) {
            self.write_command(n);
        }
    }
}

// The instruction that declares a routine.
fn declares(routine: Routine, by: u16) -> Instruction {
    let offset = byte(routine.slot as usize);
    let count = byte(routine.count as usize);
    match routine.form {
        Form::Function => Instruction::Fun { offset, by, count },
        Form::Procedure => Instruction::Proc { offset, by, count },
    }
}

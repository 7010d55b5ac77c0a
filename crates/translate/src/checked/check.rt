ghost use Rattle.std.specs.Prelude.{◌≡◌};
ghost use Rattle.lang.specs.Stacks.{room};
ghost use Rattle.translate.specs.Rooms.{KeepsNames, CheckerKeeps};

use crate::checked::Checked;
use crate::record::{Record, Sort};
use crate::scope::{MOST_SLOTS, Outer, Scope};
use crate::view::{
    Command, Expr, Form, Nodes, command_at, datum_below, expr_at, root, routine_below,
};
use crate::violation::{Use, lesser};
use lang::name::Name;
use lang::refusal::{Refusal, Refused};
use lang::sheet::Sheet;
use lang::stack::Stack;
use reader::tree::Tree;

// The most frames that stand inside one another, the sheet's included.
const MOST_FRAMES: u8 = 16;

// Looks for violations, of which the least is kept.
#[derive(Drop)]
struct Checker<'c, 't, 'm, 's, 'n> {
    scope: &'c mut Scope<'t, 'm, 's, 'n>,
    least: Option<Refused>,
}

// The tree with its names checked over the sheet, or the violation with the earliest place, then the lowest number.
pub fn check<'a, 'm>(
    tree: &'a Tree<'m>,
    sheet: &Sheet,
    names: &mut Stack<Record>,
) -> Result<Checked<'a, 'm>, Refused>
    ensures { room names.new ≡ room names.old }
{
    let mut scope = Scope {
        tree,
        names,
        depth: 1,
    };
    scope.start(sheet);
    let judged = sound(&mut scope);
    names.clear();
    judged.map(|()| Checked { tree })
}

// Whether the command that is the whole text has no violation; else the least.
fn sound(scope: &mut Scope) -> Result<(), Refused>
    ensures { KeepsNames scope.old scope.new }
{
    let mut checker = Checker { scope, least: None };
    checker.check_rule();
    checker.least.map_or(Ok(()), Err)
}

impl Checker<'_, '_, '_, '_, '_> {
    // One violation more, if there is one.
    fn note(&mut self, found: Option<Refused>)
        ensures { CheckerKeeps self.old self.new }
    {
        self.least = lesser(self.least, found);
    }

    // A name is used at a place.
    fn check_use(&mut self, name: Name, how: Use, place: u16)
        ensures { CheckerKeeps self.old self.new }
    {
        let used = self
            .scope
            .look_up(name)
            .ok_or(Refusal::NotVisible)
            .and_then(|found| how.check(found.sort));
        self.note(used.err().map(|why| why.at(place)));
    }

    // Goes into the frame of a construct at a place, unless too many stand around it.
    fn enter(&mut self, place: u16) -> Option<Outer>
        ensures { CheckerKeeps self.old self.new }
    {
        if self.scope.depth >= MOST_FRAMES {
            self.note(Some(Refusal::ScopesTooDeep.at(place)));
            return None;
        }
        Some(self.scope.enter())
    }

    // The expression at a node.
    #[cycle(expression_checks)]
    fn check_expr(&mut self, n: usize)
        ensures { CheckerKeeps self.old self.new }
    {
        let Some(expr) = expr_at(self.scope.tree, n) else {
            return;
        };
        match expr {
            Expr::Literal { .. } => {}
            Expr::Read { place, name } => self.check_use(name, Use::Value, place),
            Expr::Unary { operand, .. } => self.check_expr(operand),
            Expr::Binary { left, right, .. } => {
                self.check_expr(left);
                self.check_expr(right);
            }
            Expr::Choose { test, yes, no, .. } => {
                self.check_expr(test);
                self.check_expr(yes);
                self.check_expr(no);
            }
            Expr::Let {
                place,
                name,
                value,
                body,
            } => {
                let Some(outer) = self.enter(place) else {
                    return;
                };
                self.check_expr(value);
                self.scope.push(name, Sort::Constant, 0);
                self.check_expr(body);
                self.scope.leave(outer);
            }
            Expr::Call {
                place,
                name,
                count,
                args,
            } => {
                self.check_use(name, Use::Function(count), place);
                self.check_args(args);
            }
        }
    }

    // A list is checked in order and can be stepped through only from its end back: with no heap to turn it round in, by
    // recursion. Each kind of list has its own: one for all that takes the step, and a trait with these as its bodies, were
    // tried, and neither gets a proof, as functions in a cycle must have the same type parameters, and no body of a trait
    // may call itself.
    #[cycle(expression_checks)]
    fn check_args(&mut self, args: Nodes)
        ensures { CheckerKeeps self.old self.new }
    {
        if let Some((n, before)) = args.split_last(self.scope.tree) {
            self.check_args(before);
            self.check_expr(n);
        }
    }

    // Each datum sees those before it, and their names stay.
    fn check_data(&mut self, data: Nodes)
        ensures { CheckerKeeps self.old self.new }
    {
        if let Some((_, before)) = data.split_last(self.scope.tree) {
            self.check_data(before);
            self.check_datum(data.end);
        }
    }

    // The last datum below a number.
    fn check_datum(&mut self, end: usize)
        ensures { CheckerKeeps self.old self.new }
    {
        let Some(datum) = datum_below(self.scope.tree, end) else {
            return;
        };
        self.check_expr(datum.value);
        let slot = datum.slot as usize;
        let sort = Sort::from(datum.binding);
        let declared = self.scope.declare(datum.named, sort, slot, MOST_SLOTS);
        self.note(declared.err());
    }

    // The command at a node.
    #[cycle(command_checks)]
    fn check_command(&mut self, n: usize)
        ensures { CheckerKeeps self.old self.new }
    {
        let Some(command) = command_at(self.scope.tree, n) else {
            return;
        };
        match command {
            Command::Assign { place, name, value } => {
                self.check_use(name, Use::Variable, place);
                self.check_expr(value);
            }
            Command::Do {
                name,
                at,
                count,
                args,
                ..
            } => {
                self.check_use(name, Use::Procedure(count), at);
                self.check_args(args);
            }
            Command::If { test, yes, no, .. } => {
                self.check_expr(test);
                self.check_command(yes);
                self.check_command(no);
            }
            Command::While { test, body, .. } => {
                self.check_expr(test);
                self.check_command(body);
            }
            Command::Block {
                place,
                count,
                data,
                routines,
                commands,
            } => {
                let Some(outer) = self.enter(place) else {
                    return;
                };
                self.check_data(data);
                let declared = self.scope.declare_routines(routines);
                self.note(declared);
                self.scope.push_rest(count, routines);
                self.check_routines(routines);
                self.check_commands(commands);
                self.scope.leave(outer);
            }
        }
    }

    #[cycle(command_checks)]
    fn check_commands(&mut self, commands: Nodes)
        ensures { CheckerKeeps self.old self.new }
    {
        if let Some((n, before)) = commands.split_last(self.scope.tree) {
            self.check_commands(before);
            self.check_command(n);
        }
    }

    #[cycle(command_checks)]
    fn check_routines(&mut self, routines: Nodes)
        ensures { CheckerKeeps self.old self.new }
    {
        if let Some((_, before)) = routines.split_last(self.scope.tree) {
            self.check_routines(before);
            self.check_routine(routines.end);
        }
    }

    // The parameters and the body of the last routine below a number.
    #[cycle(command_checks)]
    fn check_routine(&mut self, end: usize)
        ensures { CheckerKeeps self.old self.new }
    {
        let Some(routine) = routine_below(self.scope.tree, end) else {
            return;
        };
        let Some(outer) = self.enter(routine.place) else {
            return;
        };
        let declared = self.scope.declare_params(routine);
        self.note(declared);
        match routine.form {
            Form::Function => self.check_expr(routine.body),
            Form::Procedure => self.check_command(routine.body),
        }
        self.scope.leave(outer);
    }

    // The command that is the whole text. Like `write_rule` but for the walk: one for both would be no plainer.
    fn check_rule(&mut self)
        ensures { CheckerKeeps self.old self.new }
    {
        if let Some(n) = root(self.scope.tree) {
            self.check_command(n);
        }
    }
}

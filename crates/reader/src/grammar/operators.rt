ghost use Rattle.std.specs.Prelude.{◌≡◌};
ghost use Rattle.reader.specs.Looking.{Gone};

use crate::grammar::Reader;
use crate::grammar::begins::Line;
use crate::grammar::build::{Start, plain};
use crate::node::Label;
use lang::refusal::Refused;
use lang::word::Kind;

// The operators that group to the left, from the loosest on.
#[derive(Clone, Copy, PartialEq, Eq, Debug)]
pub enum Level {
    Or,
    And,
    Term,
    Factor,
}

// An operator's place is that of the first word of its left side, brackets too.
impl<'t, 'm> Reader<'t, 'm> {
    // either: both ('or' both)..
    // both: test ('and' test)..
    // sum: product (('+' | '-') product)..
    // product: prefix ('*' prefix)..
    #[cycle(lines)]
    pub fn grouped(&mut self, level: Level) -> Result<(), Refused>
        ensures { Gone self.old self.new result }
    {
        let start = self.start();
        self.side(level)?;
        while let Some(label) = self.operator(level) {
            self.advance()?;
            self.side(level)?;
            self.end(start, plain(label));
        }
        Ok(())
    }

    // What stands on each side of an operator.
    #[cycle(lines)]
    fn side(&mut self, level: Level) -> Result<(), Refused>
        ensures { Gone self.old self.new result }
    {
        match level {
            Level::Or => self.grouped(Level::And),
            Level::And => self.test(),
            Level::Term => self.grouped(Level::Factor),
            Level::Factor => self.line(Line::Prefix),
        }
    }

    // The operator of a level, if one stands here.
    fn operator(&self, level: Level) -> Option<Label> {
        match (level, self.kind()?) {
            (Level::Or, Kind::Or) => Some(Label::Or),
            (Level::And, Kind::And) => Some(Label::And),
            (Level::Term, Kind::Plus) => Some(Label::Add),
            (Level::Term, Kind::Minus) => Some(Label::Sub),
            (Level::Factor, Kind::Times) => Some(Label::Mul),
            _ => None,
        }
    }

    // test: sum | sum '=' sum | sum '<' sum
    #[cycle(lines)]
    fn test(&mut self) -> Result<(), Refused>
        ensures { Gone self.old self.new result }
    {
        let start = self.start();
        self.grouped(Level::Term)?;
        match self.kind() {
            Some(Kind::Equal) => self.compared(Label::Equal, start),
            Some(Kind::Less) => self.compared(Label::Less, start),
            _ => Ok(()),
        }
    }

    // The sign of a comparison and its right side.
    #[cycle(lines)]
    fn compared(&mut self, label: Label, start: Start) -> Result<(), Refused>
        ensures { Gone self.old self.new result }
    {
        self.advance()?;
        self.grouped(Level::Term)?;
        self.end(start, plain(label));
        Ok(())
    }
}

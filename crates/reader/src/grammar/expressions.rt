ghost use Rattle.std.specs.Prelude.{◌≡◌};
ghost use Rattle.reader.specs.Looking.{Gone, Lists};

use crate::grammar::Reader;
use crate::grammar::begins::Line;
use crate::grammar::build::{Start, named, plain};
use crate::grammar::operators::Level;
use crate::node::{Info, Label, Param};
use crate::number::value;
use lang::refusal::{Refusal, Refused};
use lang::word::Kind;

impl<'t, 'm> Reader<'t, 'm> {
    // expr: 'if' expr 'then' expr 'else' expr | 'let' name '=' expr 'in' expr | either
    #[cycle(lines)]
    pub fn expr(&mut self) -> Result<(), Refused>
        ensures { Gone self.old self.new result }
    {
        match self.kind() {
            Some(Kind::If) => self.choice(Label::Choose, Line::Expr),
            Some(Kind::Let) => self.bind(),
            _ => self.grouped(Level::Or),
        }
    }

    // 'let' name '=' expr 'in' expr
    #[cycle(lines)]
    fn bind(&mut self) -> Result<(), Refused>
        ensures { Gone self.old self.new result }
    {
        let start = self.start();
        self.expect(Kind::Let)?;
        let name = self.name()?;
        self.expect(Kind::Equal)?;
        self.line(Line::Expr)?;
        self.expect(Kind::In)?;
        self.line(Line::Expr)?;
        self.end(start, named(Label::Let, name));
        Ok(())
    }

    // prefix: '-' prefix | 'not' prefix | atom
    #[cycle(lines)]
    pub fn prefix(&mut self) -> Result<(), Refused>
        ensures { Gone self.old self.new result }
    {
        match self.kind() {
            Some(Kind::Minus) => self.unary(Label::Minus),
            Some(Kind::Not) => self.unary(Label::Not),
            _ => self.atom(),
        }
    }

    // A sign and what it stands before.
    #[cycle(lines)]
    fn unary(&mut self, label: Label) -> Result<(), Refused>
        ensures { Gone self.old self.new result }
    {
        let start = self.start();
        self.advance()?;
        self.line(Line::Prefix)?;
        self.end(start, plain(label));
        Ok(())
    }

    // atom: number | 'true' | 'false' | name | name '(' args ')' | '(' expr ')'
    #[cycle(lines)]
    fn atom(&mut self) -> Result<(), Refused>
        ensures { Gone self.old self.new result }
    {
        match self.kind() {
            Some(Kind::Name) => self.named_atom(),
            Some(Kind::Open) => self.brackets(),
            _ => self.leaf(),
        }
    }

    // number | 'true' | 'false'
    fn leaf(&mut self) -> Result<(), Refused>
        ensures { Gone self.old self.new result }
    {
        let start = self.start();
        let label = self.constant()?;
        self.advance()?;
        self.end(start, plain(label));
        Ok(())
    }

    // The constant that the word looked at is.
    fn constant(&self) -> Result<Label, Refused> {
        let word = self.word.ok_or(self.unexpected())?;
        match word.kind {
            Kind::True => Ok(Label::Truth(true)),
            Kind::False => Ok(Label::Truth(false)),
            Kind::Number => value(word.bytes)
                .map(Label::Number)
                .ok_or(self.refused(Refusal::NumberTooLarge)),
            _ => Err(self.unexpected()),
        }
    }

    // '(' expr ')'
    #[cycle(lines)]
    fn brackets(&mut self) -> Result<(), Refused>
        ensures { Gone self.old self.new result }
    {
        self.expect(Kind::Open)?;
        self.line(Line::Expr)?;
        self.expect(Kind::Close)
    }

    // name | name '(' args ')'
    #[cycle(lines)]
    fn named_atom(&mut self) -> Result<(), Refused>
        ensures { Gone self.old self.new result }
    {
        let start = self.start();
        let name = self.name()?;
        if self.next_is(Kind::Open) {
            return self.call(Label::Call, name, start);
        }
        self.end(start, named(Label::Read, name));
        Ok(())
    }

    // '(' args ')' of a name that is called
    #[cycle(lines)]
    pub fn call(&mut self, label: Label, name: Param, start: Start) -> Result<(), Refused>
        ensures { Gone self.old self.new result }
    {
        self.expect(Kind::Open)?;
        let count = self.args()?;
        self.expect(Kind::Close)?;
        let info = Info {
            count,
            ..named(label, name)
        };
        self.end(start, info);
        Ok(())
    }

    // A comma list of expressions, up to its ')'; how many there are. One list for this and `names`, with a closure
    // for the item, was tried: `FnMut(&mut Self)` names two lifetimes, and a call by such a bound is not proved yet.
    #[cycle(lines)]
    fn args(&mut self) -> Result<u16, Refused>
        ensures { Lists self.old self.new result }
    {
        if self.next_is(Kind::Close) {
            return Ok(0);
        }
        self.line(Line::Expr)?;
        let mut count: u16 = 1;
        while self.next_is(Kind::Comma) {
            self.advance()?;
            self.line(Line::Expr)?;
            count = count.saturating_add(1);
        }
        Ok(count)
    }
}

ghost use Rattle.std.specs.Prelude.{◌≡◌, OnOk};
ghost use Rattle.reader.specs.Looking.{Gone, Lists, Took, Went};

use crate::grammar::Reader;
use crate::grammar::begins::Line;
use crate::grammar::build::{Params, named};
use crate::node::{Info, Label};
use lang::refusal::Refused;
use lang::word::Kind;

// The declarations of a block, in their order.
#[derive(Clone, Copy, PartialEq, Eq, Debug)]
pub enum Part {
    Data,
    Routines,
}

impl<'t, 'm> Reader<'t, 'm> {
    // datum.. or routine..: the number of the slot behind them.
    #[cycle(lines)]
    pub fn declared(&mut self, part: Part, first: u16) -> Result<u16, Refused>
        ensures { Lists self.old self.new result }
    {
        let mut slot = first;
        while let Some(label) = self.declares(part) {
            self.declaration(part, label, slot)?;
            slot = slot.saturating_add(1);
        }
        Ok(slot)
    }

    // What is declared here, if a declaration of the part stands here.
    fn declares(&self, part: Part) -> Option<Label> {
        match (part, self.kind()?) {
            (Part::Data, Kind::Const) => Some(Label::Const),
            (Part::Data, Kind::Var) => Some(Label::Var),
            (Part::Routines, Kind::Fun) => Some(Label::Fun),
            (Part::Routines, Kind::Proc) => Some(Label::Proc),
            _ => None,
        }
    }

    // datum or routine
    #[cycle(lines)]
    fn declaration(&mut self, part: Part, label: Label, slot: u16) -> Result<(), Refused>
        ensures { Gone self.old self.new result }
    {
        match part {
            Part::Data => self.datum(label, slot),
            Part::Routines => self.routine(label, slot),
        }
    }

    // datum: ('const' | 'var') name '=' expr ';'
    #[cycle(lines)]
    fn datum(&mut self, label: Label, slot: u16) -> Result<(), Refused>
        ensures { Gone self.old self.new result }
    {
        let start = self.start();
        self.advance()?;
        let name = self.name()?;
        self.answer()?;
        let info = Info {
            slot,
            ..named(label, name)
        };
        self.end(start, info);
        Ok(())
    }

    // '(' names ')': a comma list of none or more.
    pub fn params(&mut self) -> Result<Params, Refused>
        ensures { Took self.old self.new result }
    {
        self.expect(Kind::Open)?;
        let names = self.names()?;
        self.expect(Kind::Close)?;
        Ok(names)
    }

    // A comma list of names, up to its ')'. One list for this and `args` was tried, see there.
    fn names(&mut self) -> Result<Params, Refused>
        ensures tree { self.new.tree ≡ self.old.tree }
        ensures read { OnOk result (Went self.old self.new) }
    {
        let mut params = Params::none();
        if self.next_is(Kind::Close) {
            return Ok(params);
        }
        params.add(self.name()?);
        while self.next_is(Kind::Comma) {
            self.advance()?;
            params.add(self.name()?);
        }
        Ok(params)
    }

    // '=' expr ';', what a datum holds or a function answers.
    #[cycle(lines)]
    pub fn answer(&mut self) -> Result<(), Refused>
        ensures { Gone self.old self.new result }
    {
        self.expect(Kind::Equal)?;
        self.line(Line::Expr)?;
        self.expect(Kind::Semicolon)
    }
}

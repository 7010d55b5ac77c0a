ghost use Rattle.std.specs.Prelude.{◌≡◌};
ghost use Rattle.reader.specs.Looking.{Gone, Lists, Grew};

use crate::grammar::Reader;
use crate::grammar::begins::Line;
use crate::grammar::build::{named, plain, routine};
use crate::grammar::declarations::Part;
use crate::node::{Info, Label};
use lang::refusal::Refused;
use lang::word::Kind;

impl<'t, 'm> Reader<'t, 'm> {
    // A rule: one command, and the end of the text.
    pub fn rule(&mut self) -> Result<(), Refused>
        ensures { Grew self.old self.new }
    {
        self.line(Line::Command)?;
        if self.ended() {
            Ok(())
        } else {
            Err(self.unexpected())
        }
    }

    // One of the three lines that nest: it is entered, read and left.
    #[cycle(lines)]
    pub fn line(&mut self, line: Line) -> Result<(), Refused>
        ensures { Gone self.old self.new result }
    {
        self.enter(line)?;
        match line {
            Line::Command => self.command()?,
            Line::Expr => self.expr()?,
            Line::Prefix => self.prefix()?,
        }
        self.leave();
        Ok(())
    }

    // command: block | assignment | call | if | while
    #[cycle(lines)]
    fn command(&mut self) -> Result<(), Refused>
        ensures { Gone self.old self.new result }
    {
        match self.kind() {
            Some(Kind::OpenBrace) => self.block(),
            Some(Kind::If) => self.choice(Label::If, Line::Command),
            Some(Kind::While) => self.repeat(),
            Some(Kind::Call) => self.act(),
            _ => self.assign(),
        }
    }

    // name ':=' expr ';'
    #[cycle(lines)]
    fn assign(&mut self) -> Result<(), Refused>
        ensures { Gone self.old self.new result }
    {
        let start = self.start();
        let name = self.name()?;
        self.expect(Kind::Becomes)?;
        self.line(Line::Expr)?;
        self.expect(Kind::Semicolon)?;
        self.end(start, named(Label::Assign, name));
        Ok(())
    }

    // 'call' name '(' args ')' ';'
    #[cycle(lines)]
    fn act(&mut self) -> Result<(), Refused>
        ensures { Gone self.old self.new result }
    {
        let start = self.start();
        self.expect(Kind::Call)?;
        let name = self.name()?;
        self.call(Label::Do, name, start)?;
        self.expect(Kind::Semicolon)
    }

    // 'if' expr 'then' branch 'else' branch, where both branches are commands or both are exprs
    #[cycle(lines)]
    pub fn choice(&mut self, label: Label, branch: Line) -> Result<(), Refused>
        ensures { Gone self.old self.new result }
    {
        let start = self.start();
        self.expect(Kind::If)?;
        self.line(Line::Expr)?;
        self.expect(Kind::Then)?;
        self.line(branch)?;
        self.expect(Kind::Else)?;
        self.line(branch)?;
        self.end(start, plain(label));
        Ok(())
    }

    // 'while' expr 'do' command
    #[cycle(lines)]
    fn repeat(&mut self) -> Result<(), Refused>
        ensures { Gone self.old self.new result }
    {
        let start = self.start();
        self.expect(Kind::While)?;
        self.line(Line::Expr)?;
        self.expect(Kind::Do)?;
        self.line(Line::Command)?;
        self.end(start, plain(Label::While));
        Ok(())
    }

    // block: '{' datum.. routine.. command.. '}'
    #[cycle(lines)]
    fn block(&mut self) -> Result<(), Refused>
        ensures { Gone self.old self.new result }
    {
        let start = self.start();
        self.expect(Kind::OpenBrace)?;
        let data = self.declared(Part::Data, 0)?;
        let first_routine = self.tree.len();
        let count = self.declared(Part::Routines, data)?;
        let routines = self.nodes_since(first_routine);
        let first_command = self.tree.len();
        self.commands()?;
        let commands = self.nodes_since(first_command);
        self.expect(Kind::CloseBrace)?;
        let info = Info {
            count,
            routines,
            commands,
            ..plain(Label::Block)
        };
        self.end(start, info);
        Ok(())
    }

    // routine: 'fun' name '(' names ')' '=' expr ';' | 'proc' name '(' names ')' command
    #[cycle(lines)]
    pub fn routine(&mut self, label: Label, slot: u16) -> Result<(), Refused>
        ensures { Gone self.old self.new result }
    {
        let start = self.start();
        self.advance()?;
        let name = self.name()?;
        let params = self.params()?;
        self.body(label)?;
        self.end(start, routine(label, name, params, slot));
        Ok(())
    }

    // What a routine does.
    #[cycle(lines)]
    fn body(&mut self, label: Label) -> Result<(), Refused>
        ensures { Gone self.old self.new result }
    {
        match label {
            Label::Fun => self.answer(),
            _ => self.line(Line::Command),
        }
    }

    // command..
    #[cycle(lines)]
    fn commands(&mut self) -> Result<(), Refused>
        ensures { Lists self.old self.new result }
    {
        while self.begins(Line::Command) {
            self.line(Line::Command)?;
        }
        Ok(())
    }
}

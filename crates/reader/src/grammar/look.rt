ghost use Rattle.std.specs.Prelude.{◌≡◌, not, is_some};
ghost use Rattle.reader.specs.Looking.{Gone, Left, kind_of, next_is, begun, here_of, Entering, Took};
ghost use Rattle.reader.specs.Begins.{begins};
ghost use Rattle.lang.specs.declared.refusal.Refusal.TheVariants.{Unexpected};

use crate::grammar::Reader;
use crate::grammar::begins::Line;
use crate::node::Param;
use lang::name::Name;
use lang::refusal::{Refusal, Refused};
use lang::word::Kind;

// The most lines command, expr and prefix that may be entered and not left.
const MOST_NEST: u8 = 64;

impl<'t, 'm> Reader<'t, 'm> {
    // Whether the text is at its end.
    pub fn ended(&self) -> bool
        ensures { result ≡ not (is_some self.now.word) }
    {
        self.word.is_none()
    }

    // The kind of the word looked at.
    pub fn kind(&self) -> Option<Kind>
        ensures { result ≡ kind_of self.now.word }
    {
        self.word.map(|word| word.kind)
    }

    // Whether the word looked at is of a kind.
    pub fn next_is(&self, kind: Kind) -> bool
        ensures { result ≡ next_is self.now.word kind }
    {
        self.word.is_some_and(|word| word.kind == kind)
    }

    // Whether a line can begin with the word looked at.
    pub fn begins(&self, line: Line) -> bool
        ensures { result ≡ begun (begins line) self.now.word }
    {
        self.word.is_some_and(|word| line.begins(word.kind))
    }

    // The place of the word looked at, or the text's length at its end.
    pub fn here(&self) -> u16
        ensures { result ≡ here_of self.now }
    {
        self.word.map_or(self.words.end(), |word| word.place)
    }

    // A refusal at the word looked at.
    pub fn refused(&self, why: Refusal) -> Refused
        ensures { result ≡ record { why = why; place = here_of self.now } }
    {
        why.at(self.here())
    }

    // The refusal of the word looked at: no text can go on with it.
    pub fn unexpected(&self) -> Refused
        ensures { result ≡ record { why = Unexpected; place = here_of self.now } }
    {
        self.refused(Refusal::Unexpected)
    }

    // Passes over the word looked at, which has to stand here, and looks at the next.
    #[tactic(auto, unfolding(crate::specs::Looking::left))]
    pub fn advance(&mut self) -> Result<(), Refused>
        ensures { Took self.old self.new result }
    {
        if self.ended() {
            return Err(self.unexpected());
        }
        self.word = self.words.next()?;
        Ok(())
    }

    // Passes over a word of a kind, which has to stand here.
    pub fn expect(&mut self, kind: Kind) -> Result<(), Refused>
        ensures { Took self.old self.new result }
    {
        if self.next_is(kind) {
            return self.advance();
        }
        Err(self.unexpected())
    }

    // Passes over a name, which has to stand here.
    pub fn name(&mut self) -> Result<Param, Refused>
        ensures { Took self.old self.new result }
    {
        let word = self
            .word
            .filter(|word| word.kind == Kind::Name)
            .ok_or(self.unexpected())?;
        self.advance()?;
        Ok(Param {
            name: Name::of(word.bytes),
            at: word.place,
        })
    }

    // Enters a line; 7 where it cannot begin with the word looked at, 8 where the nest is full.
    pub fn enter(&mut self, line: Line) -> Result<(), Refused>
        ensures entered { Entering (begun (begins line) self.old.word) self.old self.new result }
        ensures tree { self.new.tree ≡ self.old.tree }
    {
        if !self.begins(line) {
            return Err(self.unexpected());
        }
        if self.nest >= MOST_NEST {
            return Err(self.refused(Refusal::NestTooDeep));
        }
        self.nest += 1;
        Ok(())
    }

    // Leaves a line.
    pub fn leave(&mut self)
        ensures left { Left self.old self.new }
        ensures tree { self.new.tree ≡ self.old.tree }
    {
        self.nest = self.nest.saturating_sub(1);
    }
}

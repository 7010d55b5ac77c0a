ghost use Rattle.std.specs.Prelude.{◌≡◌, ◌+◌, ◌≤◌, length};
ghost use Rattle.std.specs.List.{prefix_len};
ghost use Rattle.lang.specs.Bytes.{name_byte, digit_byte};
ghost use Rattle.reader.specs.Words.{name_front, number_front, front, Inside, Checked};

use crate::number::value;
use lang::byte::{class_of, in_name, in_number};
use lang::refusal::{Refusal, Refused};
use lang::reserved::reserved_of;
use lang::word::{Class, Kind};

// The most bytes of a text.
pub const MOST_BYTES: usize = 32768;

// The most bytes of a name.
const MOST_NAME: usize = 16;

// A word: its kind, its bytes, which are a part of the text, and how many bytes stand before it.
#[derive(Clone, Copy, PartialEq, Eq, Debug)]
pub struct Word<'t> {
    pub kind: Kind,
    pub bytes: &'t [u8],
    pub place: u16,
}

// What stands at the front of some bytes: a word's kind and its length, or nothing but a byte that parts words.
type Front = Result<Option<(Kind, usize)>, Refusal>;

// How many bytes of a name stand at the front. One function for this and `number_len`, with the test as its
// parameter, was tried: its clause, `prefix_len` of what the test answers, stayed open.
fn name_len(text: &[u8]) -> usize
    ensures { result ≡ prefix_len name_byte text.now }
{
    text.iter().take_while(|b| in_name(**b)).count()
}

// How many digits stand at the front.
fn number_len(text: &[u8]) -> usize
    ensures { result ≡ prefix_len digit_byte text.now }
{
    text.iter().take_while(|b| in_number(**b)).count()
}

// The name or reserved word at the front.
fn name_front(text: &[u8]) -> Front
    ensures { result ≡ name_front text.now }
{
    let len = name_len(text);
    if len > MOST_NAME {
        return Err(Refusal::NameTooLong);
    }
    Ok(Some((reserved_of(&text[..len]), len)))
}

// The number at the front.
fn number_front(text: &[u8]) -> Front
    ensures { result ≡ number_front text.now }
{
    let len = number_len(text);
    value(&text[..len]).ok_or(Refusal::NumberTooLarge)?;
    Ok(Some((Kind::Number, len)))
}

// What stands at the front.
fn front_of(text: &[u8]) -> Front
    ensures front { result ≡ front text.now }
    ensures inside { Inside (length text.now) result }
{
    let Some((first, rest)) = text.split_first() else {
        return Ok(None);
    };
    match class_of(*first) {
        Class::Space => Ok(None),
        Class::Letter => name_front(text),
        Class::Digit => number_front(text),
        Class::Colon if rest.first() == Some(&b'=') => Ok(Some((Kind::Becomes, 2))),
        Class::Mark(kind) => Ok(Some((kind, 1))),
        _ => Err(Refusal::BadByte),
    }
}

// The words of a text that is lent: its bytes from one on, and how many stand before that.
#[derive(Drop)]
pub struct Words<'t> {
    rest: &'t [u8],
    at: usize,
    ghost short: { at + length rest.now ≤ 32768 },
}

impl<'t> Words<'t> {
    ghost use Rattle.std.specs.Prelude.{◌-◌, take, drop};
    ghost use Rattle.reader.specs.Lexing.{end_of, Next, Begun};

    // The words of a text from its first byte on; past the 32,768th it is cut off.
    #[tactic(auto, using(std::proofs::lemmas::List::take_min))]
    pub fn over(text: &'t [u8]) -> Words<'t>
        ensures { Begun text.now result }
    {
        let len = MOST_BYTES.min(text.len());
        Words {
            rest: &text[..len],
            at: 0,
        }
    }

    // Passes over some bytes, and gives them.
    fn pass(&mut self, len: usize) -> &'t [u8]
        requires { len ≤ length self.old.rest.now }
        ensures bytes { result.now ≡ take len self.old.rest.now }
        ensures rest { self.new.rest.now ≡ drop len self.old.rest.now }
        ensures at { self.new.at ≡ self.old.at + len }
    {
        let (bytes, rest) = self.rest.split_at(len);
        self.rest = rest;
        self.at += len;
        bytes
    }

    // The next word, or none at the end of the text; 4 to 6 where there is no word.
    pub fn next(&mut self) -> Result<Option<Word<'t>>, Refused>
        ensures words { Next self.old self.new result }
        ensures rest { self.new.rest.now ≡ drop (self.new.at - self.old.at) self.old.rest.now }
        ensures on { self.old.at ≤ self.new.at }
        ensures whole { end_of self.new ≡ end_of self.old }
    {
        while !self.rest.is_empty() {
            let place = self.at as u16;
            match front_of(self.rest) {
                Ok(None) => {
                    self.pass(1);
                }
                Ok(Some((kind, len))) => {
                    let bytes = self.pass(len);
                    return Ok(Some(Word { kind, bytes, place }));
                }
                Err(why) => return Err(why.at(place)),
            }
        }
        Ok(None)
    }

    // The length of the text, where a text that ends too early is refused.
    pub fn end(&self) -> u16
        ensures { result ≡ end_of self.now }
    {
        (self.at + self.rest.len()) as u16
    }
}

// Whether a text has a word or a separator at each byte; 3 where it is too long, else the first of 4 to 6.
pub fn check_words(text: &[u8]) -> Result<(), Refused>
    ensures { Checked text.now result }
{
    if text.len() > MOST_BYTES {
        return Err(Refusal::TextTooLong.at(0));
    }
    let mut words = Words::over(text);
    while words.next()?.is_some() {}
    Ok(())
}

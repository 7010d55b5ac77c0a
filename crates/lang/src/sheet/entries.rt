ghost use Rattle.std.specs.Prelude.{◌≡◌, Some, None, MatchResult};
ghost use Rattle.lang.specs.Refusals.{number};
ghost use Rattle.lang.specs.Sheets.{is_letter as letter, all_name, is_name, value_of, mark_of, entry_of};

use crate::byte::{class_of, in_name};
use crate::name::Name;
use crate::refusal::Refusal;
use crate::reserved::reserved_of;
use crate::sheet::{Described, Entry, Mark};
use crate::value::Value;
use crate::word::{Class, Kind};

// Whether a byte is a letter: one line, like `in_name`.
fn is_letter(b: u8) -> bool
    ensures { result ≡ letter b }
{
    matches!(class_of(b), Class::Letter)
}

// Whether all bytes can stand in a name.
fn all_name(bytes: &[u8]) -> bool
    ensures { result ≡ all_name bytes.now }
{
    bytes.iter().all(|b| in_name(*b))
}

// Whether the bytes are a name: a letter, up to 15 more letters, digits or underscores, and no reserved word.
pub fn is_name(bytes: &[u8]) -> bool
    ensures { result ≡ is_name bytes.now }
{
    if bytes.len() == 0 || bytes.len() > 16 || !is_letter(bytes[0]) || !all_name(bytes) {
        return false;
    }
    reserved_of(bytes) == Kind::Name
}

// The value that the host means by a kind and a number, which stay the host's numbers, since a bad one is refused. A
// `TryFrom` of the pair would be no plainer.
pub fn value_of(kind: u8, value: i64) -> Option<Value>
    ensures { result ≡ value_of kind value }
{
    match (kind, value) {
        (0, -2147483648..=2147483647) => Some(Value::Number(value as i32)),
        (1, 0) => Some(Value::Truth(false)),
        (1, 1) => Some(Value::Truth(true)),
        _ => None,
    }
}

// The mark that the host means by a number.
impl TryFrom<u8> for Mark {
    type Error = Refusal;

    ghost try_from_gives = { λ mark r. MatchResult r (λ m. Some m ≡ mark_of mark) (λ e. (None ≡ mark_of mark) × (number e ≡ 2)) };

    fn try_from(mark: u8) -> Result<Mark, Refusal> {
        match mark {
            0 => Ok(Mark::Given),
            1 => Ok(Mark::Kept),
            _ => Err(Refusal::BadSheet),
        }
    }
}

// The entry that the host describes.
impl<'t> TryFrom<Described<'t>> for Entry {
    type Error = Refusal;

    ghost try_from_gives = { λ d r. MatchResult r (λ e. Some e ≡ entry_of d) (λ e. (None ≡ entry_of d) × (number e ≡ 2)) };

    fn try_from(d: Described<'t>) -> Result<Entry, Refusal> {
        if !is_name(d.name) {
            return Err(Refusal::BadSheet);
        }
        let mark = Mark::try_from(d.mark)?;
        let value = value_of(d.kind, d.value).ok_or(Refusal::BadSheet)?;
        Ok(Entry {
            name: Name::of(d.name),
            mark,
            value,
        })
    }
}

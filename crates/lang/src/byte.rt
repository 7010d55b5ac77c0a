ghost use Rattle.std.specs.Prelude.{◌≡◌};
ghost use Rattle.lang.specs.Bytes.{class, name_byte, digit_byte};

use crate::word::{Class, Kind};

// The class of a byte.
pub fn class_of(b: u8) -> Class
    ensures { result ≡ class b }
{
    match b as char {
        '\t' | '\n' | '\r' | ' ' => Class::Space,
        'a'..='z' | 'A'..='Z' => Class::Letter,
        '0'..='9' => Class::Digit,
        '_' => Class::Underscore,
        ':' => Class::Colon,
        '{' => Class::Mark(Kind::OpenBrace),
        '}' => Class::Mark(Kind::CloseBrace),
        '(' => Class::Mark(Kind::Open),
        ')' => Class::Mark(Kind::Close),
        ';' => Class::Mark(Kind::Semicolon),
        ',' => Class::Mark(Kind::Comma),
        '=' => Class::Mark(Kind::Equal),
        '<' => Class::Mark(Kind::Less),
        '+' => Class::Mark(Kind::Plus),
        '-' => Class::Mark(Kind::Minus),
        '*' => Class::Mark(Kind::Times),
        _ => Class::Other,
    }
}

// Whether a byte can stand in a name, after its first letter. This, `in_number` and `is_letter` are one line each, which
// a function that takes the classes would make no plainer.
pub fn in_name(b: u8) -> bool
    ensures { result ≡ name_byte b }
{
    matches!(
        class_of(b),
        Class::Letter | Class::Digit | Class::Underscore
    )
}

// Whether a byte is a digit.
pub fn in_number(b: u8) -> bool
    ensures { result ≡ digit_byte b }
{
    matches!(class_of(b), Class::Digit)
}

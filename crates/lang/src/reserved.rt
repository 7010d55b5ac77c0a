ghost use Rattle.std.specs.Prelude.{◌≡◌};
ghost use Rattle.lang.specs.Words.{reserved, command_word, block_word, expr_word};

use crate::name::same_bytes;
use crate::word::Kind;

// The reserved words of commands; any other run of bytes is a name. Compared one by one, in all three functions: a
// `match` on the literals was tried, and its default arm, some 20 cases, stayed open.
fn command_word(bytes: &[u8]) -> Kind
    ensures { result ≡ command_word bytes.now }
{
    if same_bytes(bytes, b"call") {
        return Kind::Call;
    }
    if same_bytes(bytes, b"if") {
        return Kind::If;
    }
    if same_bytes(bytes, b"then") {
        return Kind::Then;
    }
    if same_bytes(bytes, b"else") {
        return Kind::Else;
    }
    if same_bytes(bytes, b"while") {
        return Kind::While;
    }
    if same_bytes(bytes, b"do") {
        return Kind::Do;
    }
    Kind::Name
}

// The reserved words of declarations.
fn block_word(bytes: &[u8]) -> Kind
    ensures { result ≡ block_word bytes.now }
{
    if same_bytes(bytes, b"const") {
        return Kind::Const;
    }
    if same_bytes(bytes, b"var") {
        return Kind::Var;
    }
    if same_bytes(bytes, b"fun") {
        return Kind::Fun;
    }
    if same_bytes(bytes, b"proc") {
        return Kind::Proc;
    }
    command_word(bytes)
}

// The reserved words of expressions.
fn expr_word(bytes: &[u8]) -> Kind
    ensures { result ≡ expr_word bytes.now }
{
    if same_bytes(bytes, b"let") {
        return Kind::Let;
    }
    if same_bytes(bytes, b"in") {
        return Kind::In;
    }
    if same_bytes(bytes, b"or") {
        return Kind::Or;
    }
    if same_bytes(bytes, b"and") {
        return Kind::And;
    }
    if same_bytes(bytes, b"not") {
        return Kind::Not;
    }
    if same_bytes(bytes, b"true") {
        return Kind::True;
    }
    if same_bytes(bytes, b"false") {
        return Kind::False;
    }
    block_word(bytes)
}

// The kind of word that a run of name bytes is: one of the 17 reserved words, or a name.
pub fn reserved_of(bytes: &[u8]) -> Kind
    ensures { result ≡ reserved bytes.now }
{
    expr_word(bytes)
}

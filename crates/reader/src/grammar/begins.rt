ghost use Rattle.std.specs.Prelude.{◌≡◌};
ghost use Rattle.reader.specs.Begins.{begins_command, begins_prefix, begins_expr};

use lang::word::Kind;

// The lines of the grammar that nest in themselves.
#[derive(Clone, Copy, PartialEq, Eq, Debug)]
pub enum Line {
    Command,
    Expr,
    Prefix,
}

// Three functions, since each is one expression, a set of kinds of its own: one for the three would be no plainer.
// Whether a command can begin with a word of this kind.
pub fn begins_command(kind: Kind) -> bool
    ensures { result ≡ begins_command kind }
{
    matches!(
        kind,
        Kind::OpenBrace | Kind::Name | Kind::Call | Kind::If | Kind::While
    )
}

// Whether a prefix can begin with a word of this kind.
pub fn begins_prefix(kind: Kind) -> bool
    ensures { result ≡ begins_prefix kind }
{
    matches!(
        kind,
        Kind::Minus | Kind::Not | Kind::Number | Kind::True | Kind::False | Kind::Name | Kind::Open
    )
}

// Whether an expression can begin with a word of this kind.
pub fn begins_expr(kind: Kind) -> bool
    ensures { result ≡ begins_expr kind }
{
    matches!(kind, Kind::If | Kind::Let) || begins_prefix(kind)
}

impl Line {
    ghost use Rattle.reader.specs.Begins.{begins};

    // Whether the line can begin with a word of this kind.
    pub fn begins(self, kind: Kind) -> bool
        ensures { result ≡ begins self kind }
    {
        match self {
            Line::Command => begins_command(kind),
            Line::Expr => begins_expr(kind),
            Line::Prefix => begins_prefix(kind),
        }
    }
}

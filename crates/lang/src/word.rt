// What kind of word stands in a text: a name, a number, a reserved word or a mark.
#[derive(Clone, Copy, PartialEq, Eq, Debug)]
pub enum Kind {
    Name,
    Number,
    Call,
    If,
    Then,
    Else,
    While,
    Do,
    Const,
    Var,
    Fun,
    Proc,
    Let,
    In,
    Or,
    And,
    Not,
    True,
    False,
    OpenBrace,
    CloseBrace,
    Open,
    Close,
    Semicolon,
    Comma,
    Equal,
    Less,
    Plus,
    Minus,
    Times,
    Becomes,
}

// What a byte can do in a text. A colon stands only before an equals sign, as the mark `:=`.
#[derive(Clone, Copy, PartialEq, Eq, Debug)]
pub enum Class {
    Space,
    Letter,
    Digit,
    Underscore,
    Colon,
    Mark(Kind),
    Other,
}

//! The reserved words and the marks.

ghost use Rattle.std.specs.Prelude.{◌≡◌, ◌↔◌};
ghost use Rattle.sig_parse.specs.Prelude.{IsTrue, IsWord, IsMark, word, mark};
ghost use Rattle.sig_parse.specs.inner.Keywords.{terminal_of, spelling_of};

/// A reserved word or a mark.
#[derive(Clone, Copy, PartialEq, Eq)]
pub enum Keyword {
    Process,
    Where,
    End,
    Integer,
    Boolean,
    Event,
    Init,
    When,
    Default,
    Cell,
    Not,
    And,
    Or,
    Xor,
    Modulo,
    True,
    False,
    Pragmas,
    BodyOpen,
    BodyClose,
    Bar,
    Open,
    Close,
    BraceOpen,
    BraceClose,
    Comma,
    Semicolon,
    Question,
    Exclamation,
    Define,
    SameClock,
    ClockPlus,
    ClockMeet,
    ClockLess,
    Clock,
    Dollar,
    Equal,
    NotEqual,
    Less,
    LessEqual,
    Greater,
    GreaterEqual,
    Plus,
    Minus,
    Times,
    Divide,
}

/// The reserved words.
const WORDS: [Keyword; 18] = [
    Keyword::Process,
    Keyword::Where,
    Keyword::End,
    Keyword::Integer,
    Keyword::Boolean,
    Keyword::Event,
    Keyword::Init,
    Keyword::When,
    Keyword::Default,
    Keyword::Cell,
    Keyword::Not,
    Keyword::And,
    Keyword::Or,
    Keyword::Xor,
    Keyword::Modulo,
    Keyword::True,
    Keyword::False,
    Keyword::Pragmas,
];

/// The marks.
const MARKS: [Keyword; 28] = [
    Keyword::BodyOpen,
    Keyword::BodyClose,
    Keyword::Bar,
    Keyword::Open,
    Keyword::Close,
    Keyword::BraceOpen,
    Keyword::BraceClose,
    Keyword::Comma,
    Keyword::Semicolon,
    Keyword::Question,
    Keyword::Exclamation,
    Keyword::Define,
    Keyword::SameClock,
    Keyword::ClockPlus,
    Keyword::ClockMeet,
    Keyword::ClockLess,
    Keyword::Clock,
    Keyword::Dollar,
    Keyword::Equal,
    Keyword::NotEqual,
    Keyword::Less,
    Keyword::LessEqual,
    Keyword::Greater,
    Keyword::GreaterEqual,
    Keyword::Plus,
    Keyword::Minus,
    Keyword::Times,
    Keyword::Divide,
];

/// Whether two keywords are the same.
pub fn is_same(a: Keyword, b: Keyword) -> bool
    ensures { IsTrue result ↔ a ≡ b }
{
    a == b
}

/// The bytes of a keyword.
fn spelling(keyword: Keyword) -> &'static [u8]
    ensures { result.now ≡ spelling_of keyword }
{
    match keyword {
        Keyword::Process => b"process",
        Keyword::Where => b"where",
        Keyword::End => b"end",
        Keyword::Integer => b"integer",
        Keyword::Boolean => b"boolean",
        Keyword::Event => b"event",
        Keyword::Init => b"init",
        Keyword::When => b"when",
        Keyword::Default => b"default",
        Keyword::Cell => b"cell",
        Keyword::Not => b"not",
        Keyword::And => b"and",
        Keyword::Or => b"or",
        Keyword::Xor => b"xor",
        Keyword::Modulo => b"modulo",
        Keyword::True => b"true",
        Keyword::False => b"false",
        Keyword::Pragmas => b"pragmas",
        Keyword::BodyOpen => b"(|",
        Keyword::BodyClose => b"|)",
        Keyword::Bar => b"|",
        Keyword::Open => b"(",
        Keyword::Close => b")",
        Keyword::BraceOpen => b"{",
        Keyword::BraceClose => b"}",
        Keyword::Comma => b",",
        Keyword::Semicolon => b";",
        Keyword::Question => b"?",
        Keyword::Exclamation => b"!",
        Keyword::Define => b":=",
        Keyword::SameClock => b"^=",
        Keyword::ClockPlus => b"^+",
        Keyword::ClockMeet => b"^*",
        Keyword::ClockLess => b"^-",
        Keyword::Clock => b"^",
        Keyword::Dollar => b"$",
        Keyword::Equal => b"=",
        Keyword::NotEqual => b"/=",
        Keyword::Less => b"<",
        Keyword::LessEqual => b"<=",
        Keyword::Greater => b">",
        Keyword::GreaterEqual => b">=",
        Keyword::Plus => b"+",
        Keyword::Minus => b"-",
        Keyword::Times => b"*",
        Keyword::Divide => b"/",
    }
}

/// The keyword that a reserved word is.
pub fn reserved(text: &[u8]) -> Keyword
    requires { IsWord text.now }
    ensures { terminal_of result ≡ word text.now }
{
    for keyword in WORDS {
        if spelling(keyword) == text {
            return keyword;
        }
    }
    unreachable!()
}

/// The keyword that a mark is.
pub fn sign(text: &[u8]) -> Keyword
    requires { IsMark text.now }
    ensures { terminal_of result ≡ mark text.now }
{
    for keyword in MARKS {
        if spelling(keyword) == text {
            return keyword;
        }
    }
    unreachable!()
}

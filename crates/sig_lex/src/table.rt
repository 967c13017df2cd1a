//! The reserved words and the marks.

ghost use Rattle.std.specs.Prelude.{◌↔◌, IsTrue};
ghost use Rattle.sig_lex.specs.Tables.{IsWord, IsMark};

/// The reserved words.
const WORDS: [&[u8]; 18] = [
    b"process", b"where", b"end", b"integer", b"boolean", b"event", b"init", b"when", b"default",
    b"cell", b"not", b"and", b"or", b"xor", b"modulo", b"true", b"false", b"pragmas",
];

/// The marks, each of one byte or two.
const MARKS: [&[u8]; 28] = [
    b"(|", b"|)", b"|", b"(", b")", b"{", b"}", b",", b";", b"?", b"!", b":=", b"^=", b"^+", b"^*",
    b"^-", b"^", b"$", b"=", b"/=", b"<", b"<=", b">", b">=", b"+", b"-", b"*", b"/",
];

/// Whether these bytes are a reserved word.
pub fn is_word(bytes: &[u8]) -> bool
    ensures { IsTrue result ↔ IsWord bytes.now }
{
    WORDS.contains(&bytes)
}

/// Whether these bytes are a mark.
pub fn is_mark(bytes: &[u8]) -> bool
    ensures { IsTrue result ↔ IsMark bytes.now }
{
    MARKS.contains(&bytes)
}

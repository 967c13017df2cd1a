//! The text that is printed: words, each after a blank.

ghost use Rattle.std.specs.Prelude.{◌≡◌, ◌<◌, ◌^◌, ◌++◌, ◌∷◌};
ghost use Rattle.sig_print.specs.Prelude.{ℕ, List, [], IfOk, OnOk, drop, decimal};

use crate::answer::PrintAnswer;
use itoa::Buffer;
use std::alloc::Global;
use std::marker::Model;

/// The text so far, in which each word, the first too, stands after a blank or a newline.
#[derive(Debug, Drop)]
pub struct Words {
    text: Vec<u8>,
}

impl Model for Words {
    ghost Value = { List ℕ };

    ghost view = { λ words. words.text.items };
}

impl Words {
    /// No word.
    pub fn new(alloc: Global) -> Words
        ensures { result ≡ [] }
    {
        Words {
            text: Vec::new(alloc),
        }
    }

    /// A word after a blank.
    pub fn word(&mut self, word: &[u8]) -> Result<(), PrintAnswer>
        ensures { OnOk result (self.new ≡ self.old ++ 32 ∷ word.now) }
    {
        self.text.push(b' ')?;
        self.text.extend_from_slice(word)?;
        Ok(())
    }

    /// A word at the beginning of a line.
    pub fn line(&mut self, word: &[u8]) -> Result<(), PrintAnswer>
        ensures { OnOk result (self.new ≡ self.old ++ 10 ∷ word.now) }
    {
        self.text.push(b'\n')?;
        self.text.extend_from_slice(word)?;
        Ok(())
    }

    /// The decimal of a number.
    pub fn number(&mut self, value: u64) -> Result<(), PrintAnswer>
        ensures { OnOk result (self.new ≡ self.old ++ 32 ∷ decimal value) }
    {
        let mut buffer = Buffer::new();
        self.word(buffer.format(value).as_bytes())
    }

    /// A label, in its quotes.
    pub fn label(&mut self, text: &[u8]) -> Result<(), PrintAnswer>
        ensures { OnOk result (self.new ≡ self.old ++ 32 ∷ (34 ∷ text.now ++ 34 ∷ [])) }
    {
        self.word(b"\"")?;
        self.text.extend_from_slice(text)?;
        self.text.push(b'"')?;
        Ok(())
    }

    /// The text without its first blank, ended by a newline.
    pub fn finish(self) -> Result<Vec<u8>, PrintAnswer>
        ensures { IfOk result (λ text. text.items ≡ drop 1 self ++ 10 ∷ []) }
    {
        let Words { mut text } = self;
        if !text.is_empty() {
            text.remove(0);
        }
        text.push(b'\n')?;
        Ok(text)
    }
}

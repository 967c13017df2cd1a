//! A name that a pace would take.

ghost use Rattle.sig_program.specs.Prelude.{Some, shown};
ghost use Rattle.sig_program.specs.Acceptance.{said_taken, taken_line};

use sig_base::Signal;
use std::fmt;

/// That a declared signal has the name of a pace. It is shown as the line that the program writes on
/// standard error, without its newline; a byte of the name is shown as the character of its number.
#[derive(Drop)]
pub(crate) struct Taken<'a> {
    pub(crate) signal: &'a Signal,
}

impl fmt::Display for Taken<'_> {
    ghost output = { λ taken. Some (taken_line taken.signal.now) };

    fn fmt<W: fmt::Write>(&self, f: &mut fmt::Formatter<W>) -> fmt::Result {
        let at = self.signal.at;
        let said = Said {
            name: self.signal.name.as_bytes(),
        };
        write!(f, "error {at}: {said}")
    }
}

/// What is said of a name, behind the place.
#[derive(Drop)]
struct Said<'a> {
    name: &'a [u8],
}

impl fmt::Display for Said<'_> {
    ghost output = { λ s. Some (said_taken s.name.now) };

    fn fmt<W: fmt::Write>(&self, f: &mut fmt::Formatter<W>) -> fmt::Result {
        let name = Shown { bytes: self.name };
        write!(f, "name {name} is taken by a pace")
    }
}

/// A name as it is shown.
#[derive(Drop)]
struct Shown<'a> {
    bytes: &'a [u8],
}

impl fmt::Display for Shown<'_> {
    ghost output = { λ s. Some (shown s.bytes.now) };

    fn fmt<W: fmt::Write>(&self, f: &mut fmt::Formatter<W>) -> fmt::Result {
        for byte in self.bytes {
            f.write_char(char::from(*byte))?;
        }
        Ok(())
    }
}

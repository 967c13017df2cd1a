//! The rule of acceptance that a kernel does not meet.

ghost use Rattle.std.specs.Prelude.{◌≡◌, [], slice_index_or, Some};
ghost use Rattle.sig_back.specs.Shown.{fault_line, said, shown};

use sig_base::limits::LINKS;
use sig_base::{Span, Text};
use std::error::Error;
use std::fmt;
use std::marker::Model;

/// Which rule a kernel does not meet. They are tried in this order.
#[derive(Clone, Copy, Debug, PartialEq, Eq)]
pub enum BackKind {
    /// No reaction is possible but the silent one.
    Dead,
    /// No signal is present in each reaction that is not silent.
    MissingRoot,
    /// The clock of a signal is not determined.
    Unsolved,
    /// The truth of a condition is forced.
    Pinned,
    /// An operation precedes itself, directly or through others.
    Cycle,
    /// More links are needed than are kept.
    TooManyLinks,
}

/// The first rule that a kernel does not meet, the names of the signals that it is said of, two for a
/// missing root, one for a clock, a condition and a cycle, and else none, and the place of the first. It
/// is shown as the line that names it, without its newline; a byte of a name is shown as the character of
/// its number, which for ASCII is the byte itself.
#[derive(Debug, Drop)]
pub struct BackFault {
    pub kind: BackKind,
    pub names: Vec<Text>,
    pub at: Option<Span>,
}

impl Model for BackFault {
    ghost use Rattle.sig_back.specs.Faults.{FaultView};

    ghost Value = { FaultView };

    ghost view = { λ fault. record { kind = fault.kind; names = fault.names.items; at = fault.at } };
}

impl fmt::Display for BackFault {
    ghost output = { λ fault. Some (fault_line fault) };

    fn fmt<W: fmt::Write>(&self, f: &mut fmt::Formatter<W>) -> fmt::Result {
        let said = Said { fault: self };
        match self.at {
            Some(at) => write!(f, "error {at}: {said}"),
            None => write!(f, "error: {said}"),
        }
    }
}

impl Error for BackFault {}

impl BackFault {
    /// The name at this place, or an empty one where there is none.
    fn name(&self, place: usize) -> Shown<'_>
        ensures { result.bytes.now ≡ slice_index_or self.now.names place [] }
    {
        match self.names.get(place) {
            Some(name) => Shown {
                bytes: name.as_bytes(),
            },
            None => Shown { bytes: &[] },
        }
    }
}

/// What is said of a kernel, behind the place.
#[derive(Drop)]
struct Said<'a> {
    fault: &'a BackFault,
}

impl fmt::Display for Said<'_> {
    ghost output = { λ s. Some (said s.fault.now.kind s.fault.now.names) };

    fn fmt<W: fmt::Write>(&self, f: &mut fmt::Formatter<W>) -> fmt::Result {
        let fault = self.fault;
        let x = fault.name(0);
        let y = fault.name(1);
        match fault.kind {
            BackKind::Dead => f.write_str("no reaction is possible"),
            BackKind::MissingRoot => write!(f, "no root: {x} and {y} are independent"),
            BackKind::Unsolved => write!(f, "clock of {x} is not determined"),
            BackKind::Pinned => write!(f, "condition {x} is forced"),
            BackKind::Cycle => write!(f, "cycle through {x}"),
            BackKind::TooManyLinks => write!(f, "more than {LINKS} links"),
        }
    }
}

/// A name as it is shown.
#[derive(Drop)]
struct Shown<'a> {
    bytes: &'a [u8],
}

impl fmt::Display for Shown<'_> {
    ghost output = { λ s. Some (shown s.bytes.now) };

    fn fmt<W: fmt::Write>(&self, f: &mut fmt::Formatter<W>) -> fmt::Result {
        for byte in self.bytes {
            f.write_char(char::from(*byte))?;
        }
        Ok(())
    }
}

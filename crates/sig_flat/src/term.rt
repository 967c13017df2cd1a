//! Operands of equations, with their kinds.

ghost use Rattle.std.specs.Prelude.{◌≡◌};
ghost use Rattle.sig_flat.specs.Prelude.{Sig};
ghost use Rattle.sig_flat.specs.KernelOf.{signal_in};

use sig_base::{Kind, SigId};
use sig_kernel::Operand;

/// An operand, and the kind of its values.
#[derive(Clone, Copy, Debug, PartialEq, Eq)]
pub struct Term {
    pub operand: Operand,
    pub kind: Kind,
}

impl Term {
    /// A signal of a kind.
    pub fn signal(signal: SigId, kind: Kind) -> Term
        ensures { result ≡ record { operand = Sig signal; kind = kind } }
    {
        Term {
            operand: Operand::Sig(signal),
            kind,
        }
    }
}

/// The signal that an operand is. Where signals are asked for, no operand is a constant.
pub fn signal_in(operand: Operand) -> SigId
    ensures { result ≡ signal_in operand }
{
    match operand {
        Operand::Sig(signal) => signal,
        Operand::Const(_) => SigId(0),
    }
}

//! Kernels.

ghost use Rattle.std.specs.Prelude.{◌≡◌, List};

use crate::equation::Equation;
use sig_base::Signal;
use std::marker::Model;

/// The signals of a kernel, by their numbers. Contracts see the list.
#[derive(Debug, Drop)]
pub struct Signals {
    pub list: Vec<Signal>,
}

impl Model for Signals {
    ghost use Rattle.sig_kernel.specs.Prelude.{List, Signal};

    ghost Value = { List Signal };

    ghost view = { λ signals. signals.list.items };
}

impl Signals {
    /// The signals.
    pub fn as_slice(&self) -> &[Signal]
        ensures { result.now ≡ self.now }
    {
        self.list.as_slice()
    }
}

impl From<Vec<Signal>> for Signals {
    ghost from_gives = { λ list signals. signals ≡ list.items };

    fn from(list: Vec<Signal>) -> Signals {
        Signals { list }
    }
}

/// The equations of a kernel, by their numbers. Contracts see the list.
#[derive(Debug, Drop)]
pub struct Equations {
    pub list: Vec<Equation>,
}

impl Model for Equations {
    ghost use Rattle.std.specs.Prelude.{List};
    ghost use Rattle.sig_kernel.specs.declared.equation.Equation.{Equation};

    ghost Value = { List Equation };

    ghost view = { λ equations. equations.list.items };
}

impl Equations {
    /// The equations.
    pub fn as_slice(&self) -> &[Equation]
        ensures { result.now ≡ self.now }
    {
        self.list.as_slice()
    }
}

impl From<Vec<Equation>> for Equations {
    ghost from_gives = { λ list equations. equations ≡ list.items };

    fn from(list: Vec<Equation>) -> Equations {
        Equations { list }
    }
}

/// A kernel. Its signals are its inputs, then its outputs, then its locals, then the copies that
/// calls made, then the intermediates; `declared` counts all but the intermediates.
#[derive(Debug, Drop)]
pub struct Kernel {
    pub signals: Signals,
    pub equations: Equations,
    pub inputs: u32,
    pub outputs: u32,
    pub declared: u32,
}

impl Kernel {
    ghost use Rattle.sig_kernel.specs.Validity.{inputs_of};

    /// The inputs, in order.
    pub fn inputs(&self) -> &[Signal]
        ensures { result.now ≡ inputs_of self.now }
    {
        let signals = self.signals.as_slice();
        let count = signals.len().min(self.inputs as usize);
        &signals[..count]
    }
}

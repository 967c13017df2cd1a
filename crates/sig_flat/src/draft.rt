//! A kernel as it is made.

ghost use Rattle.std.specs.Prelude.{◌≡◌, ◌<◌, ◌≤◌, [], length, IfOk, OnOk};
ghost use Rattle.sig_flat.specs.Answers.{IsRefused};
ghost use Rattle.sig_flat.specs.inner.Drafts.{left_of};
ghost use Rattle.sig_flat.specs.KernelOf.{Made, cluster_at, kind_at, next, own, signal_id, with_equation, with_own, with_signal};

use crate::answer::FlatAnswer;
use crate::site::Site;
use sig_base::limits::SIGNALS;
use sig_base::{Kind, SigId, Signal, Span, Text};
use sig_kernel::{Equation, Equations, Form, Kernel, Signals};
use std::alloc::{AllocError, Global};
use std::marker::Model;

/// The signals so far, of which there are at most 512, and the equations.
#[derive(Drop)]
pub struct Draft {
    signals: Vec<Signal>,
    equations: Vec<Equation>,
}

impl Model for Draft {
    ghost Value = { Made };

    ghost view = { λ draft. record { signals = draft.signals.items; equations = draft.equations.items } };

    ghost invariant = { λ draft. length draft.signals.items ≤ 512 };
}

impl Draft {
    /// Copies of these signals, and no equation.
    pub fn new(alloc: Global, signals: &[Signal]) -> Result<Draft, FlatAnswer>
        ensures made { IfOk result (λ draft. draft ≡ record { signals = signals.now; equations = [] }) }
        ensures refused { IsRefused result (512 < length signals.now) }
    {
        if signals.len() > SIGNALS as usize {
            return Err(FlatAnswer::TooManySignals(SIGNALS));
        }
        Ok(Draft {
            signals: copies_of(alloc, signals)?,
            equations: Vec::new(alloc),
        })
    }

    /// Adds an intermediate of the operator at a place.
    pub fn add_intermediate(
        &mut self,
        alloc: Global,
        site: &Site,
        kind: Kind,
        at: Span,
    ) -> Result<SigId, FlatAnswer>
        ensures number { IfOk result (λ y. y ≡ signal_id (next self.old)) }
        ensures made { OnOk result (self.new ≡ with_signal site.now kind at self.old) }
        ensures refused { IsRefused result (512 < length (with_signal site.now kind at self.old).signals) }
    {
        let number = self.signals.len();
        if number >= SIGNALS as usize {
            return Err(FlatAnswer::TooManySignals(SIGNALS));
        }
        self.signals.push(Signal {
            name: site.name_at(alloc, at)?,
            kind,
            cluster: site.cluster(),
            at,
        })?;
        Ok(SigId(number as u32))
    }

    /// The signal that an operator defines: the left side, or else an intermediate that is added.
    pub fn own(
        &mut self,
        alloc: Global,
        left: Option<SigId>,
        site: &Site,
        kind: Kind,
        at: Span,
    ) -> Result<SigId, FlatAnswer>
        ensures number { IfOk result (λ y. y ≡ signal_id (own (left_of left) self.old)) }
        ensures made { OnOk result (self.new ≡ with_own (left_of left) site.now kind at self.old) }
        ensures refused { IsRefused result (512 < length (with_own (left_of left) site.now kind at self.old).signals) }
    {
        match left {
            Some(left) => Ok(left),
            None => self.add_intermediate(alloc, site, kind, at),
        }
    }

    /// The number of signals.
    pub fn len(&self) -> u32
        ensures { result ≡ length self.now.signals }
    {
        self.signals.len() as u32
    }

    /// Adds an equation.
    pub fn add(&mut self, at: Span, form: Form) -> Result<(), AllocError>
        ensures { OnOk result (self.new ≡ with_equation self.old at form) }
    {
        Ok(self.equations.push(Equation { form, at })?)
    }

    /// The kind of a signal.
    pub fn kind(&self, signal: SigId) -> Kind
        ensures { result ≡ kind_at self.now.signals signal.0 }
    {
        match self.signals.get(signal.0 as usize) {
            Some(signal) => signal.kind,
            None => Kind::Integer,
        }
    }

    /// The cluster of a signal.
    pub fn cluster(&self, signal: SigId) -> u32
        ensures { result ≡ cluster_at self.now.signals signal.0 }
    {
        match self.signals.get(signal.0 as usize) {
            Some(signal) => signal.cluster,
            None => 0,
        }
    }

    /// The kernel, whose first signals are so many inputs and then so many outputs, and of which so
    /// many are declared.
    pub fn finish(self, inputs: u32, outputs: u32, declared: u32) -> Kernel
        ensures is { result ≡ record { signals = self.signals; equations = self.equations; inputs = inputs; outputs = outputs; declared = declared } }
        ensures few { length result.signals ≤ 512 }
    {
        let Draft { signals, equations } = self;
        Kernel {
            signals: Signals::from(signals),
            equations: Equations::from(equations),
            inputs,
            outputs,
            declared,
        }
    }
}

/// Copies of signals.
fn copies_of(alloc: Global, signals: &[Signal]) -> Result<Vec<Signal>, AllocError>
    ensures { IfOk result (λ copies. copies.items ≡ signals.now) }
{
    let mut copies = Vec::with_capacity(alloc, signals.len())?;
    for signal in signals {
        copies.push(Signal {
            name: Text::from_bytes(alloc, signal.name.as_bytes())?,
            kind: signal.kind,
            cluster: signal.cluster,
            at: signal.at,
        })?;
    }
    Ok(copies)
}

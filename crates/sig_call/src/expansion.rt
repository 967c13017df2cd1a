//! The signals and the equations of a flat body, as they are made.

ghost use Rattle.std.specs.Prelude.{◌≤◌, length};

use crate::answer::CallAnswer;
use crate::cluster::cluster_of;
use crate::copy::ProcessCopy;
use crate::expression::{flat_expression, flat_expressions, flat_right};
use sig_base::limits::SIGNALS;
use sig_base::{SigId, Signal, Text};
use sig_scope::{Declared, Interface};
use sig_tree::{Expr, Flat, FlatEq, FlatExpr, Name, Process};
use std::alloc::{AllocError, Global};

/// The calls so far, the signals, of which there are at most 512, and the equations. Each call has
/// added a signal.
#[derive(Drop)]
pub struct Expansion {
    calls: u32,
    signals: Vec<Signal>,
    body: Vec<FlatEq>,
    ghost counted: { calls ≤ length signals.items },
    ghost few: { length signals.items ≤ 512 },
}

impl Expansion {
    ghost use Rattle.std.specs.Prelude.{◌≡◌, ◌+◌, ◌++◌, ◌<◌, ◌^◌, ◌∷◌};
    ghost use Rattle.sig_call.specs.Prelude.{[], ℕ, map, OnOk, AllByRecursion, model_of, expression_of, pragmas_of_model, flat_body_of, flat_equation_of, flat_expression_of, DefinesFlat, Equal as EqualFlat, cluster_at, cluster_of_call, copied_signals, flat_right, flat_of, inputs_defined, outputs_defined, signal_of, declarations_in, IsSmall, IsLow};
    ghost use Rattle.sig_call.specs.inner.Copies.{copy_in};
    ghost use Rattle.sig_call.specs.Making.{Made, IsRefused, with_signals, with_equations, signals_copied};
    ghost use Rattle.sig_call.specs.inner.MadeOf.{made_of};

    /// No call, signal or equation.
    pub fn new(alloc: Global) -> Expansion
        ensures { made_of result ≡ record { progress = record { calls = 0; signals = [] }; equations = [] } }
    {
        Expansion {
            calls: 0,
            signals: Vec::new(alloc),
            body: Vec::new(alloc),
        }
    }

    /// The number of signals.
    pub fn len(&self) -> u32
        ensures is { result ≡ length (made_of self.now).progress.signals }
        ensures few { result ≤ 512 }
    {
        self.signals.len() as u32
    }

    /// The number of the next call.
    pub fn next_call(&self) -> u32
        ensures { result ≡ (made_of self.now).progress.calls + 1 }
    {
        self.calls + 1
    }

    /// Counts a call.
    pub fn count_call(&mut self)
        requires { (made_of self.old).progress.calls < length (made_of self.old).progress.signals }
        ensures { made_of self.new ≡ record { progress = record { calls = (made_of self.old).progress.calls + 1; signals = (made_of self.old).progress.signals }; equations = (made_of self.old).equations } }
    {
        self.calls += 1;
    }

    /// The cluster of a call's first left side.
    pub fn cluster_of_call(&self, copy: &ProcessCopy, names: &[Name]) -> u32
        ensures { result ≡ cluster_of_call (copy_in copy.now) (made_of self.now).progress.signals names.now }
    {
        match names.first() {
            Some(name) => self.cluster_at(copy.signal(name)),
            None => 0,
        }
    }

    /// The cluster of a signal.
    fn cluster_at(&self, signal: SigId) -> u32
        ensures { result ≡ cluster_at (made_of self.now).progress.signals signal.0 }
    {
        match self.signals.get(signal.0 as usize) {
            Some(signal) => signal.cluster,
            None => 0,
        }
    }

    /// Adds a signal.
    fn add_signal(&mut self, signal: Signal) -> Result<(), CallAnswer>
        ensures added { OnOk result (made_of self.new ≡ with_signals (made_of self.old) (signal ∷ [])) }
        ensures refused { IsRefused result (512 ≤ length (made_of self.old).progress.signals) }
    {
        if self.signals.len() >= SIGNALS as usize {
            return Err(CallAnswer::TooManySignals(SIGNALS));
        }
        self.signals.push(signal)?;
        Ok(())
    }

    /// Adds copies of signals that a process declares, each named by the prefix and its name.
    fn add_declared(
        &mut self,
        alloc: Global,
        prefix: &[u8],
        cluster: u32,
        process: &Process,
        declared: &[Declared],
    ) -> Result<(), CallAnswer>
        requires { AllByRecursion IsLow (pragmas_of_model (model_of process.now)) }
        ensures added { OnOk result (made_of self.new ≡ with_signals (made_of self.old) (signals_copied prefix.now cluster (model_of process.now) (declarations_in declared.now))) }
        ensures refused { IsRefused result (512 < length (made_of self.old).progress.signals + length declared.now) }
    {
        for one in declared {
            let mut name = Vec::from_slice(alloc, prefix)?;
            name.extend_from_slice(one.name.text.as_bytes())?;
            self.add_signal(Signal {
                name: Text::from(name),
                kind: one.kind,
                cluster: cluster_of(process, one.name.text.as_bytes(), cluster),
                at: one.name.at,
            })?;
        }
        Ok(())
    }

    /// Adds copies of all signals that a process declares.
    pub fn add_signals(
        &mut self,
        alloc: Global,
        prefix: &[u8],
        cluster: u32,
        interface: &Interface,
    ) -> Result<(), CallAnswer>
        requires { AllByRecursion IsLow (pragmas_of_model (model_of interface.now.process.now)) }
        ensures added { OnOk result (made_of self.new ≡ with_signals (made_of self.old) (copied_signals prefix.now cluster (model_of interface.now.process.now))) }
        ensures refused { IsRefused result (512 < length (made_of self.old).progress.signals + length (copied_signals prefix.now cluster (model_of interface.now.process.now))) }
    {
        self.add_declared(alloc, prefix, cluster, interface.process, &interface.inputs)?;
        self.add_declared(
            alloc,
            prefix,
            cluster,
            interface.process,
            &interface.outputs,
        )?;
        self.add_declared(alloc, prefix, cluster, interface.process, &interface.locals)
    }

    /// Adds an equation.
    fn add(&mut self, equation: FlatEq) -> Result<(), AllocError>
        ensures { OnOk result (made_of self.new ≡ with_equations (made_of self.old) (flat_equation_of equation ∷ [])) }
    {
        Ok(self.body.push(equation)?)
    }

    /// Adds the definition of a signal, which is written in a copy.
    fn add_definition(
        &mut self,
        alloc: Global,
        copy: &ProcessCopy,
        signal: SigId,
        e: FlatExpr,
    ) -> Result<(), AllocError>
        ensures { OnOk result (made_of self.new ≡ with_equations (made_of self.old) (DefinesFlat signal.0 (flat_expression_of e) copy.now.prefix ∷ [])) }
    {
        let prefix = Text::from_bytes(alloc, copy.prefix.as_bytes())?;
        self.add(FlatEq::Def(signal, e, prefix))
    }

    /// Adds the definition of a name by an expression.
    pub fn define(
        &mut self,
        alloc: Global,
        copy: &ProcessCopy,
        name: &Name,
        e: &Expr,
    ) -> Result<(), AllocError>
        requires { IsSmall (expression_of e.now) }
        ensures { OnOk result (made_of self.new ≡ with_equations (made_of self.old) (DefinesFlat (signal_of (copy_in copy.now) name.now) (flat_right (copy_in copy.now) name.now (expression_of e.now)) copy.now.prefix ∷ [])) }
    {
        let flat = flat_right(alloc, copy, name, e)?;
        self.add_definition(alloc, copy, copy.signal(name), flat)
    }

    /// Adds a clock equation.
    pub fn equate(
        &mut self,
        alloc: Global,
        copy: &ProcessCopy,
        operands: &[Expr],
    ) -> Result<(), AllocError>
        requires { AllByRecursion IsSmall (map expression_of operands.now) }
        ensures { OnOk result (made_of self.new ≡ with_equations (made_of self.old) (EqualFlat (map (flat_of (copy_in copy.now)) (map expression_of operands.now)) copy.now.prefix ∷ [])) }
    {
        let flat = flat_expressions(alloc, copy, operands)?;
        let prefix = Text::from_bytes(alloc, copy.prefix.as_bytes())?;
        self.add(FlatEq::Same(flat, prefix))
    }

    /// Adds the definitions of copied inputs, of which the first has this number, by arguments.
    pub fn define_inputs(
        &mut self,
        alloc: Global,
        copy: &ProcessCopy,
        first: u32,
        arguments: &[Expr],
    ) -> Result<(), AllocError>
        requires small { AllByRecursion IsSmall (map expression_of arguments.now) }
        requires fits { first + length arguments.now < 2 ^ 32 }
        ensures { OnOk result (made_of self.new ≡ with_equations (made_of self.old) (inputs_defined (copy_in copy.now) first (map expression_of arguments.now))) }
    {
        let mut number = first;
        for argument in arguments {
            let flat = flat_expression(alloc, copy, argument)?;
            self.add_definition(alloc, copy, SigId(number), flat)?;
            number += 1;
        }
        Ok(())
    }

    /// Adds the definitions of left sides by copied outputs, of which the first has this number.
    pub fn define_outputs(
        &mut self,
        alloc: Global,
        copy: &ProcessCopy,
        names: &[Name],
        first: u32,
    ) -> Result<(), AllocError>
        requires { first + length names.now < 2 ^ 32 }
        ensures { OnOk result (made_of self.new ≡ with_equations (made_of self.old) (outputs_defined (copy_in copy.now) names.now first)) }
    {
        let mut number = first;
        for name in names {
            let output = FlatExpr::Sig(SigId(number), name.at);
            self.add_definition(alloc, copy, copy.signal(name), output)?;
            number += 1;
        }
        Ok(())
    }

    /// The flat body, whose first signals are so many inputs and then so many outputs.
    pub fn finish(self, inputs: u32, outputs: u32) -> Flat
        ensures is { flat_body_of result ≡ record { signals = (made_of self).progress.signals; inputs = inputs; outputs = outputs; equations = (made_of self).equations } }
        ensures few { length result.signals.items ≤ 512 }
    {
        Flat {
            signals: self.signals,
            inputs,
            outputs,
            body: self.body,
        }
    }
}

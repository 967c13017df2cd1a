//! What operations come to, read off their equations.

ghost use Rattle.std.specs.Prelude.{◌≡◌};
ghost use Rattle.sig_machine.specs.Prelude.{ℕ, map, function_of, computed, computed_by, computed_for, first_in, memory_of, operand_in, outcome, answered, value_in};
ghost use Rattle.sig_machine.specs.ActorMachines.{actor_in};
ghost use Rattle.sig_machine.specs.Machines.{actor_at, memories_of, registers_of, taken_of};

use crate::actor::ActorMachine;
use crate::machine::Machine;
use sig_base::{EqId, SigId};
use sig_kernel::{Form, FunOp, Inputs, Kernel, Operand};
use sig_plan::{Cause, Op, OpKind};
use sig_values::{computed_of_one, computed_of_two, next_value};

impl ActorMachine {
    /// What an operation comes to: a value, or why it has none. It takes no memory, and names the cause of a fault; an
    /// operation of the actor's own steps is done by its instruction.
    pub fn outcome(&self, kernel: &Kernel, inputs: &Inputs, op: &Op) -> Result<i64, Cause>
        ensures { (step : ℕ) → result ≡ answered (outcome kernel.now inputs.now (actor_in self.now step) op.now) }
    {
        let machine = &self.machine;
        match op.kind {
            OpKind::Read(x) => next_value(inputs, x, machine.read_so_far(x)),
            OpKind::Compute => machine.compute(kernel, op.eq),
            OpKind::Left | OpKind::Right | OpKind::Store(_) => Ok(machine.first(
                op.reads.as_slice(),
            )),
            OpKind::DelayRead => Ok(machine.remembered(op.writes)),
        }
    }
}

impl Machine {
    /// What the equation of this number computes.
    fn compute(&self, kernel: &Kernel, number: Option<EqId>) -> Result<i64, Cause>
        ensures { result ≡ answered (computed_for kernel.now (registers_of self.now) number) }
    {
        let Some(e) = number else {
            return Ok(0);
        };
        match kernel.equations.as_slice().get(e.0 as usize) {
            Some(equation) => self.compute_form(e, &equation.form),
            None => Ok(0),
        }
    }

    /// What an equation of this form computes.
    fn compute_form(&self, e: EqId, form: &Form) -> Result<i64, Cause>
        ensures { result ≡ answered (computed_by (registers_of self.now) e form.now) }
    {
        match form {
            Form::Fun(_, function, operands) => self.apply(e, *function, operands.as_slice()),
            Form::When(_, x, _) => Ok(self.value(*x)),
            Form::WhenConst(_, constant, _) => Ok(*constant),
            Form::Event(_, _) => Ok(1),
            Form::Delay(_, _, _) | Form::Default(_, _, _) | Form::Sync(_, _) => Ok(0),
        }
    }

    /// What a function gives of its operands; `e` is its equation.
    fn apply(&self, e: EqId, function: FunOp, operands: &[Operand]) -> Result<i64, Cause>
        ensures { result ≡ answered (computed e (function_of function) (map (operand_in (registers_of self.now)) operands.now)) }
    {
        match operands {
            [a] => computed_of_one(e, function, self.operand(*a)),
            [a, b] => computed_of_two(e, function, self.operand(*a), self.operand(*b)),
            _ => Ok(0),
        }
    }

    /// The value of an operand.
    fn operand(&self, operand: Operand) -> i64
        ensures { result ≡ operand_in (registers_of self.now) operand }
    {
        match operand {
            Operand::Sig(x) => self.value(x),
            Operand::Const(constant) => constant,
        }
    }

    /// The value of the first of some signals.
    fn first(&self, signals: &[SigId]) -> i64
        ensures { result ≡ first_in (registers_of self.now) signals.now }
    {
        match signals {
            [x, ..] => self.value(*x),
            [] => 0,
        }
    }

    /// The value of a signal in this instant, or 0.
    fn value(&self, x: SigId) -> i64
        ensures { result ≡ value_in (registers_of self.now) x }
    {
        self.seen(x).unwrap_or(0)
    }

    /// How many values of an input were read.
    fn read_so_far(&self, x: SigId) -> usize
        ensures { result ≡ taken_of self.now x.0 }
    {
        match self.taken.as_slice().get(x.0 as usize) {
            Some(count) => *count,
            None => 0,
        }
    }

    /// What is remembered for the delay that defines a signal, where there is one.
    fn remembered(&self, signal: Option<SigId>) -> i64
        ensures { result ≡ memory_of (actor_at self.now 0) signal }
    {
        match signal {
            Some(y) => self.memory(y),
            None => 0,
        }
    }

    /// What is remembered for the delay that defines a signal.
    fn memory(&self, y: SigId) -> i64
        ensures { result ≡ memories_of self.now y.0 }
    {
        if y.0 as usize >= self.signals {
            return 0;
        }
        match self.signals.checked_add(y.0 as usize) {
            Some(number) => self.cell(number),
            None => 0,
        }
    }
}

//! Signals and equations with room for more inputs.

ghost use Rattle.std.specs.Prelude.{◌≡◌, ◌+◌, ◌<◌, ◌^◌};
ghost use Rattle.sig_pace.specs.Prelude.{true, map, IfOk, list_all, form_within, operand_within};
ghost use Rattle.sig_pace.specs.Renumbering.{moved, renumbered, renumbered_equation, renumbered_form, renumbered_operand};

use sig_base::SigId;
use sig_kernel::{Equation, Form, Operand, Operands};
use std::alloc::{AllocError, Global};

/// So many old signals, of which so many are inputs, and so many more inputs behind these.
#[derive(Clone, Copy)]
pub(crate) struct Room {
    pub(crate) signals: u32,
    pub(crate) inputs: u32,
    pub(crate) more: u32,
}

impl Room {
    /// Where a signal stands now.
    pub(crate) fn place(&self, x: SigId) -> SigId
        requires within { x.0 < self.now.signals }
        requires few { self.now.signals + self.now.more < 2 ^ 32 }
        ensures { result ≡ renumbered (moved self.now.inputs self.now.more) x }
    {
        if x.0 < self.inputs {
            x
        } else {
            SigId(x.0 + self.more)
        }
    }

    /// The equation over the signals where they stand now.
    pub(crate) fn equation(
        &self,
        alloc: Global,
        equation: &Equation,
    ) -> Result<Equation, AllocError>
        requires within { form_within self.now.signals equation.now.form ≡ true }
        requires few { self.now.signals + self.now.more < 2 ^ 32 }
        ensures { IfOk result (λ moved_equation. moved_equation
            ≡ renumbered_equation (moved self.now.inputs self.now.more) equation.now) }
    {
        Ok(Equation {
            form: self.form(alloc, &equation.form)?,
            at: equation.at,
        })
    }

    /// The form over the signals where they stand now.
    fn form(&self, alloc: Global, form: &Form) -> Result<Form, AllocError>
        requires within { form_within self.now.signals form.now ≡ true }
        requires few { self.now.signals + self.now.more < 2 ^ 32 }
        ensures { IfOk result (λ moved_form. moved_form
            ≡ renumbered_form (moved self.now.inputs self.now.more) form.now) }
    {
        match form {
            Form::Fun(y, op, operands) => {
                let moved = self.operands(alloc, operands.as_slice())?;
                Ok(Form::Fun(self.place(*y), *op, Operands::from(moved)))
            }
            Form::Delay(y, x, initial) => {
                Ok(Form::Delay(self.place(*y), self.place(*x), *initial))
            }
            Form::When(y, x, b) => {
                Ok(Form::When(self.place(*y), self.place(*x), self.place(*b)))
            }
            Form::WhenConst(y, constant, b) => {
                Ok(Form::WhenConst(self.place(*y), *constant, self.place(*b)))
            }
            Form::Default(y, u, v) => {
                Ok(Form::Default(self.place(*y), self.place(*u), self.place(*v)))
            }
            Form::Sync(x, y) => Ok(Form::Sync(self.place(*x), self.place(*y))),
            Form::Event(y, x) => Ok(Form::Event(self.place(*y), self.place(*x))),
        }
    }

    /// The operands over the signals where they stand now.
    fn operands(&self, alloc: Global, operands: &[Operand]) -> Result<Vec<Operand>, AllocError>
        requires within { list_all (operand_within self.now.signals) operands.now ≡ true }
        requires few { self.now.signals + self.now.more < 2 ^ 32 }
        ensures { IfOk result (λ moved_operands. moved_operands.items
            ≡ map (renumbered_operand (moved self.now.inputs self.now.more)) operands.now) }
    {
        let mut moved = Vec::with_capacity(alloc, operands.len())?;
        for operand in operands {
            moved.push(self.operand(*operand))?;
        }
        Ok(moved)
    }

    /// The operand over the signals where they stand now.
    fn operand(&self, operand: Operand) -> Operand
        requires within { operand_within self.now.signals operand ≡ true }
        requires few { self.now.signals + self.now.more < 2 ^ 32 }
        ensures { result ≡ renumbered_operand (moved self.now.inputs self.now.more) operand }
    {
        match operand {
            Operand::Sig(x) => Operand::Sig(self.place(x)),
            Operand::Const(constant) => Operand::Const(constant),
        }
    }
}

//! What is cut where no equation can write anything.

ghost use Rattle.std.specs.Prelude.{◌≡◌, ◌⊎◌};
ghost use Rattle.sig_rel.specs.Prelude.{Some, IfOk, MatchOption, IsValid};
ghost use Rattle.sig_rel.specs.inner.Schedules.{IsFoundAmong, IsPlannedStep, IsScheduling, IsWhole, is_waiting};

use crate::elements::{Element, Step};
use crate::links::number_at;
use crate::rules::{least_of, target_number};
use crate::schedules::{Scheduling, cut};
use sig_base::SigId;
use sig_kernel::{Form, Kernel, Operand};
use std::alloc::{AllocError, Global};

impl Scheduling {
    /// What is cut next, of a circle: the boolean of a written class, and then the class, for which
    /// most equations wait. None where nothing is left.
    pub(crate) fn next_cut(
        &self,
        alloc: Global,
        kernel: &Kernel,
    ) -> Result<Option<Step>, AllocError>
        requires valid { IsValid kernel.now }
        requires scheduling { IsScheduling kernel.now self.now }
        ensures { IfOk result (λ step. MatchOption step (IsWhole kernel.now self.now)
            (IsPlannedStep kernel.now self.now)) }
    {
        match self.waited(alloc, kernel, true)? {
            Some(signal) => Ok(Some(cut(Element::Truth(signal as u32)))),
            None => match self.waited(alloc, kernel, false)? {
                Some(class) => Ok(Some(cut(Element::Presence(class as u32)))),
                None => Ok(None),
            },
        }
    }

    /// The boolean of a written class, or the class, for which most equations wait.
    fn waited(
        &self,
        alloc: Global,
        kernel: &Kernel,
        truths: bool,
    ) -> Result<Option<usize>, AllocError>
        requires { IsValid kernel.now }
        ensures { IfOk result (IsFoundAmong kernel.now (is_waiting kernel.now self.now truths)) }
    {
        let waiting = self.waiting(alloc, kernel, truths)?;
        let mut best = None;
        for signal in 0..kernel.signals.as_slice().len() {
            if self.is_waiting(kernel, truths, signal) {
                best = Some(better(waiting.as_slice(), best, signal));
            }
        }
        Ok(best)
    }

    /// To each boolean, or to each class, how many equations read a signal of it, of those that define a
    /// signal of another one that is not written.
    fn waiting(
        &self,
        alloc: Global,
        kernel: &Kernel,
        truths: bool,
    ) -> Result<Vec<usize>, AllocError> {
        let mut waiting = vec![in alloc; 0usize; kernel.signals.as_slice().len()]?;
        for equation in kernel.equations.as_slice() {
            let target = target_number(&equation.form) as usize;
            if !self.placed.has_both(kernel, &self.rules, target) {
                self.count_form(waiting.as_mut_slice(), truths, &equation.form);
            }
        }
        Ok(waiting)
    }

    /// Counts the signals that a form reads.
    fn count_form(&self, waiting: &mut [usize], truths: bool, form: &Form) {
        let target = target_number(form);
        match form {
            Form::Fun(_, _, operands) => {
                for operand in operands.as_slice() {
                    if let Operand::Sig(x) = operand {
                        self.count(waiting, truths, target, *x);
                    }
                }
            }
            Form::Delay(_, x, _) | Form::WhenConst(_, _, x) | Form::Event(_, x) => {
                self.count(waiting, truths, target, *x);
            }
            Form::When(_, a, b) | Form::Default(_, a, b) => {
                self.count(waiting, truths, target, *a);
                self.count(waiting, truths, target, *b);
            }
            Form::Sync(_, _) => {}
        }
    }

    /// Counts a signal, or its class, unless that is the target's.
    fn count(&self, waiting: &mut [usize], truths: bool, target: u32, x: SigId) {
        let (place, other) = if truths {
            (x.0 as usize, target as usize)
        } else {
            let least = self.rules.least.as_slice();
            (
                least_of(least, x.0 as usize),
                least_of(least, target as usize),
            )
        };
        if place != other && place < waiting.len() {
            waiting[place] = waiting[place].saturating_add(1);
        }
    }
}

/// The better one of a place and the best one so far, the earlier one of equals.
fn better(waiting: &[usize], best: Option<usize>, place: usize) -> usize
    ensures { (result ≡ place) ⊎ (best ≡ Some result) }
{
    match best {
        Some(best) => {
            if number_at(waiting, place) > number_at(waiting, best) {
                place
            } else {
                best
            }
        }
        None => place,
    }
}

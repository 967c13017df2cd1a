//! The list of a triangular kernel, put together one element after another.

ghost use Rattle.std.specs.Prelude.{◌≡◌, ◌<◌, ◌≤◌, ◌*◌, ◌∷◌, ◌++◌};
ghost use Rattle.sig_rel.specs.Prelude.{[], ℕ, None, Some, true, false, length, slice_index_or, IfOk, OnOk, MatchOption, MatchBool, list_all, IsValid};
ghost use Rattle.sig_rel.specs.Systems.{AreConditions};
ghost use Rattle.sig_rel.specs.inner.Tables.{AreMarks, AreRulesOf, IsPlaced, IsStuck, IsTriangleOf, IsWithin, MayBePlaced, form_by, has_both, has_class, has_operand, has_truth_of, has_whole, is_left, is_top_class, may_take, numbered_element, presence_ready, step_by, truth_ready, with_class, with_truth_of};
ghost use Rattle.sig_rel.specs.Triangles.{IsTriangular};

use crate::elements::{Element, Step};
use crate::firsts::row;
use crate::numbering::is_boolean;
use crate::rules::{Rules, governs, least_of, rules_of, top_of};
use sig_base::SigId;
use sig_clock::ClockBase;
use sig_kernel::{Form, Kernel, Operand};
use std::alloc::{AllocError, Global};

/// A list that shows that a kernel is triangular, with what decides its elements.
#[derive(Drop)]
pub(crate) struct Triangle {
    pub(crate) rules: Rules,
    pub(crate) list: Vec<Element>,
}

/// What was placed so far: the list, and which classes, at their least signals, and which booleans
/// it has.
#[derive(Drop)]
pub(crate) struct Placed {
    pub(crate) list: Vec<Element>,
    classes: Vec<bool>,
    truths: Vec<bool>,
}

/// A list that shows that a kernel is triangular, and None where it is not. The kernel's conditions
/// are given.
pub(crate) fn triangle_of(
    alloc: Global,
    kernel: &Kernel,
    conditions: &[SigId],
) -> Result<Option<Triangle>, ClockBase>
    requires valid { IsValid kernel.now }
    requires conditions { AreConditions kernel.now conditions.now }
    ensures { IfOk result (λ triangle. MatchOption triangle (IsTriangular kernel.now → ⊥)
        (IsTriangleOf kernel.now)) }
{
    let rules = rules_of(alloc, kernel, conditions)?;
    let top = top_of(alloc, kernel, rules.least.as_slice())?;
    match top {
        Some(top) => Ok(placed_from(alloc, kernel, rules, top)?),
        None => Ok(None),
    }
}

/// A list that begins with this top and shows that a kernel is triangular, and None where it is not.
fn placed_from(
    alloc: Global,
    kernel: &Kernel,
    rules: Rules,
    top: usize,
) -> Result<Option<Triangle>, AllocError>
    requires valid { IsValid kernel.now }
    requires rules { AreRulesOf kernel.now rules }
    requires within { top < length kernel.now.signals }
    requires top { is_top_class kernel.now rules.least.items top ≡ true }
    ensures { IfOk result (λ triangle. MatchOption triangle (IsTriangular kernel.now → ⊥)
        (IsTriangleOf kernel.now)) }
{
    let mut placed = Placed::none(alloc, kernel.signals.as_slice().len())?;
    placed.place(Element::Presence(top as u32))?;
    placed.place_all(kernel, &rules)?;
    if placed.is_whole(kernel, &rules) {
        Ok(Some(Triangle {
            rules,
            list: placed.list,
        }))
    } else {
        Ok(None)
    }
}

impl Placed {
    /// Nothing, of so many signals.
    pub(crate) fn none(alloc: Global, count: usize) -> Result<Placed, AllocError>
        requires few { count ≤ 512 }
        ensures list { IfOk result (λ placed. placed.list.items ≡ []) }
        ensures marks { IfOk result (AreMarks count) }
    {
        Ok(Placed {
            list: Vec::new(alloc),
            classes: vec![in alloc; false; count]?,
            truths: vec![in alloc; false; count]?,
        })
    }

    /// Places elements as long as one may stand behind those that were placed.
    fn place_all(&mut self, kernel: &Kernel, rules: &Rules) -> Result<(), AllocError>
        requires valid { IsValid kernel.now }
        requires rules { AreRulesOf kernel.now rules.now }
        requires placed { IsPlaced kernel.now rules.now self.old }
        ensures { IfOk result (λ _. IsPlaced kernel.now rules.now self.new × IsStuck kernel.now rules.now self.new) }
    {
        while let Some(element) = self.next(kernel, rules) {
            self.place(element)?;
        }
        Ok(())
    }

    /// Places an element behind the others, and marks it.
    pub(crate) fn place(&mut self, element: Element) -> Result<(), AllocError>
        requires { IsWithin self.old element }
        ensures list { OnOk result (self.new.list.items ≡ self.old.list.items ++ element ∷ []) }
        ensures classes { OnOk result (self.new.classes.items ≡ with_class self.old.classes.items element) }
        ensures truths { OnOk result (self.new.truths.items ≡ with_truth_of self.old.truths.items element) }
    {
        self.list.push(element)?;
        match element {
            Element::Presence(class) => self.classes[class as usize] = true,
            Element::Truth(signal) => self.truths[signal as usize] = true,
        }
        Ok(())
    }

    /// The first element that was not placed, and may stand behind those that were.
    fn next(&self, kernel: &Kernel, rules: &Rules) -> Option<Element>
        requires { length kernel.now.signals ≤ 512 }
        ensures { MatchOption result (IsStuck kernel.now rules.now self.now)
            (MayBePlaced kernel.now rules.now self.now) }
    {
        let count = kernel.signals.as_slice().len();
        for place in 0..2 * count {
            let step = tabled_step(rules, count, place);
            if self.may_take(kernel, rules.least.as_slice(), step) {
                return Some(step.element);
            }
        }
        None
    }

    /// Whether a step may be taken next: its element is left, and what its equation makes it of was
    /// placed. A class is placed by an equation alone.
    pub(crate) fn may_take(&self, kernel: &Kernel, least: &[u32], step: Step) -> bool
        ensures { result ≡ may_take kernel.now least.now self.now step }
    {
        if !self.is_left(kernel, least, step.element) {
            return false;
        }
        let form = form_by(kernel, step.equation);
        match step.element {
            Element::Presence(class) => match form {
                Some(form) => {
                    governs(least, class as usize, form) && self.presence_ready(kernel, least, form)
                }
                None => false,
            },
            Element::Truth(_) => match form {
                Some(form) => self.truth_ready(kernel, least, form),
                None => true,
            },
        }
    }

    /// Whether an element is left: a class that was not placed, at its least signal, or a boolean that was
    /// not, of a class that was.
    pub(crate) fn is_left(&self, kernel: &Kernel, least: &[u32], element: Element) -> bool
        ensures { result ≡ is_left kernel.now least.now self.now element }
    {
        match element {
            Element::Presence(class) => {
                let class = class as usize;
                least_of(least, class) == class && !is_marked(self.classes.as_slice(), class)
            }
            Element::Truth(signal) => {
                let signal = signal as usize;
                (is_boolean(kernel, signal) && self.has_class(least, signal))
                    && !is_marked(self.truths.as_slice(), signal)
            }
        }
    }

    /// Whether what a form gives its signal's class stands behind was placed.
    fn presence_ready(&self, kernel: &Kernel, least: &[u32], form: &Form) -> bool
        ensures { result ≡ presence_ready kernel.now least.now self.now form.now }
    {
        match form {
            Form::When(_, x, b) => {
                self.has_class(least, x.0 as usize) && self.has_whole(kernel, least, *b)
            }
            Form::WhenConst(_, _, b) => self.has_whole(kernel, least, *b),
            Form::Default(_, u, v) => {
                self.has_class(least, u.0 as usize) && self.has_class(least, v.0 as usize)
            }
            Form::Fun(_, _, _) | Form::Delay(_, _, _) | Form::Sync(_, _) | Form::Event(_, _) =>
                true,
        }
    }

    /// Whether what a form gives its signal's truth stands behind was placed.
    fn truth_ready(&self, kernel: &Kernel, least: &[u32], form: &Form) -> bool
        ensures { result ≡ truth_ready kernel.now least.now self.now form.now }
    {
        match form {
            Form::Fun(_, _, operands) => self.has_operands(kernel, least, operands.as_slice()),
            Form::Delay(_, x, _) | Form::WhenConst(_, _, x) | Form::Event(_, x) => {
                self.has_whole(kernel, least, *x)
            }
            Form::When(_, a, b) | Form::Default(_, a, b) | Form::Sync(a, b) => {
                self.has_whole(kernel, least, *a) && self.has_whole(kernel, least, *b)
            }
        }
    }

    /// Whether the classes of operands were placed, and those of them that are booleans.
    fn has_operands(&self, kernel: &Kernel, least: &[u32], operands: &[Operand]) -> bool
        ensures { result ≡ list_all (has_operand kernel.now least.now self.now) operands.now }
    {
        operands
            .iter()
            .all(|operand| self.has_operand(kernel, least, *operand))
    }

    fn has_operand(&self, kernel: &Kernel, least: &[u32], operand: Operand) -> bool
        ensures { result ≡ has_operand kernel.now least.now self.now operand }
    {
        match operand {
            Operand::Sig(x) => self.has_whole(kernel, least, x),
            Operand::Const(_) => true,
        }
    }

    /// Whether the class of a signal was placed, and the signal if it is a boolean.
    fn has_whole(&self, kernel: &Kernel, least: &[u32], x: SigId) -> bool
        ensures { result ≡ has_whole kernel.now least.now self.now x.0 }
    {
        self.has_class(least, x.0 as usize) && self.has_truth_of(kernel, x.0 as usize)
    }

    /// Whether the class of a signal was placed.
    pub(crate) fn has_class(&self, least: &[u32], x: usize) -> bool
        ensures { result ≡ has_class least.now self.now x }
    {
        is_marked(self.classes.as_slice(), least_of(least, x))
    }

    /// Whether a signal was placed, if it is a boolean.
    pub(crate) fn has_truth_of(&self, kernel: &Kernel, x: usize) -> bool
        ensures { result ≡ has_truth_of kernel.now self.now x }
    {
        !is_boolean(kernel, x) || is_marked(self.truths.as_slice(), x)
    }

    /// Whether all classes and all booleans were placed.
    fn is_whole(&self, kernel: &Kernel, rules: &Rules) -> bool
        ensures { MatchBool result
            ((signal : ℕ) → signal < length kernel.now.signals → has_both kernel.now rules.now self.now signal ≡ true)
            ((signal : ℕ) × (signal < length kernel.now.signals) × (has_both kernel.now rules.now self.now signal ≡ false)) }
    {
        for signal in 0..kernel.signals.as_slice().len() {
            if !self.has_both(kernel, rules, signal) {
                return false;
            }
        }
        true
    }

    pub(crate) fn has_both(&self, kernel: &Kernel, rules: &Rules, signal: usize) -> bool
        ensures { result ≡ has_both kernel.now rules.now self.now signal }
    {
        self.has_class(rules.least.as_slice(), signal) && self.has_truth_of(kernel, signal)
    }
}

/// The steps by the tables in the order in which they are tried: each class of so many signals, and
/// then each boolean.
fn tabled_step(rules: &Rules, count: usize, place: usize) -> Step
    requires count { count ≤ 512 }
    requires place { place < 2 * count }
    ensures { result ≡ step_by rules.now (numbered_element count place) }
{
    if place < count {
        Step {
            element: Element::Presence(place as u32),
            equation: row(rules.counted.as_slice(), place),
        }
    } else {
        let signal = place - count;
        Step {
            element: Element::Truth(signal as u32),
            equation: row(rules.defined.as_slice(), signal),
        }
    }
}

/// The form of the equation of a number, if there is one.
fn form_by(kernel: &Kernel, equation: Option<u32>) -> Option<&Form>
    ensures { MatchOption result (form_by kernel.now equation ≡ None)
        (λ form. form_by kernel.now equation ≡ Some form.now) }
{
    match equation {
        Some(number) => match kernel.equations.as_slice().get(number as usize) {
            Some(equation) => Some(&equation.form),
            None => None,
        },
        None => None,
    }
}

/// Whether a place is marked.
fn is_marked(marks: &[bool], place: usize) -> bool
    ensures { result ≡ slice_index_or marks.now place false }
{
    match marks.get(place) {
        Some(mark) => *mark,
        None => false,
    }
}

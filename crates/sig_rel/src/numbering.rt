//! The unknowns of a kernel's abstract reactions.

ghost use Rattle.std.specs.Prelude.{◌≡◌, ◌<◌, ◌+◌, ◌^◌};
ghost use Rattle.sig_rel.specs.Prelude.{ℕ, true, None, length, map, replicate, slice_get, slice_index_or, vec_len, IfOk, conditions_of, AreLeast, IsValid, form_within, operand_within, list_all};
ghost use Rattle.sig_rel.specs.inner.Numberings.{AreGiven, HasNumbers, Retains, given_at, next_after, number_of};
ghost use Rattle.sig_rel.specs.Relations.{is_boolean};
ghost use Rattle.sig_rel.specs.inner.Statuses.{AreUnknownsOf, LieWithin};

use crate::elements::Element;
use sig_base::Kind;
use sig_clock::{ClockBase, condition_set, same_clock};
use sig_kernel::{Form, Kernel, Operand};
use std::alloc::{AllocError, Global};

/// For each signal the unknown of its clock class's presence, and that of its truth where it is a
/// boolean.
#[derive(Drop)]
pub(crate) struct Unknowns {
    pub(crate) present: Vec<u32>,
    pub(crate) truth: Vec<Option<u32>>,
    /// The number of the first unknown, and the one behind the last.
    pub(crate) first: u32,
    pub(crate) end: u32,
}

/// The numbers that were given so far: to clock classes, at their least signals, and to truths.
#[derive(Drop)]
struct Numbering {
    class: Vec<Option<u32>>,
    truth: Vec<Option<u32>>,
    next: u32,
}

/// The unknowns of a kernel, numbered from the count of its conditions on: first those of these
/// elements, in their order, and the others in the order in which the equations name them.
pub(crate) fn unknowns_by(
    alloc: Global,
    kernel: &Kernel,
    order: &[Element],
) -> Result<Unknowns, ClockBase>
    requires { IsValid kernel.now }
    ensures unknowns { IfOk result (AreUnknownsOf kernel.now) }
    ensures within { IfOk result (LieWithin kernel.now) }
{
    let least = same_clock(alloc, kernel)?;
    let conditions = condition_set(alloc, kernel)?;
    let first = conditions.len() as u32;
    Ok(numbered(alloc, kernel, least.as_slice(), first, order)?)
}

/// The unknowns of a kernel, of which the least signals of the clock classes are given. Those of some
/// elements are numbered first, and the others in the order in which the equations name them, so that
/// related ones stand beside one another.
fn numbered(
    alloc: Global,
    kernel: &Kernel,
    least: &[u32],
    first: u32,
    order: &[Element],
) -> Result<Unknowns, AllocError>
    requires valid { IsValid kernel.now }
    requires least { AreLeast kernel.now least.now }
    requires first { first ≡ length (conditions_of kernel.now) }
    ensures unknowns { IfOk result (AreUnknownsOf kernel.now) }
    ensures within { IfOk result (LieWithin kernel.now) }
{
    let mut numbering = Numbering::new(alloc, kernel.signals.as_slice().len(), first)?;
    numbering.number_elements(kernel, least, order);
    numbering.number_equations(kernel, least);
    numbering.number_signals(kernel, least);
    let present = numbering.presences(alloc, least)?;
    Ok(Unknowns {
        present,
        truth: numbering.truth,
        first,
        end: numbering.next,
    })
}

impl Numbering {
    /// No number is given.
    fn new(alloc: Global, signals: usize, first: u32) -> Result<Numbering, AllocError>
        ensures class { IfOk result (λ n. n.class.items ≡ replicate signals None) }
        ensures truth { IfOk result (λ n. n.truth.items ≡ replicate signals None) }
        ensures next { IfOk result (λ n. n.next ≡ first) }
    {
        Ok(Numbering {
            class: vec![in alloc; None; signals]?,
            truth: vec![in alloc; None; signals]?,
            next: first,
        })
    }

    /// Numbers some elements.
    fn number_elements(&mut self, kernel: &Kernel, least: &[u32], order: &[Element])
        requires valid { IsValid kernel.now }
        requires least { AreLeast kernel.now least.now }
        requires given { AreGiven kernel.now least.now (length (conditions_of kernel.now)) self.old }
        ensures { AreGiven kernel.now least.now (length (conditions_of kernel.now)) self.new }
    {
        for element in order {
            self.number_element(kernel, least, *element);
        }
    }

    /// Numbers an element, if it is one of the kernel's.
    fn number_element(&mut self, kernel: &Kernel, least: &[u32], element: Element)
        requires valid { IsValid kernel.now }
        requires least { AreLeast kernel.now least.now }
        requires given { AreGiven kernel.now least.now (length (conditions_of kernel.now)) self.old }
        ensures { AreGiven kernel.now least.now (length (conditions_of kernel.now)) self.new }
    {
        match element {
            Element::Presence(class) => self.number_own(kernel, least, class as usize),
            Element::Truth(signal) => self.number_boolean(kernel, least, signal as usize),
        }
    }

    /// Numbers a class, if the signal of this number is the least one of its class.
    fn number_own(&mut self, _kernel: &Kernel, least: &[u32], class: usize)
        requires valid { IsValid _kernel.now }
        requires least { AreLeast _kernel.now least.now }
        requires given { AreGiven _kernel.now least.now (length (conditions_of _kernel.now)) self.old }
        ensures { AreGiven _kernel.now least.now (length (conditions_of _kernel.now)) self.new }
    {
        if class < least.len() && least[class] as usize == class {
            self.number_class(class);
        }
    }

    /// Numbers the truth of a signal, if it is a boolean.
    fn number_boolean(&mut self, kernel: &Kernel, _least: &[u32], signal: usize)
        requires valid { IsValid kernel.now }
        requires given { AreGiven kernel.now _least.now (length (conditions_of kernel.now)) self.old }
        ensures { AreGiven kernel.now _least.now (length (conditions_of kernel.now)) self.new }
    {
        if is_boolean(kernel, signal) {
            self.number_truth(signal);
        }
    }

    /// Numbers the signals that the equations name.
    fn number_equations(&mut self, kernel: &Kernel, least: &[u32])
        requires valid { IsValid kernel.now }
        requires least { AreLeast kernel.now least.now }
        requires given { AreGiven kernel.now least.now (length (conditions_of kernel.now)) self.old }
        ensures { AreGiven kernel.now least.now (length (conditions_of kernel.now)) self.new }
    {
        for equation in kernel.equations.as_slice() {
            self.number_form(kernel, least, &equation.form);
        }
    }

    /// Numbers all signals.
    fn number_signals(&mut self, kernel: &Kernel, least: &[u32])
        requires valid { IsValid kernel.now }
        requires least { AreLeast kernel.now least.now }
        requires given { AreGiven kernel.now least.now (length (conditions_of kernel.now)) self.old }
        ensures given { AreGiven kernel.now least.now (length (conditions_of kernel.now)) self.new }
        ensures each { (signal : ℕ) → signal < length kernel.now.signals
            → HasNumbers kernel.now least.now self.new signal }
    {
        for signal in 0..least.len() {
            self.number(kernel, least, signal);
        }
    }

    /// Numbers the signals that a form names. A Delay or a Sync leaves nothing to be met beside the
    /// classes, so it brings nothing together.
    fn number_form(&mut self, kernel: &Kernel, least: &[u32], form: &Form)
        requires valid { IsValid kernel.now }
        requires least { AreLeast kernel.now least.now }
        requires within { form_within (length kernel.now.signals) form.now ≡ true }
        requires given { AreGiven kernel.now least.now (length (conditions_of kernel.now)) self.old }
        ensures { AreGiven kernel.now least.now (length (conditions_of kernel.now)) self.new }
    {
        match form {
            Form::Fun(y, _, operands) => {
                self.number(kernel, least, y.0 as usize);
                self.number_operands(kernel, least, operands.as_slice());
            }
            Form::Delay(_, _, _) | Form::Sync(_, _) => {}
            Form::WhenConst(y, _, x) | Form::Event(y, x) => {
                self.number(kernel, least, y.0 as usize);
                self.number(kernel, least, x.0 as usize);
            }
            Form::When(y, a, b) | Form::Default(y, a, b) => {
                self.number(kernel, least, y.0 as usize);
                self.number(kernel, least, a.0 as usize);
                self.number(kernel, least, b.0 as usize);
            }
        }
    }

    /// Numbers the signals among operands.
    fn number_operands(&mut self, kernel: &Kernel, least: &[u32], operands: &[Operand])
        requires valid { IsValid kernel.now }
        requires least { AreLeast kernel.now least.now }
        requires within { list_all (operand_within (length kernel.now.signals)) operands.now ≡ true }
        requires given { AreGiven kernel.now least.now (length (conditions_of kernel.now)) self.old }
        ensures { AreGiven kernel.now least.now (length (conditions_of kernel.now)) self.new }
    {
        for operand in operands {
            self.number_operand(kernel, least, *operand);
        }
    }

    /// Numbers an operand that is a signal.
    fn number_operand(&mut self, kernel: &Kernel, least: &[u32], operand: Operand)
        requires valid { IsValid kernel.now }
        requires least { AreLeast kernel.now least.now }
        requires within { operand_within (length kernel.now.signals) operand ≡ true }
        requires given { AreGiven kernel.now least.now (length (conditions_of kernel.now)) self.old }
        ensures { AreGiven kernel.now least.now (length (conditions_of kernel.now)) self.new }
    {
        match operand {
            Operand::Sig(x) => self.number(kernel, least, x.0 as usize),
            Operand::Const(_) => {}
        }
    }

    /// Gives a signal's class and its truth the next numbers, where they have none.
    fn number(&mut self, kernel: &Kernel, least: &[u32], signal: usize)
        requires valid { IsValid kernel.now }
        requires least { AreLeast kernel.now least.now }
        requires within { signal < length kernel.now.signals }
        requires given { AreGiven kernel.now least.now (length (conditions_of kernel.now)) self.old }
        ensures given { AreGiven kernel.now least.now (length (conditions_of kernel.now)) self.new }
        ensures retains { Retains self.old self.new }
        ensures has { HasNumbers kernel.now least.now self.new signal }
    {
        self.number_class(least[signal] as usize);
        if is_boolean(kernel, signal) {
            self.number_truth(signal);
        }
    }

    /// Gives a class the next number, where it has none.
    fn number_class(&mut self, class: usize)
        requires class { class < vec_len self.old.class }
        requires room { self.old.next + 1 < 2 ^ 32 }
        ensures class { self.new.class.items
            ≡ given_at (slice_index_or self.old.class.items class None) self.old.class.items class self.old.next }
        ensures truth { self.new.truth ≡ self.old.truth }
        ensures next { self.new.next
            ≡ next_after (slice_index_or self.old.class.items class None) self.old.next }
    {
        if self.class[class].is_none() {
            self.class[class] = Some(self.next);
            self.next += 1;
        }
    }

    /// Gives a truth the next number, where it has none.
    fn number_truth(&mut self, signal: usize)
        requires signal { signal < vec_len self.old.truth }
        requires room { self.old.next + 1 < 2 ^ 32 }
        ensures class { self.new.class ≡ self.old.class }
        ensures truth { self.new.truth.items
            ≡ given_at (slice_index_or self.old.truth.items signal None) self.old.truth.items signal self.old.next }
        ensures next { self.new.next
            ≡ next_after (slice_index_or self.old.truth.items signal None) self.old.next }
    {
        if self.truth[signal].is_none() {
            self.truth[signal] = Some(self.next);
            self.next += 1;
        }
    }

    /// To each signal the number of its class.
    fn presences(&self, alloc: Global, least: &[u32]) -> Result<Vec<u32>, AllocError>
        ensures { IfOk result (λ present. present.items
            ≡ map (λ class. number_of (slice_get self.now.class.items class)) least.now) }
    {
        let mut present = Vec::new(alloc);
        for class in least {
            present.push(number_in(self.class.as_slice(), *class as usize))?;
        }
        Ok(present)
    }
}

/// The number at a place; 0 where none is given.
pub(crate) fn number_in(rows: &[Option<u32>], place: usize) -> u32
    ensures { result ≡ number_of (slice_get rows.now place) }
{
    match rows.get(place) {
        Some(Some(number)) => *number,
        Some(None) | None => 0,
    }
}

/// Whether the signal of this number is a boolean.
pub(crate) fn is_boolean(kernel: &Kernel, signal: usize) -> bool
    ensures { result ≡ is_boolean kernel.now signal }
{
    match kernel.signals.as_slice().get(signal) {
        Some(signal) => matches!(signal.kind, Kind::Boolean),
        None => false,
    }
}

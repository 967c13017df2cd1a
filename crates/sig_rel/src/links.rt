//! Which unknowns stand together: those of one equation that is left to be met, and those from which
//! an element is written.

use crate::elements::Element;
use crate::functions::truth_function;
use crate::numbering::is_boolean;
use crate::rules::{Rules, is_listed, least_of, target_number};
use sig_base::SigId;
use sig_kernel::{Form, Kernel, Operand};
use std::alloc::{AllocError, Global};

/// From how many unknowns an element may be written in a circle; else it keeps its own.
const MOST: usize = 8;

/// An element of a link, by its place among those that are linked.
#[derive(Clone, Copy)]
pub(crate) struct Pin {
    pub(crate) link: usize,
    pub(crate) element: usize,
}

/// A range of members.
#[derive(Clone, Copy)]
struct Range {
    start: usize,
    end: usize,
}

/// Links between elements that have unknowns of their own; and to each element the range of those among
/// the members from which it is written: itself alone where it keeps its own unknown, or would be
/// written from many.
#[derive(Drop)]
pub(crate) struct Links {
    pub(crate) pins: Vec<Pin>,
    pub(crate) count: usize,
    pub(crate) linked: Vec<Element>,
    members: Vec<usize>,
    ranges: Vec<Range>,
    circular: bool,
}

impl Links {
    /// No links, of so many signals.
    pub(crate) fn none(alloc: Global, count: usize) -> Result<Links, AllocError> {
        Ok(Links {
            pins: Vec::new(alloc),
            count: 0,
            linked: Vec::new(alloc),
            members: Vec::new(alloc),
            ranges: vec![in alloc; Range { start: 0, end: 0 }; count.saturating_mul(2)]?,
            circular: false,
        })
    }

    /// Takes the next element, which an equation of this form writes, or none. The boolean, if it is one
    /// that is to be cut: it would be written from many, in a circle.
    pub(crate) fn take(
        &mut self,
        least: &[u32],
        conditions: &[SigId],
        element: Element,
        form: Option<&Form>,
    ) -> Result<Option<u32>, AllocError> {
        let start = self.members.len();
        let Some(form) = form else {
            self.circular = self.circular || is_open(conditions, element);
            self.keep(element, start, true)?;
            return Ok(None);
        };
        self.gather(start, &reads(least, element, form))?;
        let is_wide = self.members.len().saturating_sub(start) > MOST;
        self.keep(element, start, is_wide)?;
        match element {
            Element::Truth(signal) if is_wide && self.circular => Ok(Some(signal)),
            _ if is_wide => {
                self.link(start)?;
                Ok(None)
            }
            _ => Ok(None),
        }
    }

    /// Links what an equation that is left to be met asks of.
    pub(crate) fn link_equation(
        &mut self,
        kernel: &Kernel,
        rules: &Rules,
        number: usize,
        form: &Form,
    ) -> Result<(), AllocError> {
        if is_used(kernel, rules, number, form) {
            return Ok(());
        }
        let least = rules.least.as_slice();
        let target = SigId(target_number(form));
        let start = self.members.len();
        let (class, truth) = (class_at(least, target), Element::Truth(target.0));
        let [a, b, c] = reads(least, class, form);
        let [d, e, f] = reads(least, truth, form);
        self.gather(start, &[Some(class), Some(truth), a, b, c, d, e, f])?;
        self.link(start)
    }

    /// Adds the members from which elements are written, those that are not there yet from a start on.
    fn gather(&mut self, start: usize, elements: &[Option<Element>]) -> Result<(), AllocError> {
        for element in elements {
            if let Some(element) = element {
                self.gather_one(start, *element)?;
            }
        }
        Ok(())
    }

    /// Adds the members from which an element is written, those that are not there yet from a start on.
    fn gather_one(&mut self, start: usize, element: Element) -> Result<(), AllocError> {
        let Some(range) = self.ranges.get(number_of(element)).copied() else {
            return Ok(());
        };
        for place in range.start..range.end {
            let member = number_at(self.members.as_slice(), place);
            if !has(self.members.as_slice(), start, member) {
                self.members.push(member)?;
            }
        }
        Ok(())
    }

    /// Keeps for an element the members from a start on; itself alone, where it has its own unknown or
    /// is named in the place of many.
    fn keep(&mut self, element: Element, start: usize, is_own: bool) -> Result<(), AllocError> {
        let mut start = start;
        if is_own {
            start = self.members.len();
            self.members.push(self.linked.len())?;
            self.linked.push(element)?;
        }
        let end = self.members.len();
        let number = number_of(element);
        if number < self.ranges.len() {
            self.ranges[number] = Range { start, end };
        }
        Ok(())
    }

    /// Adds a link of the members from a start on, if there are several.
    fn link(&mut self, start: usize) -> Result<(), AllocError> {
        if self.members.len().saturating_sub(start) < 2 {
            return Ok(());
        }
        for place in start..self.members.len() {
            self.pins.push(Pin {
                link: self.count,
                element: number_at(self.members.as_slice(), place),
            })?;
        }
        self.count = self.count.saturating_add(1);
        Ok(())
    }
}

/// The elements from which an equation of this form writes an element. A function of truths has at most
/// two operands.
fn reads(least: &[u32], element: Element, form: &Form) -> [Option<Element>; 3] {
    match (element, form) {
        (Element::Presence(_), Form::When(_, x, b)) => [
            Some(class_at(least, *x)),
            Some(class_at(least, *b)),
            Some(Element::Truth(b.0)),
        ],
        (Element::Presence(_), Form::WhenConst(_, _, b)) => {
            [Some(class_at(least, *b)), Some(Element::Truth(b.0)), None]
        }
        (Element::Presence(_), Form::Default(_, u, v)) => {
            [Some(class_at(least, *u)), Some(class_at(least, *v)), None]
        }
        (Element::Truth(_), Form::Fun(_, _, operands)) => [
            truth_at(operands.as_slice(), 0),
            truth_at(operands.as_slice(), 1),
            None,
        ],
        (Element::Truth(_), Form::When(_, x, _)) => [Some(Element::Truth(x.0)), None, None],
        (Element::Truth(_), Form::Default(_, u, v)) => [
            Some(class_at(least, *u)),
            Some(Element::Truth(u.0)),
            Some(Element::Truth(v.0)),
        ],
        _ => [None, None, None],
    }
}

/// The presence of a signal's class.
fn class_at(least: &[u32], x: SigId) -> Element {
    Element::Presence(match least.get(x.0 as usize) {
        Some(class) => *class,
        None => 0,
    })
}

/// The truth of the operand at a place, if that is a signal.
fn truth_at(operands: &[Operand], place: usize) -> Option<Element> {
    match operands.get(place) {
        Some(Operand::Sig(x)) => Some(Element::Truth(x.0)),
        _ => None,
    }
}

/// Whether an element is the truth of a signal that is no condition.
fn is_open(conditions: &[SigId], element: Element) -> bool {
    match element {
        Element::Presence(_) => false,
        Element::Truth(signal) => !is_listed(conditions, signal as usize),
    }
}

/// The number of an element.
fn number_of(element: Element) -> usize {
    match element {
        Element::Presence(class) => (class as usize).saturating_mul(2),
        Element::Truth(signal) => (signal as usize).saturating_mul(2).saturating_add(1),
    }
}

/// Whether an equation says no more than what was written by it, or than that signals are of one class.
fn is_used(kernel: &Kernel, rules: &Rules, number: usize, form: &Form) -> bool {
    let signals = kernel.signals.as_slice();
    match form {
        Form::Fun(y, op, operands) => {
            truth_function(signals, *op, operands.as_slice()).is_none()
                || is_entry(rules.defined.as_slice(), y.0 as usize, number)
        }
        Form::When(y, _, _) | Form::WhenConst(y, _, _) | Form::Default(y, _, _) => {
            let y = y.0 as usize;
            let class = least_of(rules.least.as_slice(), y);
            is_entry(rules.counted.as_slice(), class, number)
                && (!is_boolean(kernel, y) || is_entry(rules.defined.as_slice(), y, number))
        }
        Form::Delay(_, _, _) | Form::Sync(_, _) | Form::Event(_, _) => true,
    }
}

/// Whether a table names an equation at a place.
fn is_entry(table: &[Option<u32>], place: usize, number: usize) -> bool {
    match table.get(place) {
        Some(Some(entry)) => *entry as usize == number,
        Some(None) | None => false,
    }
}

/// Whether a number is among others from a start on.
fn has(numbers: &[usize], start: usize, number: usize) -> bool {
    for place in start..numbers.len() {
        if numbers[place] == number {
            return true;
        }
    }
    false
}

/// The number at a place; 0 past the end.
pub(crate) fn number_at(numbers: &[usize], place: usize) -> usize {
    match numbers.get(place) {
        Some(number) => *number,
        None => 0,
    }
}

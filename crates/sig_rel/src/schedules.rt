//! The order in which the clocks of a kernel are written, each behind what it is written from.

ghost use Rattle.std.specs.Prelude.{◌≡◌, ◌<◌, ◌+◌};
ghost use Rattle.sig_rel.specs.Prelude.{None, length, IfOk, MatchOption, OnOk, IsValid, Kernel};
ghost use Rattle.sig_rel.specs.inner.Schedules.{HasPlace, IsByTable, IsPlannedStep, IsSchedule, IsScheduling, IsTaken, IsWhole, is_waiting};
ghost use Rattle.sig_rel.specs.Systems.{AreConditions};

use crate::elements::{Element, Step};
use crate::firsts::{first_given, row};
use crate::links::Links;
use crate::placing::Placed;
use crate::rules::{Rules, defined_rules, least_of, target_number};
use crate::writing::form_for;
use sig_base::SigId;
use sig_clock::ClockBase;
use sig_kernel::{Form, Kernel};
use std::alloc::{AllocError, Global};

/// All classes and booleans of a kernel in the order in which they are written, and the equations
/// that write them. What no equation writes is a cut: it keeps its own variable. So does each
/// condition.
#[derive(Drop)]
pub(crate) struct Schedule {
    pub(crate) rules: Rules,
    pub(crate) list: Vec<Element>,
    pub(crate) links: Links,
}

/// What was scheduled so far.
#[derive(Drop)]
pub(crate) struct Scheduling {
    pub(crate) rules: Rules,
    pub(crate) placed: Placed,
}

/// The schedule of a kernel, of which the conditions are given.
pub(crate) fn schedule_of(
    alloc: Global,
    kernel: &Kernel,
    conditions: &[SigId],
) -> Result<Schedule, ClockBase>
    requires valid { IsValid kernel.now }
    requires conditions { AreConditions kernel.now conditions.now }
    ensures { IfOk result (IsSchedule kernel.now) }
{
    let mut scheduling = Scheduling::none(alloc, kernel, conditions)?;
    scheduling.cut_tops(alloc, kernel)?;
    scheduling.schedule_all(alloc, kernel)?;
    let links = Links::none(alloc, kernel.signals.as_slice().len())?;
    let mut schedule = linked(scheduling, links);
    schedule.cut_wide(kernel, conditions)?;
    schedule.link_equations(kernel)?;
    Ok(schedule)
}

/// What was scheduled, with links.
fn linked(scheduling: Scheduling, links: Links) -> Schedule
    ensures rules { result.rules ≡ scheduling.rules }
    ensures list { result.list ≡ scheduling.placed.list }
{
    Schedule {
        rules: scheduling.rules,
        list: scheduling.placed.list,
        links,
    }
}

impl Schedule {
    /// Cuts the booleans of circles that would be written from many unknowns, and links those from
    /// which others are written.
    fn cut_wide(&mut self, kernel: &Kernel, conditions: &[SigId]) -> Result<(), AllocError>
        requires { IsSchedule kernel.now self.old }
        ensures { OnOk result (IsSchedule kernel.now self.new) }
    {
        for place in 0..self.list.len() {
            self.cut_at(kernel, conditions, place)?;
        }
        Ok(())
    }

    /// Links the element at a place to those from which it is written, and cuts it where it is one that
    /// is to be cut.
    fn cut_at(
        &mut self,
        kernel: &Kernel,
        conditions: &[SigId],
        place: usize,
    ) -> Result<(), AllocError>
        requires { IsSchedule kernel.now self.old }
        ensures { OnOk result (IsSchedule kernel.now self.new) }
    {
        let Some(element) = self.list.get(place).copied() else {
            return Ok(());
        };
        let form = form_for(kernel, &self.rules, element);
        let least = self.rules.least.as_slice();
        match self.links.take(least, conditions, element, form)? {
            Some(signal) => {
                self.cut_truth(signal as usize);
                Ok(())
            }
            None => Ok(()),
        }
    }

    /// Cuts a boolean.
    fn cut_truth(&mut self, signal: usize)
        ensures { (kernel : Kernel) → IsSchedule kernel self.old → IsSchedule kernel self.new }
    {
        if signal < self.rules.defined.len() {
            self.rules.defined[signal] = None;
        }
    }

    /// Links what the equations ask that are left to be met.
    fn link_equations(&mut self, kernel: &Kernel) -> Result<(), AllocError>
        requires { IsSchedule kernel.now self.old }
        ensures { OnOk result (IsSchedule kernel.now self.new) }
    {
        for (number, equation) in kernel.equations.as_slice().iter().enumerate() {
            self.links
                .link_equation(kernel, &self.rules, number, &equation.form)?;
        }
        Ok(())
    }
}

/// A step that no equation makes.
pub(crate) fn cut(element: Element) -> Step
    ensures element { result.element ≡ element }
    ensures equation { result.equation ≡ None }
{
    Step {
        element,
        equation: None,
    }
}

impl Scheduling {
    /// Nothing is scheduled.
    fn none(alloc: Global, kernel: &Kernel, conditions: &[SigId]) -> Result<Scheduling, ClockBase>
        requires valid { IsValid kernel.now }
        requires conditions { AreConditions kernel.now conditions.now }
        ensures { IfOk result (IsScheduling kernel.now) }
    {
        let rules = defined_rules(alloc, kernel, conditions)?;
        let placed = Placed::none(alloc, kernel.signals.as_slice().len())?;
        Ok(Scheduling { rules, placed })
    }

    /// Cuts the classes that no equation can ever write from other classes.
    fn cut_tops(&mut self, alloc: Global, kernel: &Kernel) -> Result<(), AllocError>
        requires valid { IsValid kernel.now }
        requires scheduling { IsScheduling kernel.now self.old }
        ensures { OnOk result (IsScheduling kernel.now self.new) }
    {
        let firsts = first_given(alloc, kernel, self.rules.least.as_slice())?;
        for class in 0..kernel.signals.as_slice().len() {
            if self.is_waiting(kernel, false, class) && row(&firsts, class).is_none() {
                self.take(cut(Element::Presence(class as u32)))?;
            }
        }
        Ok(())
    }

    /// Schedules steps until nothing is left.
    fn schedule_all(&mut self, alloc: Global, kernel: &Kernel) -> Result<(), AllocError>
        requires valid { IsValid kernel.now }
        requires scheduling { IsScheduling kernel.now self.old }
        ensures scheduling { OnOk result (IsScheduling kernel.now self.new) }
        ensures whole { OnOk result (IsWhole kernel.now self.new) }
    {
        while let Some(step) = self.next(alloc, kernel)? {
            self.take(step)?;
        }
        Ok(())
    }

    /// Schedules a step.
    fn take(&mut self, step: Step) -> Result<(), AllocError>
        requires { HasPlace self.old step.element }
        ensures { OnOk result (IsTaken self.old self.new step) }
    {
        match step.element {
            Element::Presence(class) => self.rules.counted[class as usize] = step.equation,
            Element::Truth(signal) => self.rules.defined[signal as usize] = step.equation,
        }
        self.placed.place(step.element)
    }

    /// What is written next: a class or a boolean by an equation, and a cut where there is none such.
    /// None where nothing is left.
    fn next(&self, alloc: Global, kernel: &Kernel) -> Result<Option<Step>, AllocError>
        requires valid { IsValid kernel.now }
        requires scheduling { IsScheduling kernel.now self.now }
        ensures { IfOk result (λ step. MatchOption step (IsWhole kernel.now self.now) (IsPlannedStep kernel.now self.now)) }
    {
        let least = self.rules.least.as_slice();
        let equations = kernel.equations.as_slice().len();
        for place in 0..equations + kernel.signals.as_slice().len() {
            let step = self.step_tried(kernel, place);
            if self.placed.may_take(kernel, least, step) {
                return Ok(Some(step));
            }
        }
        self.next_cut(alloc, kernel)
    }

    /// The steps in the order in which they are tried: by each equation one that writes the class of
    /// what it defines, and then for each boolean one that writes it.
    fn step_tried(&self, kernel: &Kernel, place: usize) -> Step
        requires valid { IsValid kernel.now }
        requires scheduling { IsScheduling kernel.now self.now }
        requires place { place < length kernel.now.equations + length kernel.now.signals }
        ensures { IsByTable self.now.rules result }
    {
        let equations = kernel.equations.as_slice();
        if place < equations.len() {
            let target = target_number(&equations[place].form) as usize;
            Step {
                element: Element::Presence(least_of(self.rules.least.as_slice(), target) as u32),
                equation: Some(place as u32),
            }
        } else {
            let signal = place - equations.len();
            Step {
                element: Element::Truth(signal as u32),
                equation: row(self.rules.defined.as_slice(), signal),
            }
        }
    }

    /// Whether an element of one kind is left: a boolean of a class that was written, or a class.
    pub(crate) fn is_waiting(&self, kernel: &Kernel, truths: bool, signal: usize) -> bool
        requires { signal < 512 }
        ensures { result ≡ is_waiting kernel.now self.now truths signal }
    {
        let least = self.rules.least.as_slice();
        let signal = signal as u32;
        if truths {
            self.placed.is_left(kernel, least, Element::Truth(signal))
        } else {
            self.placed
                .is_left(kernel, least, Element::Presence(signal))
        }
    }
}

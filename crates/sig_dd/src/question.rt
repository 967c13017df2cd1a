//! What the recursion below the calls asks for, and one step of it.

ghost use Rattle.std.specs.Prelude.{◌≡◌};
ghost use Rattle.sig_dd.specs.Nodes.{IsStore};
ghost use Rattle.sig_dd.specs.Operand.{side_of};
ghost use Rattle.sig_dd.specs.Question.{HoldsAll, IsStep};

use crate::node::Ref;
use crate::operand::Operand;
use crate::store::Store;

/// A function that is asked for.
#[derive(Clone, Copy, Debug, PartialEq, Eq, Hash)]
pub(crate) enum Question {
    /// The second function where the first is true, and the third elsewhere.
    Pick(Ref, Ref, Ref),
    /// The function where the variable has the truth.
    Fix(Ref, u32, bool),
}

impl Question {
    /// Whether the references alone do not answer the question. It decides only what is kept.
    fn is_open(self) -> bool {
        match self {
            Question::Pick(f, g, h) => {
                let (g, h) = (g.unless(f, Ref::TRUE), h.unless(f, Ref::FALSE));
                !f.is_constant() && g != h && (g != Ref::TRUE || h != Ref::FALSE)
            }
            Question::Fix(f, ..) => !f.is_constant(),
        }
    }
}

/// A question, split by the first variable that it tests: what it asks where the variable is
/// false, and where it is true.
#[derive(Clone, Copy)]
pub(crate) struct Split {
    pub(crate) variable: u32,
    pub(crate) low: Question,
    pub(crate) high: Question,
}

impl Split {
    /// Whether the answer of a choice is worth a place in the cache: of a call's first question where
    /// one of the two below is open, and of another one where both are. Without such places a choice
    /// would be answered once for each way to it; a row of other ones is soon gone down again.
    pub(crate) fn lasts(self, first: bool) -> bool {
        let (low, high) = (self.low.is_open(), self.high.is_open());
        (low && high) || (first && (low || high))
    }
}

/// What is known of a question at once: its answer, or the two questions below it.
#[derive(Clone, Copy)]
pub(crate) enum Step {
    Known(Ref),
    Open(Split),
}

/// What a choice asks where the variable, the first one that it tests, has the truth.
fn pick_side(
    first: &Operand,
    second: &Operand,
    third: &Operand,
    variable: u32,
    truth: bool,
) -> Question
    ensures { result ≡ Question.Pick
        (side_of first.now.node first.now.reference variable truth)
        (side_of second.now.node second.now.reference variable truth)
        (side_of third.now.node third.now.reference variable truth) }
{
    Question::Pick(
        first.side(variable, truth),
        second.side(variable, truth),
        third.side(variable, truth),
    )
}

impl Store {
    /// One step of a choice. Where the second function is asked for the first is true, and where the
    /// third is it is false: so the first itself is a constant there.
    fn pick_step(&self, f: Ref, g: Ref, h: Ref) -> Step
        requires { HoldsAll self.now.nodes (Question.Pick f g h) }
        ensures store { IsStore self.now }
        ensures step { IsStep self.now.nodes (Question.Pick f g h) result }
    {
        let first = self.operand(f);
        let Some(top) = first.node else {
            return Step::Known(if f == Ref::TRUE { g } else { h });
        };
        let g = g.unless(f, Ref::TRUE);
        let h = h.unless(f, Ref::FALSE);
        if g == h {
            return Step::Known(g);
        }
        if g == Ref::TRUE && h == Ref::FALSE {
            return Step::Known(f);
        }
        let second = self.operand(g);
        let third = self.operand(h);
        let variable = third.earlier(second.earlier(top.variable));
        Step::Open(Split {
            variable,
            low: pick_side(&first, &second, &third, variable, false),
            high: pick_side(&first, &second, &third, variable, true),
        })
    }

    /// One step of a function with a variable's truth fixed.
    fn fix_step(&self, f: Ref, variable: u32, truth: bool) -> Step
        requires { HoldsAll self.now.nodes (Question.Fix f variable truth) }
        ensures store { IsStore self.now }
        ensures step { IsStep self.now.nodes (Question.Fix f variable truth) result }
    {
        let Some(n) = self.node(f) else {
            return Step::Known(f);
        };
        if n.variable == variable {
            return Step::Known(n.child(truth));
        }
        if n.variable > variable {
            return Step::Known(f);
        }
        Step::Open(Split {
            variable: n.variable,
            low: Question::Fix(n.child(false), variable, truth),
            high: Question::Fix(n.child(true), variable, truth),
        })
    }

    /// One step of a question.
    pub(crate) fn step(&self, question: Question) -> Step
        requires { HoldsAll self.now.nodes question }
        ensures store { IsStore self.now }
        ensures step { IsStep self.now.nodes question result }
    {
        match question {
            Question::Pick(f, g, h) => self.pick_step(f, g, h),
            Question::Fix(f, variable, truth) => self.fix_step(f, variable, truth),
        }
    }
}

//! What all shares of a run come to, once they were served.

ghost use Rattle.std.specs.Prelude.{◌≡◌, ◌-◌};
ghost use Rattle.sig_work.specs.Prelude.{ℕ, List, length, Reaction, actor_of};
ghost use Rattle.sig_work.specs.inner.Among.{AreSingle, Is};
ghost use Rattle.sig_work.specs.Gathered.{AreDone, AreOfSomeWhole, AreTogether, AreTogetherOfSome, BeginsTheRun, HoldFinished, IsEndOfRun};
ghost use Rattle.sig_work.specs.Members.{run_of};
ghost use Rattle.sig_work.specs.inner.Words.{IsLeastWord, NamesCause};

use crate::cause::cause_named;
use crate::finding::member_of;
use crate::settling::settle_links;
use crate::share::Share;
use crate::word::{close, least_failure};
use sig_halt::Halt;
use sig_kernel::Inputs;
use sig_plan::{Ended, Plan};
use sig_settling_laws::{own_steps_are_an_interleaving, settled_actors_have_acted_in_order};
use sig_step::{actors_in, plans_are_accepted};
use std::sync::Wait;

/// Settles all links, joins the seats and closes the word. The answer is the number of the instants that
/// were committed, with the cause that the word names. It takes no memory, and may wait.
pub fn gather<R: Wait>(
    rt: &R,
    plan: &Plan,
    inputs: &Inputs,
    halt: Halt,
    shares: Vec<Share>,
) -> Ended
    requires { AreOfSomeWhole plan.now inputs.now halt shares.items }
    ensures finished { (capacity limit : ℕ) (committed : List Reaction) → AreDone (run_of plan.now inputs.now capacity limit) committed halt shares.items
        → HoldFinished (run_of plan.now inputs.now capacity limit) committed shares.items }
    ensures end { (capacity limit : ℕ) (committed : List Reaction) → AreDone (run_of plan.now inputs.now capacity limit) committed halt shares.items
        → IsEndOfRun (run_of plan.now inputs.now capacity limit) committed result }
{
    plans_are_accepted(plan);
    settled_actors_have_acted_in_order();
    let ended = ended_by(plan, inputs, shares.as_slice());
    let shares = settle_links(rt, plan, shares);
    close(halt, shares);
    ended
}

/// How many instants the collector has behind it, and the cause that the least failure names.
fn ended_by(plan: &Plan, inputs: &Inputs, shares: &[Share]) -> Ended
    requires { AreSingle shares.now }
    ensures instants { Is shares.now (length plan.now.codes - 1) (λ m. result.instants ≡ (actor_of m.state).instant - 1) }
    ensures cause { (word : ℕ) × IsLeastWord shares.now word × NamesCause plan.now inputs.now shares.now word result.cause }
{
    let word = least_failure(shares);
    Ended {
        instants: instants_of(shares, actors_in(plan)),
        cause: cause_named(plan, inputs, shares, word),
    }
}

/// Settles all links of a run whose sink failed: what was committed begins what the run would commit. It
/// takes no memory, and may wait.
pub(crate) fn give_up<R: Wait>(
    rt: &R,
    plan: &Plan,
    inputs: &Inputs,
    halt: &Halt,
    shares: Vec<Share>,
)
    requires { AreTogetherOfSome plan.now inputs.now halt.now shares.items }
    ensures { (capacity limit : ℕ) (committed : List Reaction) → AreTogether (run_of plan.now inputs.now capacity limit) committed halt.now shares.items
        → BeginsTheRun (run_of plan.now inputs.now capacity limit) committed }
{
    plans_are_accepted(plan);
    own_steps_are_an_interleaving();
    settle_links(rt, plan, shares);
}

/// How many instants the collector, which is the last of so many actors, has behind it.
fn instants_of(shares: &[Share], actors: usize) -> u32
    requires { AreSingle shares.now }
    ensures { Is shares.now (actors - 1) (λ m. result ≡ (actor_of m.state).instant - 1) }
{
    match member_of(shares, actors.saturating_sub(1)) {
        Some(collector) => collector.state.instant().saturating_sub(1),
        None => 0,
    }
}

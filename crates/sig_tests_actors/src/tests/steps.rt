//! Steps of one actor, over link ends that keep what they get.

ghost use Rattle.std.specs.Prelude.{◌≡◌, ◌<◌, IfSome};
ghost use Rattle.sig_dd.specs.Nodes.{Holds};
ghost use Rattle.sig_kernel.specs.Validity.{AreFlowsFor};

use super::kept::Kept;
use sig_dd::{Ref, Steps, Store};
use sig_kernel::Inputs;
use sig_plan::Plan;
use sig_schedule_laws::accepted_plans_are_runnable;
use sig_step::{Acted, ClusterState, plans_are_accepted};
use std::alloc::Global;
use std::fmt::Write;
use std::sync::ledger::{Blank, Ledger};
use std::test::Fail;

/// The guard of a slot of the first actor, if there is one, and its store.
fn guard_at(plan: &Plan, number: u32) -> Option<(&Store, Ref)>
    ensures { IfSome result (λ guard. Holds guard.0.now.nodes guard.1) }
{
    accepted_plans_are_runnable();
    plans_are_accepted(plan);
    let code = plan.codes.first()?;
    let slot = code.slots().get(number as usize)?;
    Some((&plan.store, slot.guard))
}

/// How many conditions the guards of the first actor need, for its first slots; and a thousand steps of this actor over
/// room for so many items, with a line for each that answers another thing than the one before.
pub fn stepped<L: Ledger>(
    alloc: Global,
    plan: &Plan,
    inputs: &Inputs,
    room: u16,
    blank: Blank,
) -> Result<String, Fail>
    requires flows { AreFlowsFor plan.now.kernel inputs.now }
    requires name { blank.name ≡ L.name }
    requires parts { blank.parts ≡ L.parts }
    requires some { 0 < L.parts }
{
    let mut text = String::new(alloc);
    for number in 0..4 {
        if let Some((store, guard)) = guard_at(plan, number) {
            write!(text, "{number} needs {};", store.support(guard)?.len())?;
        }
    }
    if plan.codes.len() == 0 {
        return Err(Fail::from("there is no actor"));
    }
    let mut ends = Kept {
        links: plan.links.len(),
        items: Vec::with_capacity(alloc, usize::from(room))?,
    };
    let mut state = ClusterState::new(alloc, plan, 0, inputs, 9)?;
    let mut steps = Steps::<L>::new(blank);
    let mut last = Acted::Done;
    for _ in 0..1000 {
        plans_are_accepted(plan);
        let acted = state.act(plan, inputs, &mut ends, &mut steps);
        if acted != last {
            write!(
                text,
                "\n{acted:?} {:?} {}",
                state.next_place(),
                state.ended()
            )?;
        }
        last = acted;
    }
    let word = state.next_place().pack();
    write!(
        text,
        "\n{:?}\n{} {} {}\n{:?}",
        state.cause(plan, inputs),
        state.look(word),
        state.look(word.saturating_sub(1)),
        state.ended(),
        ends.items.as_slice(),
    )?;
    Ok(text)
}

//! A play that stands at its opening.

ghost use Rattle.std.specs.Prelude.{◌≡◌, ◌≤◌};
ghost use Rattle.sig_play_command.specs.Prelude.{IfOk, AreFlowsFor, Shows, given_of, opening, run_of};
ghost use Rattle.sig_play_command.specs.inner.Standing.{IsPlay};

use sig_alone::ReadyRun;
use sig_base::limits::INSTANTS_MAX;
use sig_interleaving::{Core, CoreAnswer};
use sig_kernel::Inputs;
use sig_plan::Plan;
use sig_words::Settings;
use std::alloc::Global;

/// A play of a plan over flows, up to a limit of instants: the core at which the events happen, and the run
/// that writes what they leave of the text. All memory that it will need is taken where it is made.
#[derive(Drop)]
pub(crate) struct Play<'a> {
    pub(crate) plan: &'a Plan,
    pub(crate) inputs: &'a Inputs,
    pub(crate) limit: u32,
    pub(crate) core: Core<'a>,
    pub(crate) ready: ReadyRun,
}

impl<'a> Play<'a> {
    /// The opening of a play with these settings: their capacity and their instants count here. Only memory
    /// can be wanting.
    pub(crate) fn new(
        alloc: Global,
        plan: &'a Plan,
        inputs: &'a Inputs,
        settings: Settings,
    ) -> Result<Play<'a>, CoreAnswer>
        requires fits { AreFlowsFor plan.now.kernel inputs.now }
        requires capacity { 1 ≤ settings.capacity }
        requires instants { settings.instants ≤ INSTANTS_MAX }
        ensures play { IfOk result IsPlay }
        ensures given { IfOk result (λ play. given_of play.core ≡ run_of plan.now inputs.now settings.capacity settings.instants) }
        ensures opening { IfOk result (λ play. Shows (opening plan.now) play.core) }
    {
        let core = Core::new(alloc, plan, inputs, settings.capacity, settings.instants)?;
        let ready = ReadyRun::new(alloc, plan, inputs)?;
        Ok(Play {
            plan,
            inputs,
            limit: settings.instants,
            core,
            ready,
        })
    }
}

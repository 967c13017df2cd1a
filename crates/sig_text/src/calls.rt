//! The calls of an object in memory, some of which are to fail.

ghost use Rattle.std.specs.Prelude.{◌≡◌, ◌≤◌, ◌++◌, ◌∷◌, [], ◌↔◌, IsTrue, OnOk, OnErr, true};
ghost use Rattle.sig_text.specs.Calls.{CallsMade, NextFails, after_call};
ghost use Rattle.std.specs.List.{Contains};
ghost use Rattle.sig_text.specs.Counts.{raised};
ghost use Rattle.sig_text.specs.declared.calls.MemAnswer.TheVariants.{OutOfMemory};

use std::alloc::{AllocError, AllocFailed, Global};
use std::marker::Model;
use thiserror::Error;

/// The refusal of an object in memory.
#[derive(Clone, Copy, Debug, PartialEq, Eq, Error)]
pub enum MemAnswer {
    /// Memory was wanting.
    #[error("out of memory")]
    OutOfMemory,
}

impl From<AllocError> for MemAnswer {
    ghost from_gives = { λ _ answer. answer ≡ OutOfMemory };

    fn from(_error: AllocError) -> MemAnswer {
        MemAnswer::OutOfMemory
    }
}

impl<T: Drop> From<AllocFailed<T>> for MemAnswer {
    ghost from_gives = { λ _ answer. answer ≡ OutOfMemory };

    fn from(_error: AllocFailed<T>) -> MemAnswer {
        MemAnswer::OutOfMemory
    }
}

// How many calls were made, which are to fail, and how many failed.
#[derive(Drop)]
pub(crate) struct Calls {
    made: u64,
    failing: Vec<u32>,
    faults: u64,
}

impl Model for Calls {
    ghost Value = { CallsMade };

    ghost view = { λ calls. record { made = calls.made; failing = calls.failing.items; faults = calls.faults } };
}

impl Calls {
    // No call yet, and none that is to fail.
    pub(crate) fn new(alloc: Global) -> Calls
        ensures { result ≡ record { made = 0; failing = []; faults = 0 } }
    {
        Calls {
            made: 0,
            failing: Vec::new(alloc),
            faults: 0,
        }
    }

    // Lists one more call that is to fail.
    pub(crate) fn fail_at(&mut self, call: u32) -> Result<(), MemAnswer>
        ensures ok { OnOk result (self.new ≡ record self.old { failing = self.old.failing ++ call ∷ [] }) }
        ensures err { OnErr result (self.new ≡ self.old) }
    {
        self.failing.push(call)?;
        Ok(())
    }

    // Counts one more call, and tells whether it is to fail. One that is counts as a fault.
    pub(crate) fn next_fails(&mut self) -> bool
        ensures listed { IsTrue result ↔ NextFails self.old }
        ensures counted { self.new ≡ after_call self.old result }
        ensures faults_stay { self.old.faults ≤ self.new.faults }
    {
        self.made = self.made.saturating_add(1);
        let fails = is_listed(&self.failing, self.made);
        if fails {
            self.faults = self.faults.saturating_add(1);
        }
        fails
    }

    // Counts the last call as a fault too.
    pub(crate) fn fault(&mut self)
        ensures counted { self.new ≡ record self.old { faults = raised self.old.faults } }
        ensures faults_stay { self.old.faults ≤ self.new.faults }
    {
        self.faults = self.faults.saturating_add(1);
    }
}

fn is_listed(failing: &[u32], call: u64) -> bool
    ensures { IsTrue result ↔ Contains failing.now call }
{
    failing.iter().any(|listed| u64::from(*listed) == call)
}

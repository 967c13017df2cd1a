//! What a core tells of its state.

ghost use Rattle.std.specs.Prelude.{◌≡◌};
ghost use Rattle.sig_interleaving.specs.Prelude.{slice_get, Core as ModelCore};
ghost use Rattle.sig_interleaving.specs.Cores.{IsCore, Shows};
ghost use Rattle.sig_interleaving.specs.Telling.{length_in, state_in};

use crate::answer::ActorState;
use crate::state::Core;
use sig_base::{Place, words_are_ordered};

impl<'a> Core<'a> {
    /// How far an actor is, where there is one of this number.
    pub fn actor(&self, k: u32) -> Option<ActorState>
        ensures { (m : ModelCore) → Shows m self.now → result ≡ state_in (slice_get m.actors k) }
    {
        match self.states.get(k as usize) {
            Some(state) => Some(ActorState {
                instant: state.instant(),
                step: state.step(),
                ended: state.ended(),
            }),
            None => None,
        }
    }

    /// How many items a link holds, where there is one of this number.
    pub fn link_len(&self, j: u32) -> Option<u32>
        requires { IsCore self.now }
        ensures { (m : ModelCore) → Shows m self.now → result ≡ length_in (slice_get m.links j) }
    {
        match self.lists.queues.get(j as usize) {
            Some(queue) => Some(queue.len() as u32),
            None => None,
        }
    }

    /// The least place at which an actor failed, where one did.
    pub fn word(&self) -> Option<Place>
        ensures { (m : ModelCore) → Shows m self.now → result ≡ m.word }
    {
        words_are_ordered();
        if self.word == u64::MAX {
            None
        } else {
            Some(Place::unpack(self.word))
        }
    }
}

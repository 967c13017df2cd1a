//! Looks at the failure word.

ghost use Rattle.std.specs.Prelude.{◌≡◌, ◌<◌, ◌^◌};
ghost use Rattle.sig_interleaving.specs.Prelude.{None, Look};
ghost use Rattle.sig_interleaving.specs.Cores.{IsCore, IsSameRun, Keeps, LeavesLess, TellsChange};
ghost use Rattle.sig_interleaving.specs.inner.Resting.{Touches};

use crate::state::Core;

impl<'a> Core<'a> {
    /// Lets an actor look at the failure word: it ends where it runs and the word is before its next place,
    /// which it never is where no failure is recorded.
    #[inline(always)]
    pub(crate) fn look(&mut self, k: u32) -> bool
        requires { IsCore self.old }
        ensures core { IsCore self.new }
        ensures run { IsSameRun self.old self.new }
        ensures happened { Keeps (Look k) self.old self.new }
        ensures answer { TellsChange self.old (Look k) result }
        ensures left { LeavesLess self.old self.new result }
        ensures touches { Touches k None self.old self.new }
        ensures word { self.new.word ≡ self.old.word }
    {
        if self.word == u64::MAX {
            return false;
        }
        if k as usize >= self.states.len() {
            return false;
        }
        // A place fits one word, which is known where it is read.
        let _place = self.states[k as usize].next_place();
        self.states[k as usize].look(self.word)
    }
}

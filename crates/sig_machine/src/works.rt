//! Values that are put into cells.

ghost use Rattle.std.specs.Prelude.{◌<◌};
ghost use Rattle.sig_machine.specs.Prelude.{length};
ghost use Rattle.sig_machine.specs.inner.Works.{IsPut};

use crate::machine::Machine;

impl Machine {
    /// Puts a value into a cell.
    #[inline(always)]
    pub(crate) fn put(&mut self, target: u32, value: i64)
        requires cells { target < length self.old.cells.items }
        requires stamps { target < length self.old.stamps.items }
        ensures { IsPut target value self.old self.new }
    {
        self.cells[target as usize] = value;
        self.stamps[target as usize] = self.instant;
    }
}

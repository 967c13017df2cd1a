//! One instant.

ghost use Rattle.std.specs.Prelude.{◌≡◌, ◌<◌};
ghost use Rattle.sig_cells.specs.Prelude.{ℕ, List, IfErr, OnOk, length};
ghost use Rattle.sig_cells.specs.Codes.{EndsIn, HandlesAll, IsCode, StandsIn, instructions_in};
ghost use Rattle.sig_cells.specs.Instants.{FailsAt, Keeps};
ghost use Rattle.sig_cells.specs.Rows.{AreInstructions, Stops};
ghost use Rattle.sig_cells.specs.Instructions.{cells_of};
ghost use Rattle.sig_cells.specs.inner.Tests.{is_end};

use crate::code::GuardedCode;
use crate::guard::View;
use crate::test::Test;
use crate::works::come_to;
use sig_dd::Store;
use sig_kernel::Inputs;
use sig_plan::Cause;

/// The first instruction of an instant that has no value: its place, and why it has none, where the equation that is named is
/// none of its own.
#[derive(Clone, Copy, Debug, PartialEq, Eq)]
pub struct Fault {
    pub place: usize,
    pub cause: Cause,
}

impl GuardedCode {
    /// Does all instructions of an instant whose guards hold, in their order, or tells the first that has no value. It takes no
    /// memory.
    pub fn react(
        &self,
        store: &Store,
        inputs: &Inputs,
        instant: u32,
        cells: &mut [i64],
        stamps: &mut [u32],
        taken: &mut [usize],
    ) -> Result<(), Fault>
        requires code { IsCode store.now.nodes (length taken.old) (length cells.old) self.now }
        requires stamps { length stamps.old ≡ length cells.old }
        ensures done { StandsIn store.now.nodes self.now inputs.now instant (cells_of cells.old stamps.old taken.old)
            → OnOk result (HandlesAll store.now.nodes self.now inputs.now instant (cells_of cells.old stamps.old taken.old) (cells_of cells.new stamps.new taken.new)) }
        ensures fault { StandsIn store.now.nodes self.now inputs.now instant (cells_of cells.old stamps.old taken.old)
            → IfErr result (EndsIn store.now.nodes self.now inputs.now instant (cells_of cells.old stamps.old taken.old) (cells_of cells.new stamps.new taken.new)) }
        ensures place { IfErr result (λ fault. fault.place < length (instructions_in self.now)) }
        ensures keeps { Keeps (instructions_in self.now) instant (cells_of cells.old stamps.old taken.old) (cells_of cells.new stamps.new taken.new) }
    {
        let signals = self.signals;
        let mut next = &self.first;
        while !is_end(&next.test) {
            let ways = &self.ways[next.place];
            let view = View {
                signals,
                instant,
                cells,
                stamps,
            };
            if view.is_on(store, self.conditions.as_slice(), ways.guard, &next.test) {
                next = &ways.on;
                let reached = self
                    .instructions
                    .execute(inputs, next.from, next.to, instant, cells, stamps, taken);
                if reached < next.to {
                    return Err(self.fault_at(inputs, reached, cells, taken));
                }
            } else {
                next = &ways.off;
                let reached = self
                    .instructions
                    .execute(inputs, next.from, next.to, instant, cells, stamps, taken);
                if reached < next.to {
                    return Err(self.fault_at(inputs, reached, cells, taken));
                }
            }
        }
        Ok(())
    }

    /// Why the instruction of a place has no value.
    #[cold]
    #[inline(never)]
    fn fault_at(&self, inputs: &Inputs, place: usize, cells: &[i64], taken: &[usize]) -> Fault
        requires within { place < length (instructions_in self.now) }
        requires code { AreInstructions (length taken.now) (length cells.now) self.now.instructions }
        requires stops { (stamps : List ℕ) → Stops (instructions_in self.now) inputs.now place (cells_of cells.now stamps taken.now) }
        ensures place { result.place ≡ place }
        ensures fails { (stamps : List ℕ) → FailsAt (instructions_in self.now) inputs.now place (cells_of cells.now stamps taken.now) result.cause }
    {
        match come_to(self.instructions.at(place).work, inputs, cells, taken) {
            // It has none.
            Ok(_) => Fault {
                place,
                cause: Cause::Limit,
            },
            Err(cause) => Fault { place, cause },
        }
    }
}

/// Whether a test says that there is no run any more.
#[inline(always)]
fn is_end(test: &Test) -> bool
    ensures { result ≡ is_end test.now }
{
    match test {
        Test::End => true,
        _ => false,
    }
}

//! The machine.

ghost use Rattle.std.specs.Prelude.{◌≡◌, ◌<◌};
ghost use Rattle.sig_exec.specs.Prelude.{ℕ, ℤ, List, IfOk, ImageView, cleared, guards_of, length, opening, replicate};
ghost use Rattle.sig_exec.specs.inner.Lowerings.{Lowers};
ghost use Rattle.sig_exec.specs.inner.Machines.{IsMachineOf, seen_in, state_of};
ghost use Rattle.sig_exec.specs.declared.lowered.ImageInstructions.{ImageInstructions};

use crate::lowered::ImageInstructions;
use sig_kernel::Inputs;
use std::alloc::{AllocError, Global};

/// What the instructions of an image work on: the cells, the instant in which each was written last, and how many values of
/// each input were taken.
#[derive(Drop)]
pub struct ImageMachine {
    pub(crate) instant: u32,
    pub(crate) cells: Vec<i64>,
    pub(crate) stamps: Vec<u32>,
    pub(crate) taken: Vec<usize>,
}

impl ImageMachine {
    /// The machine of an image before the first instant. All memory that it will need is taken here.
    pub(crate) fn new(
        alloc: Global,
        lowered: &ImageInstructions,
        inputs: &Inputs,
    ) -> Result<ImageMachine, AllocError>
        ensures instant { IfOk result (λ m. m.instant ≡ 0) }
        ensures machine { IfOk result (λ m. (image : ImageView) → Lowers image lowered.now → IsMachineOf image lowered.now inputs.now m) }
        ensures opening { IfOk result (λ m. (image : ImageView) → Lowers image lowered.now
            → cleared (guards_of image) (state_of image inputs.now m) ≡ cleared (guards_of image) (opening (guards_of image) inputs.now)) }
    {
        Ok(ImageMachine {
            instant: 0,
            cells: Vec::from_slice(alloc, lowered.cells.as_slice())?,
            stamps: unwritten(alloc, lowered.cells.len())?,
            taken: untaken(alloc, inputs.as_slice().len())?,
        })
    }

    /// Goes to a later instant, in which no signal is written yet.
    pub(crate) fn begin(&mut self, instant: u32)
        requires { self.old.instant < instant }
        ensures instant { self.new.instant ≡ instant }
        ensures machine { (image : ImageView) (lowered : ImageInstructions) (flows : List (List ℤ)) → IsMachineOf image lowered flows self.old
            → IsMachineOf image lowered flows self.new }
        ensures cleared { (image : ImageView) (lowered : ImageInstructions) (flows : List (List ℤ)) → Lowers image lowered
            → IsMachineOf image lowered flows self.old
            → state_of image flows self.new ≡ cleared (guards_of image) (state_of image flows self.old) }
    {
        self.instant = instant;
    }

    /// What a signal is in this instant, as far as it was written.
    #[inline(always)]
    pub(crate) fn seen(&self, x: u32) -> Option<i64>
        requires cells { x < length self.now.cells.items }
        requires stamps { x < length self.now.stamps.items }
        ensures { result ≡ seen_in self.now x }
    {
        if self.stamps[x as usize] == self.instant {
            Some(self.cells[x as usize])
        } else {
            None
        }
    }
}

/// So many stamps of which none is that of an instant.
fn unwritten(alloc: Global, count: usize) -> Result<Vec<u32>, AllocError>
    ensures { IfOk result (λ stamps. stamps.items ≡ replicate count 0) }
{
    vec![in alloc; 0; count]
}

/// So many counts of nothing.
fn untaken(alloc: Global, count: usize) -> Result<Vec<usize>, AllocError>
    ensures { IfOk result (λ counts. counts.items ≡ replicate count 0) }
{
    vec![in alloc; 0; count]
}

//! One instant.

ghost use Rattle.std.specs.Prelude.{◌≡◌};
ghost use Rattle.sig_exec.specs.Prelude.{IfErr, OnOk, EndsIn, IsSoundImage, guards_of, length};
ghost use Rattle.sig_exec.specs.inner.Instants.{HandlesEach};
ghost use Rattle.sig_exec.specs.inner.Lowerings.{Lowers};
ghost use Rattle.sig_exec.specs.inner.Machines.{IsMachineOf, state_of};

use crate::fault::cause_of;
use crate::images::{images_are_right, op_at};
use crate::lowered::ImageInstructions;
use crate::machine::ImageMachine;
use sig_file::{Image, ImageCause};
use sig_kernel::Inputs;

impl ImageMachine {
    /// Does all operations of an instant whose guards hold, or tells why the first that has no value has none.
    pub(crate) fn react(
        &mut self,
        image: &Image,
        lowered: &ImageInstructions,
        inputs: &Inputs,
    ) -> Result<(), ImageCause>
        requires sound { IsSoundImage image.now }
        requires lowers { Lowers image.now lowered.now }
        requires inputs { length inputs.now ≡ image.now.inputs }
        requires machine { IsMachineOf image.now lowered.now inputs.now self.old }
        ensures done { OnOk result (HandlesEach image.now (state_of image.now inputs.now self.old) (state_of image.now inputs.now self.new)) }
        ensures fault { IfErr result (EndsIn (guards_of image.now) (guards_of image.now).ops (state_of image.now inputs.now self.old)) }
        ensures machine { IsMachineOf image.now lowered.now inputs.now self.new }
        ensures instant { self.new.instant ≡ self.old.instant }
    {
        images_are_right(image);
        match lowered.code.react(
            &lowered.functions.store,
            inputs,
            self.instant,
            self.cells.as_mut_slice(),
            self.stamps.as_mut_slice(),
            self.taken.as_mut_slice(),
        ) {
            Ok(()) => Ok(()),
            Err(fault) => Err(cause_of(op_at(image, fault.place).at, fault.cause)),
        }
    }
}

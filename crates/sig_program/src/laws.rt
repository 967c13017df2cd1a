//! What is so of every program.

ghost use Rattle.std.specs.Prelude.{◌≡◌, ◌⊎◌, ◌≤◌};
ghost use Rattle.sig_program.specs.Prelude.{ℕ, Bool, List, length, PROGRAM_BYTES, Kernel};
ghost use Rattle.sig_program.specs.Acceptance.{HasOwnKernel, IsAcceptedProgram, IsRefusedProgram};

use sig_deciding_laws::kernels_are_accepted_or_refused;
use sig_front::{kernels_of_texts, texts_have_a_verdict};
use sig_pace::{kernels_are_paced_or_refused, paced_kernels_are_valid};

/// A law: with paces and without, no program is both accepted and refused, and a refused one has one line.
pub fn one_verdict()
    ensures apart { (pace : Bool) (bytes line : List ℕ) → IsAcceptedProgram pace bytes → IsRefusedProgram pace bytes line → ⊥ }
    ensures one { (pace : Bool) (bytes line other : List ℕ) → IsRefusedProgram pace bytes line
        → IsRefusedProgram pace bytes other → line ≡ other }
{}

/// A law: bytes that are not too many and are the text of a program with a kernel are, with paces and without,
/// an accepted program, or a refused one with its line.
pub fn kernels_have_a_verdict()
    ensures { (pace : Bool) (bytes : List ℕ) (own : Kernel) → length bytes ≤ PROGRAM_BYTES → HasOwnKernel bytes own
        → IsAcceptedProgram pace bytes ⊎ ((line : List ℕ) × IsRefusedProgram pace bytes line) }
{
    kernels_of_texts();
    kernels_are_paced_or_refused();
    paced_kernels_are_valid();
    kernels_are_accepted_or_refused();
}

/// A law: any bytes are, with paces and without, an accepted program, or a refused one with its line.
pub fn programs_have_a_verdict()
    ensures { (pace : Bool) (bytes : List ℕ) → IsAcceptedProgram pace bytes ⊎ ((line : List ℕ) × IsRefusedProgram pace bytes line) }
{
    texts_have_a_verdict();
    kernels_of_texts();
    kernels_have_a_verdict();
}

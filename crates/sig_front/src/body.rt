//! From a text to its flat body.

ghost use Rattle.std.specs.Prelude.{◌≡◌, ◌<◌, ◌≤◌, ◌^◌, ◌⊎◌};
ghost use Rattle.sig_front.specs.Prelude.{ℕ, List, IfOk, IfErr, IsErrAnd, MatchResult, bytes_eq, length, map, IsDistinct, IsTree, FlatBody, flat_body_of, IsText, program_of};
ghost use Rattle.sig_front.specs.Flats.{IsFlatText, IsNoFlatText};
ghost use Rattle.sig_front.specs.declared.answer.FrontAnswer.{FrontAnswer};

use crate::answer::FrontAnswer;
use crate::text::tree;
use sig_base::limits::PROGRAM_BYTES;
use sig_call::{inline, names_of_flat_bodies, size_of_flat_bodies, trees_of_texts};
use sig_scope::Typed;
use sig_tree::{Flat, Program};
use sig_type::check_owned;
use std::alloc::Global;

/// The flat body of the program that a text is, or the first refusal by the lexer, the parser, the
/// check and the expansion of calls. Only memory can be wanting besides.
pub fn flat(alloc: Global, bytes: &[u8]) -> Result<Flat, FrontAnswer>
    requires short { length bytes.now ≤ PROGRAM_BYTES }
    ensures flat { IfOk result (λ flat. IsFlatText bytes.now (flat_body_of flat)) }
    ensures names { IfOk result (λ flat. IsDistinct bytes_eq (map (λ signal. signal.name) flat.signals.items)) }
    ensures small { IfOk result (λ flat. length flat.body.items < 2 ^ 30) }
    ensures fault { IfErr result (λ answer. (answer ≡ FrontAnswer.OutOfMemory) ⊎ IsNoFlatText bytes.now answer) }

    // Where the text has a flat body that is kept, it is given, and where it is refused, the refusal is
    // this one, unless memory runs out.
    ensures given { (body : FlatBody) → IsFlatText bytes.now body →
        MatchResult result (λ flat. flat_body_of flat ≡ body) (λ answer. answer ≡ FrontAnswer.OutOfMemory) }
    ensures refused { (fault : FrontAnswer) → IsNoFlatText bytes.now fault →
        IsErrAnd result (λ answer. (answer ≡ FrontAnswer.OutOfMemory) ⊎ (answer ≡ fault)) }
{
    trees_of_texts();
    size_of_flat_bodies();
    names_of_flat_bodies();
    flat_of(alloc, bytes)
}

/// The flat body or the first refusal.
fn flat_of(alloc: Global, bytes: &[u8]) -> Result<Flat, FrontAnswer>
    requires short { length bytes.now ≤ PROGRAM_BYTES }
    ensures flat { IfOk result (λ flat. IsFlatText bytes.now (flat_body_of flat)) }
    ensures fault { IfErr result (λ answer. (answer ≡ FrontAnswer.OutOfMemory) ⊎ IsNoFlatText bytes.now answer) }
{
    trees_of_texts();
    let program = tree(alloc, bytes)?;
    let typed = typed_of(alloc, program)?;
    match inline(alloc, &typed) {
        Ok(flat) => Ok(flat),
        Err(answer) => Err(FrontAnswer::from(answer)),
    }
}

/// The program with its kinds, or the first rule that it breaks.
fn typed_of(alloc: Global, program: Program) -> Result<Typed, FrontAnswer>
    ensures same { IfOk result (λ typed. typed.program ≡ program) }
    ensures refused { IfErr result (λ answer. (text : List ℕ) → IsText text (program_of program) →
        (answer ≡ FrontAnswer.OutOfMemory) ⊎ IsNoFlatText text answer) }
{
    match check_owned(alloc, program) {
        Ok(typed) => Ok(typed),
        Err((_, answer)) => Err(FrontAnswer::from(answer)),
    }
}

//! Reading the files of a command.

ghost use Rattle.std.specs.Prelude.{◌≡◌, ◌≤◌, Some, IfSome, IfOk, IfErr, vec_len};
ghost use Rattle.sig_outcome.specs.Outcomes.{long_file, long_program};
ghost use Rattle.sig_outcome.specs.Reading.{Reads};
ghost use Rattle.sig_outcome.specs.Refusals.{AtNoBytes, HasCount, IsAboutData, IsAboutProgram, IsOwn, outcome_of};

use crate::refusal::Refusal;
use sig_base::limits::{FLOW_BYTES, PROGRAM_BYTES};
use sig_text::{Files, ReadAnswer, read_all};
use std::alloc::Global;

/// The bytes of the program file of this name.
pub fn read_program<'a, F: Files>(
    alloc: Global,
    files: &mut F,
    name: &'a str,
) -> Result<Vec<u8>, Refusal<'a>>
    ensures bytes { IfSome (F.contents files.old) (λ held. IfOk result (λ bytes. held name.now ≡ Some bytes.items)) }
    ensures within { IfOk result (λ bytes. vec_len bytes ≤ PROGRAM_BYTES) }
    ensures refused { IfSome (F.contents files.old) (λ held. IfErr result (λ refusal.
        IsOwn refusal (F.faults files.old) (F.faults files.new) →
        AtNoBytes PROGRAM_BYTES 1 long_program held name.now (outcome_of refusal (Some name.now)))) }
    ensures about { IfErr result (IsAboutProgram name.now (λ _. ⊥) (λ _. ⊥)) }
    ensures counted { IfErr result (HasCount (F.contents files.old) (F.at files.new)
        (F.misses files.old) (F.misses files.new) (F.faults files.old) (F.faults files.new)) }
    ensures read { Reads (F.contents files.old) (F.contents files.new) (F.at files.new)
        (F.misses files.old) (F.misses files.new) (F.faults files.old) (F.faults files.new) name.now }
{
    match read_all(alloc, files, name, PROGRAM_BYTES) {
        Ok(bytes) => Ok(bytes),
        Err(ReadAnswer::Missing) => Err(Refusal::Missing(name)),
        Err(ReadAnswer::ReadFault) => Err(Refusal::ReadFault(name)),
        Err(ReadAnswer::TooLong(_)) => Err(Refusal::LongProgram),
        Err(ReadAnswer::OutOfMemory) => Err(Refusal::OutOfMemory),
    }
}

/// The bytes of the flow file, trace file or image file of this name.
pub fn read_data<'a, F: Files>(
    alloc: Global,
    files: &mut F,
    name: &'a str,
) -> Result<Vec<u8>, Refusal<'a>>
    ensures bytes { IfSome (F.contents files.old) (λ held. IfOk result (λ bytes. held name.now ≡ Some bytes.items)) }
    ensures within { IfOk result (λ bytes. vec_len bytes ≤ FLOW_BYTES) }
    ensures refused { IfSome (F.contents files.old) (λ held. IfErr result (λ refusal.
        IsOwn refusal (F.faults files.old) (F.faults files.new) →
        AtNoBytes FLOW_BYTES 4 (long_file name.now) held name.now (outcome_of refusal (Some name.now)))) }
    ensures about { IfErr result (IsAboutData name.now (λ _. ⊥)) }
    ensures counted { IfErr result (HasCount (F.contents files.old) (F.at files.new)
        (F.misses files.old) (F.misses files.new) (F.faults files.old) (F.faults files.new)) }
    ensures read { Reads (F.contents files.old) (F.contents files.new) (F.at files.new)
        (F.misses files.old) (F.misses files.new) (F.faults files.old) (F.faults files.new) name.now }
{
    match read_all(alloc, files, name, FLOW_BYTES) {
        Ok(bytes) => Ok(bytes),
        Err(ReadAnswer::Missing) => Err(Refusal::Missing(name)),
        Err(ReadAnswer::ReadFault) => Err(Refusal::ReadFault(name)),
        Err(ReadAnswer::TooLong(_)) => Err(Refusal::LongFile(name)),
        Err(ReadAnswer::OutOfMemory) => Err(Refusal::OutOfMemory),
    }
}

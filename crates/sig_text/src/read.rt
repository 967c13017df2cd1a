//! Reading a whole file.

ghost use Rattle.std.specs.Prelude.{◌≡◌, ◌≢◌, ◌↔◌, ◌+◌, ◌≤◌, ◌<◌, ◌++◌, [], IfSome, IfOk, OnOk, length, vec_len};
ghost use Rattle.sig_text.specs.Counts.{Rose, DidNotRise};
ghost use Rattle.sig_text.specs.Files.{name_where_there};
ghost use Rattle.sig_text.specs.Read.{IsLongerThan, OnMissingFile, OnReadFault, IfTooLong};
ghost use Rattle.sig_text.specs.declared.read.ReadAnswer.TheVariants.{OutOfMemory};

use super::files::{Begun, Files, ReadStep};
use std::alloc::{AllocError, Global};
use thiserror::Error;

/// The refusals of [`read_all`].
#[derive(Clone, Copy, Debug, PartialEq, Eq, Error)]
pub enum ReadAnswer {
    /// The name is not there.
    #[error("not found")]
    Missing,
    /// The file cannot be read, or could not be read to its end.
    #[error("read failed")]
    ReadFault,
    /// The file has more than so many bytes.
    #[error("more than {0} bytes")]
    TooLong(usize),
    /// Memory was wanting.
    #[error("out of memory")]
    OutOfMemory,
}

impl From<AllocError> for ReadAnswer {
    ghost from_gives = { λ _ answer. answer ≡ OutOfMemory };

    fn from(_error: AllocError) -> ReadAnswer {
        ReadAnswer::OutOfMemory
    }
}

/// How many bytes one read asks for.
const PIECE: usize = 65_536;

/// The bytes of the file of this name, which may have up to `limit` bytes.
///
/// `Missing` comes only where a name was found missing in this call and `ReadFault` only where a
/// call of `files` failed in it. Where the contents are told and none failed, `Missing` comes exactly
/// where the name is not there, and, if memory is found, `TooLong` exactly where the file has more
/// than `limit` bytes.
pub fn read_all<F: Files>(
    alloc: Global,
    files: &mut F,
    name: &str,
    limit: usize,
) -> Result<Vec<u8>, ReadAnswer>
    ensures bytes { IfSome (F.contents files.old) (λ held. IfOk result (λ bytes. held name.now ≡ Some bytes.items)) }
    ensures within { IfOk result (λ bytes. vec_len bytes ≤ limit) }

    ensures missing { OnMissingFile result (Rose (F.misses files.old) (F.misses files.new)) }
    ensures missing_exactly { IfSome (F.contents files.old) (λ held. DidNotRise (F.faults files.old) (F.faults files.new) →
        ((result ≡ Err ReadAnswer.Missing) ↔ (held name.now ≡ None))) }
    ensures fault { OnReadFault result (Rose (F.faults files.old) (F.faults files.new)) }
    ensures limited { IfTooLong result (λ most. most ≡ limit) }
    ensures too_long { IfSome (F.contents files.old) (λ held. IfTooLong result (λ _. IsLongerThan (held name.now) limit)) }
    ensures too_long_exactly { IfSome (F.contents files.old) (λ held. DidNotRise (F.faults files.old) (F.faults files.new) →
        result ≢ Err ReadAnswer.OutOfMemory →
        ((result ≡ Err (ReadAnswer.TooLong limit)) ↔ IsLongerThan (held name.now) limit)) }

    ensures named { IfSome (F.at files.new) (λ told. told ≡ name.now) }
    ensures told { IfSome (F.contents files.old) (λ held. F.at files.new ≡ name_where_there held name.now) }

    ensures contents_stay { F.contents files.new ≡ F.contents files.old }
    ensures faults_stay { F.faults files.old ≤ F.faults files.new }
    ensures misses_stay { F.misses files.old ≤ F.misses files.new }
{
    match files.begin(name) {
        Begun::Ready => read_rest(alloc, files, limit),
        Begun::Missing => Err(ReadAnswer::Missing),
        Begun::Failed => Err(ReadAnswer::ReadFault),
    }
}

// All that is left of the file that was begun.
fn read_rest<F: Files>(alloc: Global, files: &mut F, limit: usize) -> Result<Vec<u8>, ReadAnswer>
    ensures bytes { IfSome (F.rest files.old) (λ rest. IfOk result (λ bytes. rest ≡ bytes.items)) }
    ensures within { IfOk result (λ bytes. vec_len bytes ≤ limit) }

    ensures there { result ≢ Err ReadAnswer.Missing }
    ensures fault { OnReadFault result (Rose (F.faults files.old) (F.faults files.new)) }
    ensures limited { IfTooLong result (λ most. most ≡ limit) }
    ensures too_long { IfSome (F.rest files.old) (λ rest. IfTooLong result (λ _. limit < length rest)) }

    ensures at_stays { F.at files.new ≡ F.at files.old }
    ensures contents_stay { F.contents files.new ≡ F.contents files.old }
    ensures faults_stay { F.faults files.old ≤ F.faults files.new }
    ensures misses_stay { F.misses files.old ≤ F.misses files.new }
{
    let mut piece = vec![in alloc; 0u8; PIECE]?;
    read_through(files, &mut piece, Vec::new(alloc), limit)
}

// All that is left of the file that was begun, read by way of the piece.
fn read_through<F: Files>(
    files: &mut F,
    piece: &mut [u8],
    mut bytes: Vec<u8>,
    limit: usize,
) -> Result<Vec<u8>, ReadAnswer>
    requires room { 0 < length piece.old }
    requires empty { bytes.items ≡ [] }
    ensures bytes { IfSome (F.rest files.old) (λ rest. IfOk result (λ bytes. rest ≡ bytes.items)) }
    ensures within { IfOk result (λ bytes. vec_len bytes ≤ limit) }

    ensures there { result ≢ Err ReadAnswer.Missing }
    ensures fault { OnReadFault result (Rose (F.faults files.old) (F.faults files.new)) }
    ensures limited { IfTooLong result (λ most. most ≡ limit) }
    ensures too_long { IfSome (F.rest files.old) (λ rest. IfTooLong result (λ _. limit < length rest)) }

    ensures at_stays { F.at files.new ≡ F.at files.old }
    ensures contents_stay { F.contents files.new ≡ F.contents files.old }
    ensures faults_stay { F.faults files.old ≤ F.faults files.new }
    ensures misses_stay { F.misses files.old ≤ F.misses files.new }
{
    loop {
        match files.read(piece) {
            ReadStep::Failed => return Err(ReadAnswer::ReadFault),
            ReadStep::Got(0) => return Ok(bytes),
            ReadStep::Got(n) => {
                if n > limit - bytes.len() {
                    return Err(ReadAnswer::TooLong(limit));
                }
                bytes.extend_from_slice(&piece[..n])?;
            }
        }
    }
}

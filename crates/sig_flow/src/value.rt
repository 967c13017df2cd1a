//! Words of values.

ghost use Rattle.std.specs.Prelude.{◌≡◌, ◌≤◌, pos, neg_ℤ, if◌then◌else◌};
ghost use Rattle.sig_flow.specs.Digits.{is_digits};
ghost use Rattle.sig_flow.specs.Values.{boolean_said, event_said, integer_said, repeated, run_said, star_said, starred, times_said, value_said};
ghost use Rattle.sig_flow.specs.declared.value.WordFault.TheVariants.{Bad, Outside};

use crate::digits::{GREATEST_MAGNITUDE, is_digits, magnitude, short_number};
use crate::version::Version;
use memchr::memchr;
use sig_base::Kind;
use sig_base::limits::VALUES;

/// What a word stands for: a value, so many times.
#[derive(Clone, Copy, Debug, PartialEq, Eq)]
pub struct Run {
    pub value: i64,
    pub times: u32,
}

/// Why a word is no value: it has not the form of one, or its integer is outside 64 bits.
#[derive(Clone, Copy, Debug, PartialEq, Eq)]
pub enum WordFault {
    Bad,
    Outside,
}

/// What a word stands for, in a file of this version and for an input of this kind.
#[inline(always)]
pub fn run_of(word: &[u8], version: Version, kind: Kind) -> Result<Run, WordFault>
    ensures { result ≡ run_said version kind word.now }
{
    match version {
        Version::One => repeated(value_of(word, kind), 1),
        Version::Two => run_with_star(word, kind),
    }
}

/// What a word stands for that may have a star.
#[inline(never)]
fn run_with_star(word: &[u8], kind: Kind) -> Result<Run, WordFault>
    ensures { result ≡ star_said kind word.now }
{
    match memchr(b'*', word) {
        Some(star) => {
            let (_, digits) = word.split_at(star + 1);
            starred(&word[..star], digits, kind)
        }
        None => repeated(value_of(word, kind), 1),
    }
}

/// A value, so many times.
#[inline(always)]
fn repeated(value: Result<i64, WordFault>, times: u32) -> Result<Run, WordFault>
    ensures { result ≡ repeated times value }
{
    match value {
        Ok(value) => Ok(Run { value, times }),
        Err(fault) => Err(fault),
    }
}

/// What a value and the digits behind its star stand for.
fn starred(value: &[u8], digits: &[u8], kind: Kind) -> Result<Run, WordFault>
    ensures { result ≡ starred (times_said digits.now) (value_said kind value.now) }
{
    match times_of(digits) {
        Some(times) => repeated(value_of(value, kind), times),
        None => Err(WordFault::Bad),
    }
}

/// How often a value stands.
fn times_of(digits: &[u8]) -> Option<u32>
    ensures { result ≡ times_said digits.now }
{
    match short_number(digits) {
        Some(times) if 1 <= times && times as usize <= VALUES => Some(times),
        _ => None,
    }
}

/// The value of a word of an input of this kind.
#[inline(always)]
pub fn value_of(word: &[u8], kind: Kind) -> Result<i64, WordFault>
    ensures { result ≡ value_said kind word.now }
{
    match kind {
        Kind::Integer => integer_of(word),
        Kind::Boolean => boolean_of(word),
        Kind::Event => event_of(word),
    }
}

fn boolean_of(word: &[u8]) -> Result<i64, WordFault>
    ensures { result ≡ boolean_said word.now }
{
    match word {
        b"true" => Ok(1),
        b"false" => Ok(0),
        _ => Err(WordFault::Bad),
    }
}

fn event_of(word: &[u8]) -> Result<i64, WordFault>
    ensures { result ≡ event_said word.now }
{
    match word {
        b"true" => Ok(1),
        _ => Err(WordFault::Bad),
    }
}

#[inline(always)]
fn integer_of(word: &[u8]) -> Result<i64, WordFault>
    ensures { result ≡ integer_said word.now }
{
    match word.split_first() {
        Some((b'-', digits)) => match magnitude(digits) {
            Some(magnitude) => Ok(negative(magnitude)),
            None => Err(fault_of(digits)),
        },
        _ => match magnitude(word) {
            Some(magnitude) if magnitude < GREATEST_MAGNITUDE => Ok(magnitude as i64),
            _ => Err(fault_of(word)),
        },
    }
}

/// The integer below 0 with this magnitude.
#[inline(always)]
fn negative(magnitude: u64) -> i64
    requires { magnitude ≤ GREATEST_MAGNITUDE }
    ensures { result ≡ neg_ℤ (pos magnitude) }
{
    if magnitude == GREATEST_MAGNITUDE {
        i64::MIN
    } else {
        -(magnitude as i64)
    }
}

/// What is wrong with digits that write no integer of 64 bits.
#[cold]
fn fault_of(digits: &[u8]) -> WordFault
    ensures { result ≡ (if is_digits digits.now then Outside else Bad) }
{
    if is_digits(digits) {
        WordFault::Outside
    } else {
        WordFault::Bad
    }
}

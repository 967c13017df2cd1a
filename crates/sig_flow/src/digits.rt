//! Runs of decimal digits.

ghost use Rattle.std.specs.Prelude.{◌≡◌, ◌<◌, ◌≤◌};
ghost use Rattle.sig_flow.specs.Prelude.{IsTrue, MatchOption, is_ascii_digit, list_all, digits_value};
ghost use Rattle.sig_flow.specs.Digits.{is_digits, short_number};

/// The magnitude of the least integer of 64 bits.
pub const GREATEST_MAGNITUDE: u64 = 9_223_372_036_854_775_808;

/// The number that digits write, where it is at most the greatest magnitude.
#[inline(always)]
pub fn magnitude(digits: &[u8]) -> Option<u64>
    ensures { MatchOption result
        (IsTrue (is_digits digits.now) → GREATEST_MAGNITUDE < digits_value 10 digits.now)
        (λ m. IsTrue (is_digits digits.now) × (m ≡ digits_value 10 digits.now) × (m ≤ GREATEST_MAGNITUDE)) }
{
    if digits.is_empty() {
        return None;
    }
    let mut value: u64 = 0;
    for digit in digits {
        if !digit.is_ascii_digit() {
            return None;
        }
        if value > GREATEST_MAGNITUDE / 10 {
            return None;
        }
        value = value * 10 + u64::from(*digit - b'0');
    }
    if value > GREATEST_MAGNITUDE {
        None
    } else {
        Some(value)
    }
}

/// Whether there is a byte, and all are digits.
pub fn is_digits(bytes: &[u8]) -> bool
    ensures { result ≡ is_digits bytes.now }
{
    !bytes.is_empty() && are_digits(bytes)
}

fn are_digits(bytes: &[u8]) -> bool
    ensures { result ≡ list_all is_ascii_digit bytes.now }
{
    bytes.iter().all(|byte| byte.is_ascii_digit())
}

/// The number that 1 to 9 digits write.
pub fn short_number(digits: &[u8]) -> Option<u32>
    ensures { result ≡ short_number digits.now }
{
    if digits.len() > 9 {
        return None;
    }
    match magnitude(digits) {
        Some(value) => Some(value as u32),
        None => None,
    }
}

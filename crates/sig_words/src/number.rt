//! Numbers on a command line.

ghost use Rattle.std.specs.Prelude.{◌≡◌, ◌≤◌, ◌^◌, ℕ, MatchOption};
ghost use Rattle.std.specs.List.{list_all};
ghost use Rattle.std.specs.Char.{is_ascii_digit};
ghost use Rattle.sig_words.specs.inner.Numbers.{IsNumber};

/// The most digits of a number.
const DIGITS: usize = 20;

/// Whether all bytes are decimal digits.
fn is_digits(bytes: &[u8]) -> bool
    ensures { result ≡ list_all is_ascii_digit bytes.now }
{
    bytes.iter().all(|byte| byte.is_ascii_digit())
}

/// The number that a word writes: 1 to 20 decimal digits and nothing else.
pub fn number(word: &str) -> Option<u64>
    ensures { MatchOption result ((n : ℕ) → IsNumber word.now n → 2 ^ 64 ≤ n) (IsNumber word.now) }
{
    if word.len() > DIGITS {
        return None;
    }
    if !is_digits(word.as_bytes()) {
        return None;
    }
    word.parse().ok()
}

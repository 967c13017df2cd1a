//! Words of a line.

ghost use Rattle.std.specs.Prelude.{◌≡◌, ◌<◌, ◌≤◌, ◌+◌, ◌^◌, ◌∷◌, [], ◌==◌, ◌||◌, ℕ, true, false, length, slice_index, take, IfSome, IfNone};
ghost use Rattle.sig_flow.specs.Digits.{IsShortNumber};
ghost use Rattle.sig_flow.specs.NextWords.{word_of, words_behind};
ghost use Rattle.sig_flow.specs.Values.{truth_word};
ghost use Rattle.sig_flow.specs.Words.{is_blank, words_from};

/// Every short number is below this.
const SHORT: u64 = 1_000_000_000_000_000_000;

/// A word of a line, the column at which it begins, and the bytes behind it.
#[derive(Clone, Copy)]
pub struct Next<'a> {
    pub col: usize,
    pub word: &'a [u8],
    pub rest: &'a [u8],
}

/// The first word of a line whose first byte stands at this column.
#[inline(always)]
pub fn next_word(line: &[u8], col: usize) -> Option<Next>
    requires { col + length line.now < 2 ^ 64 }
    ensures none { IfNone result (words_from col line.now ≡ []) }
    ensures word { IfSome result (λ next. words_from col line.now ≡ word_of next ∷ words_behind next) }
    ensures shorter { IfSome result (λ next. length next.rest.now < length line.now) }
    ensures within { IfSome result (λ next. next.col + length next.word.now + length next.rest.now ≤ col + length line.now) }
{
    let start = blanks_in_front(line);
    if start == line.len() {
        return None;
    }
    let (_, from_word) = line.split_at(start);
    let (word, rest) = from_word.split_at(word_length(from_word));
    Some(Next {
        col: col + start,
        word,
        rest,
    })
}

/// The first word of a line whose first byte stands at this column, and its number, where it is a
/// short one. The word is looked at once.
#[inline(always)]
pub fn next_number(line: &[u8], col: usize) -> Option<(Next, u64)>
    requires { col + length line.now < 2 ^ 64 }
    ensures word { IfSome result (λ p. words_from col line.now ≡ word_of p.0 ∷ words_behind p.0) }
    ensures number { IfSome result (λ p. IsShortNumber p.0.word.now p.1) }
    ensures shorter { IfSome result (λ p. length p.0.rest.now < length line.now) }
    ensures within { IfSome result (λ p. p.0.col + length p.0.word.now + length p.0.rest.now ≤ col + length line.now) }
{
    let start = blanks_in_front(line);
    let (_, from_word) = line.split_at(start);
    match short_number_in(from_word) {
        Some(number) => {
            let (word, rest) = from_word.split_at(number.length);
            let next = Next {
                col: col + start,
                word,
                rest,
            };
            Some((next, number.value))
        }
        None => None,
    }
}

/// The first word of a line whose first byte stands at this column, and its truth, where it is one.
/// The word is looked at once.
#[inline(always)]
pub(crate) fn next_truth(line: &[u8], col: usize) -> Option<(Next, bool)>
    requires { col + length line.now < 2 ^ 64 }
    ensures word { IfSome result (λ p. words_from col line.now ≡ word_of p.0 ∷ words_behind p.0) }
    ensures truth { IfSome result (λ p. p.0.word.now ≡ truth_word p.1) }
    ensures shorter { IfSome result (λ p. length p.0.rest.now < length line.now) }
    ensures within { IfSome result (λ p. p.0.col + length p.0.word.now + length p.0.rest.now ≤ col + length line.now) }
{
    let start = blanks_in_front(line);
    let (_, from_word) = line.split_at(start);
    let truth = truth_in(from_word)?;
    let (word, rest) = from_word.split_at(truth_length(truth));
    if is_inside_word(rest) {
        return None;
    }
    let next = Next {
        col: col + start,
        word,
        rest,
    };
    Some((next, truth))
}

/// The truth at the front of a line.
#[inline(always)]
fn truth_in(line: &[u8]) -> Option<bool>
    ensures within { IfSome result (λ truth. length (truth_word truth) ≤ length line.now) }
    ensures word { IfSome result (λ truth. take (length (truth_word truth)) line.now ≡ truth_word truth) }
{
    match line {
        [b't', b'r', b'u', b'e', ..] => Some(true),
        [b'f', b'a', b'l', b's', b'e', ..] => Some(false),
        _ => None,
    }
}

/// The length of the word of a truth.
#[inline(always)]
fn truth_length(truth: bool) -> usize
    ensures { result ≡ length (truth_word truth) }
{
    if truth { 4 } else { 5 }
}

/// Whether a word goes on at the front of a line.
#[inline(always)]
fn is_inside_word(line: &[u8]) -> bool
    ensures { result ≡ false → 0 < length line.now → is_blank (slice_index line.now 0) ≡ true }
{
    match line {
        [byte, ..] => !is_blank(*byte),
        [] => false,
    }
}

/// A number by its length and its value.
#[derive(Clone, Copy)]
struct Number {
    length: usize,
    value: u64,
}

/// The word at the front of a line, where it is a short number.
#[inline(always)]
fn short_number_in(line: &[u8]) -> Option<Number>
    ensures some { IfSome result (λ n. 0 < n.length) }
    ensures within { IfSome result (λ n. n.length ≤ length line.now) }
    ensures word { IfSome result (λ n. (k : ℕ) → k < n.length → is_blank (slice_index line.now k) ≡ false) }
    ensures stop { IfSome result (λ n. n.length < length line.now → is_blank (slice_index line.now n.length) ≡ true) }
    ensures number { IfSome result (λ n. IsShortNumber (take n.length line.now) n.value) }
{
    let mut value: u64 = 0;
    for (i, byte) in line.iter().enumerate() {
        if !byte.is_ascii_digit() {
            if i == 0 || !is_blank(*byte) {
                return None;
            }
            return Some(Number { length: i, value });
        }
        if value >= SHORT / 10 {
            return None;
        }
        value = value * 10 + u64::from(*byte - b'0');
    }
    if line.is_empty() {
        return None;
    }
    Some(Number {
        length: line.len(),
        value,
    })
}

/// The number of blanks at the front.
#[inline(always)]
fn blanks_in_front(line: &[u8]) -> usize
    ensures within { result ≤ length line.now }
    ensures blank { (k : ℕ) → k < result → is_blank (slice_index line.now k) ≡ true }
    ensures stop { result < length line.now → is_blank (slice_index line.now result) ≡ false }
{
    for (i, byte) in line.iter().enumerate() {
        if !is_blank(*byte) {
            return i;
        }
    }
    line.len()
}

/// The number of bytes before the first blank.
#[inline(always)]
fn word_length(line: &[u8]) -> usize
    ensures within { result ≤ length line.now }
    ensures word { (k : ℕ) → k < result → is_blank (slice_index line.now k) ≡ false }
    ensures stop { result < length line.now → is_blank (slice_index line.now result) ≡ true }
{
    for (i, byte) in line.iter().enumerate() {
        if is_blank(*byte) {
            return i;
        }
    }
    line.len()
}

/// Whether a byte is a space or a tab.
#[inline(always)]
fn is_blank(byte: u8) -> bool
    ensures { result ≡ is_blank byte }
{
    byte == b' ' || byte == b'\t'
}

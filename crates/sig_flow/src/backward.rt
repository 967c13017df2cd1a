//! Writing from the end of some bytes to their front.

ghost use Rattle.std.specs.Prelude.{◌≡◌, ◌≤◌, ◌+◌, ◌++◌};
ghost use Rattle.sig_flow.specs.Prelude.{length, take, drop, signed_decimal, line_of, truth_text, value_text};

use itoa::write_digits;
use sig_base::Kind;

/// Writes the line of a value so that it ends at `end`, and returns where it starts.
#[inline(always)]
pub(crate) fn line_before(bytes: &mut [u8], end: usize, name: &[u8], kind: Kind, item: i64) -> usize
    requires room { length name.now + 22 ≤ end }
    requires within { end ≤ length bytes.old }
    ensures start { result + length (line_of name.now kind item) ≡ end }
    ensures written { drop result bytes.new ≡ line_of name.now kind item ++ drop end bytes.old }
    ensures short { length (line_of name.now kind item) ≤ length name.now + 22 }
{
    let newline = end - 1;
    bytes[newline] = b'\n';
    let value = value_before(bytes, newline, kind, item);
    let blank = value - 1;
    bytes[blank] = b' ';
    word_before(bytes, blank, name)
}

/// Writes the text of a value so that it ends at `end`, and returns where it starts.
#[inline(always)]
fn value_before(bytes: &mut [u8], end: usize, kind: Kind, item: i64) -> usize
    requires room { 20 ≤ end }
    requires within { end ≤ length bytes.old }
    ensures start { result + length (value_text kind item) ≡ end }
    ensures written { drop result bytes.new ≡ value_text kind item ++ drop end bytes.old }
    ensures short { length (value_text kind item) ≤ 20 }
{
    match kind {
        Kind::Integer => integer_before(bytes, end, item),
        Kind::Boolean | Kind::Event => truth_before(bytes, end, item),
    }
}

/// Writes a truth so that it ends at `end`, and returns where it starts. Each word is copied where its
/// length is known.
#[inline(always)]
fn truth_before(bytes: &mut [u8], end: usize, item: i64) -> usize
    requires room { 5 ≤ end }
    requires within { end ≤ length bytes.old }
    ensures start { result + length (truth_text item) ≡ end }
    ensures written { drop result bytes.new ≡ truth_text item ++ drop end bytes.old }
{
    if item == 0 {
        word_before(bytes, end, b"false")
    } else {
        word_before(bytes, end, b"true")
    }
}

/// Writes an integer in decimal so that it ends at `end`, and returns where it starts.
#[inline(always)]
fn integer_before(bytes: &mut [u8], end: usize, item: i64) -> usize
    requires room { 20 ≤ end }
    requires within { end ≤ length bytes.old }
    ensures start { result + length (signed_decimal item) ≡ end }
    ensures written { drop result bytes.new ≡ signed_decimal item ++ drop end bytes.old }
    ensures short { length (signed_decimal item) ≤ 20 }
{
    let start = write_digits(item.unsigned_abs(), bytes, end);
    if item >= 0 {
        return start;
    }
    bytes[start - 1] = b'-';
    start - 1
}

/// Writes a word so that it ends at `end`, and returns where it starts.
#[inline(always)]
fn word_before(bytes: &mut [u8], end: usize, word: &[u8]) -> usize
    requires room { length word.now ≤ end }
    requires within { end ≤ length bytes.old }
    ensures start { result + length word.now ≡ end }
    ensures written { drop result bytes.new ≡ word.now ++ drop end bytes.old }
{
    let start = end - word.len();
    bytes[start..end].copy_from_slice(word);
    start
}

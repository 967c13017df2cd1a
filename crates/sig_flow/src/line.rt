//! Lines of a file.

ghost use Rattle.std.specs.Prelude.{◌≡◌, ◌<◌, ◌∷◌};
ghost use Rattle.sig_flow.specs.Prelude.{length, lines, strip_carriage_return};

use memchr::memchr;

/// The first line of some bytes, and the bytes behind it.
pub fn next_line(bytes: &[u8]) -> (&[u8], &[u8])
    requires { 0 < length bytes.now }
    ensures lines { lines bytes.now ≡ result.0.now ∷ lines result.1.now }
    ensures shorter { length result.1.now < length bytes.now }
{
    match memchr(b'\n', bytes) {
        Some(end) => {
            let (_, after) = bytes.split_at(end + 1);
            (without_return(&bytes[..end]), after)
        }
        None => (bytes, &[]),
    }
}

/// A line without the carriage return before its newline.
fn without_return(line: &[u8]) -> &[u8]
    ensures { result.now ≡ strip_carriage_return line.now }
{
    match line.split_last() {
        Some((b'\r', front)) => front,
        _ => line,
    }
}

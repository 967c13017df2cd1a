//! Places: the line and the column of a byte of a text.

ghost use Rattle.std.specs.Prelude.{◌≡◌, ◌≤◌};
ghost use Rattle.sig_lex.specs.Prelude.{length, take, PROGRAM_BYTES};
ghost use Rattle.sig_lex.specs.inner.Places.{place_after};

use sig_base::Span;

/// The place of the byte `stop` of a text, where `at` is the place of the byte `start`.
pub fn advanced(bytes: &[u8], start: usize, stop: usize, at: Span) -> Span
    requires small { length bytes.now ≤ PROGRAM_BYTES }
    requires order { start ≤ stop }
    requires within { stop ≤ length bytes.now }
    requires here { at ≡ place_after (take start bytes.now) }
    ensures { result ≡ place_after (take stop bytes.now) }
{
    let Span { mut line, mut col } = at;
    for byte in &bytes[start..stop] {
        if *byte == b'\n' {
            line += 1;
            col = 1;
        } else {
            col += 1;
        }
    }
    Span { line, col }
}

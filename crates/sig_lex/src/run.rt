//! Runs: how many bytes at the front of a text are of one kind.

ghost use Rattle.std.specs.Prelude.{◌≡◌, ◌≤◌};
ghost use Rattle.sig_lex.specs.Prelude.{length, prefix_len, is_ascii_digit};
ghost use Rattle.sig_lex.specs.Bytes.{is_name_byte, is_label_byte};

/// Bytes with which a name goes on: letters, digits and `_`.
pub fn name_run(bytes: &[u8]) -> usize
    ensures run { result ≡ prefix_len is_name_byte bytes.now }
    ensures within { result ≤ length bytes.now }
{
    bytes.iter().take_while(|b| is_name_byte(**b)).count()
}

/// Digits.
pub fn digit_run(bytes: &[u8]) -> usize
    ensures run { result ≡ prefix_len is_ascii_digit bytes.now }
    ensures within { result ≤ length bytes.now }
{
    bytes.iter().take_while(|b| b.is_ascii_digit()).count()
}

/// Bytes that a label may hold: the printable ones without `"`.
pub fn label_run(bytes: &[u8]) -> usize
    ensures run { result ≡ prefix_len is_label_byte bytes.now }
    ensures within { result ≤ length bytes.now }
{
    bytes.iter().take_while(|b| is_label_byte(**b)).count()
}

fn is_name_byte(byte: u8) -> bool
    ensures { result ≡ is_name_byte byte }
{
    byte.is_ascii_alphanumeric() || byte == b'_'
}

fn is_label_byte(byte: u8) -> bool
    ensures { result ≡ is_label_byte byte }
{
    matches!(byte, b' '..=b'~') && byte != b'"'
}

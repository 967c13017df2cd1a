//! Names of inputs.

ghost use Rattle.std.specs.Prelude.{◌≡◌, ◌↔◌};
ghost use Rattle.sig_flow.specs.Prelude.{IfSome, IfNone, IsTrue, None, list_all};
ghost use Rattle.sig_flow.specs.Flows.{is_line_byte, is_name, is_name_byte, kind_named};
ghost use Rattle.sig_flow.specs.Inputs.{IsInput};

use sig_base::Signal;

/// The first input of this name, by its index.
pub fn input_named(inputs: &[Signal], name: &[u8]) -> Option<usize>
    ensures found { IfSome result (λ i. IsInput inputs.now name.now i) }
    ensures absent { IfNone result (kind_named inputs.now name.now ≡ None) }
{
    for (i, input) in inputs.iter().enumerate() {
        if has_name(input, name) {
            return Some(i);
        }
    }
    None
}

fn has_name(input: &Signal, name: &[u8]) -> bool
    ensures { IsTrue result ↔ (input.now.name ≡ name.now) }
{
    input.name.as_bytes() == name
}

/// Whether a name has its form: a letter, then letters, digits and `_`.
pub fn is_name(word: &[u8]) -> bool
    ensures { result ≡ is_name word.now }
{
    match word.split_first() {
        Some((first, others)) => first.is_ascii_alphabetic() && are_name_bytes(others),
        None => false,
    }
}

fn are_name_bytes(bytes: &[u8]) -> bool
    ensures { result ≡ list_all is_name_byte bytes.now }
{
    bytes.iter().all(|b| is_name_byte(*b))
}

fn is_name_byte(byte: u8) -> bool
    ensures { result ≡ is_name_byte byte }
{
    byte.is_ascii_alphanumeric() || byte == b'_'
}

/// Whether a line holds tabs and printable ASCII alone. It looks at each byte, so that a compiler can
/// look at many at once.
pub fn is_clean(line: &[u8]) -> bool
    ensures { result ≡ list_all is_line_byte line.now }
{
    let mut clean = true;
    for byte in line {
        clean = clean & is_line_byte(*byte);
    }
    clean
}

fn is_line_byte(byte: u8) -> bool
    ensures { result ≡ is_line_byte byte }
{
    byte == b'\t' || matches!(byte, b' '..=b'~')
}

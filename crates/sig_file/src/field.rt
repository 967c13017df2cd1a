//! Single fields.

ghost use Rattle.std.specs.Prelude.{◌≡◌};
ghost use Rattle.sig_file.specs.Prelude.{w32};
ghost use Rattle.sig_file.specs.inner.Reading.{Gives, choice_at, long_at, text_at, word_at};

use crate::stop::Stop;

/// A number of four bytes, and the bytes behind it.
pub fn number_at(bytes: &[u8]) -> Result<(u32, &[u8]), Stop>
    ensures { Gives (λ x. (x.0, x.1.now)) result (word_at w32 bytes.now) }
{
    if bytes.len() < 4 {
        return Err(Stop::Broken(bytes.len()));
    }
    let (front, rest) = bytes.split_at(4);
    let number = u32::from_be_bytes([front[0], front[1], front[2], front[3]]);
    Ok((number, rest))
}

/// A number of eight bytes with its sign, and the bytes behind it.
pub fn long_at(bytes: &[u8]) -> Result<(i64, &[u8]), Stop>
    ensures { Gives (λ x. (x.0, x.1.now)) result (long_at bytes.now) }
{
    if bytes.len() < 8 {
        return Err(Stop::Broken(bytes.len()));
    }
    let (front, rest) = bytes.split_at(8);
    let number = i64::from_be_bytes([
        front[0], front[1], front[2], front[3], front[4], front[5], front[6], front[7],
    ]);
    Ok((number, rest))
}

/// So many bytes, and the bytes behind them.
pub fn text_at(count: usize, bytes: &[u8]) -> Result<(&[u8], &[u8]), Stop>
    ensures { Gives (λ x. (x.0.now, x.1.now)) result (text_at count bytes.now) }
{
    if bytes.len() < count {
        return Err(Stop::Broken(bytes.len()));
    }
    Ok(bytes.split_at(count))
}

/// A byte that is the place of one of these, and the bytes behind it.
pub fn choice_at<'a, T: Copy>(choices: &[T], bytes: &'a [u8]) -> Result<(T, &'a [u8]), Stop>
    ensures { Gives (λ x. (x.0, x.1.now)) result (choice_at choices.now bytes.now) }
{
    let [byte, rest @ ..] = bytes else {
        return Err(Stop::Broken(0));
    };
    match choices.get(*byte as usize) {
        Some(choice) => Ok((*choice, rest)),
        None => Err(Stop::Broken(bytes.len())),
    }
}

//! The line on `err` that says what ended the run of an image.

ghost use Rattle.std.specs.Prelude.{◌≡◌, ◌<◌, length};
ghost use Rattle.sig_outcome.specs.Tasks.{SaysLine};
ghost use Rattle.sig_image_command.specs.ExecEnds.{IsOfImage, exec_line, exec_status, name_in};

use itoa::Buffer;
use sig_base::SigId;
use sig_file::{Image, ImageCause, ImageEnd};
use sig_loaded::say_place;
use sig_outcome::say;
use sig_text::Sink;

/// Appends the line that says what ended a run of an image.
pub fn say_end<E: Sink>(err: &mut E, image: &Image, end: ImageEnd)
    requires { IsOfImage image.now end.cause }
    ensures { SaysLine E.took (E.faults err.old) (E.faults err.new) err.old err.new (exec_line image.now end) }
{
    let mut buffer = Buffer::new();
    let count = buffer.format(end.instants).as_bytes();
    match end.cause {
        ImageCause::Exhausted(x) => {
            let name = input_name(image, x);
            say(
                err,
                &[
                    b"end: input ",
                    name,
                    b" exhausted after ",
                    count,
                    b" instants\n",
                ],
            );
        }
        ImageCause::Overflow(at) => say_place(err, b"overflow", at, count),
        ImageCause::ZeroDivisor(at) => say_place(err, b"division by zero", at, count),
        ImageCause::Limit => say(err, &[b"end: limit after ", count, b" instants\n"]),
    }
}

/// The name of an input.
fn input_name(image: &Image, x: SigId) -> &[u8]
    requires { x.0 < length image.now.signals }
    ensures { result.now ≡ name_in image.now x }
{
    image.signals.as_slice()[x.0 as usize].name.as_bytes()
}

/// The status of a run of an image that came to its end.
pub fn end_status(cause: ImageCause) -> u8
    ensures { result ≡ exec_status cause }
{
    match cause {
        ImageCause::Exhausted(_) | ImageCause::Limit => 0,
        ImageCause::Overflow(_) | ImageCause::ZeroDivisor(_) => 3,
    }
}

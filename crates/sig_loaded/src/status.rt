//! The status of a run by what ended it.

ghost use Rattle.std.specs.Prelude.{◌≡◌};
ghost use Rattle.sig_loaded.specs.Ends.{end_status};

use sig_plan::Cause;

/// The status of a run that came to its end.
pub fn end_status(cause: Cause) -> u8
    ensures { result ≡ end_status cause }
{
    match cause {
        Cause::Exhausted(_) | Cause::Limit => 0,
        Cause::Overflow(_) | Cause::ZeroDivisor(_) => 3,
    }
}

//! Why an operation has no value.

ghost use Rattle.std.specs.Prelude.{◌≡◌};
ghost use Rattle.sig_exec.specs.inner.Outcomes.{cause_of};

use sig_base::Span;
use sig_file::ImageCause;
use sig_plan::Cause;

/// Why a run ends at an operation at this place: its input has no further value, its result is outside 64 bits, or its divisor
/// is 0.
pub(crate) fn cause_of(at: Span, cause: Cause) -> ImageCause
    ensures { result ≡ cause_of at cause }
{
    match cause {
        Cause::Exhausted(x) => ImageCause::Exhausted(x),
        Cause::Overflow(_) => ImageCause::Overflow(at),
        Cause::ZeroDivisor(_) => ImageCause::ZeroDivisor(at),
        Cause::Limit => ImageCause::Limit,
    }
}

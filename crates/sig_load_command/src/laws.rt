//! What is so of every load.

ghost use Rattle.std.specs.Prelude.{◌≡◌};
ghost use Rattle.sig_load_command.specs.Prelude.{ℕ, Kernel, program, Settings, Outcome, IsEnded};
ghost use Rattle.sig_load_command.specs.Complete.{CanLoad};
ghost use Rattle.sig_load_command.specs.Loads.{IsShortProgram, LoadComesTo, LoadsTo};

use sig_program::programs_have_a_verdict;

/// A law: a load comes to exactly one outcome; and this is so of a generated program that is accepted.
pub fn loads_have_one_outcome()
    ensures every { (seed stages : ℕ) (settings : Settings) → (o : Outcome) × LoadComesTo seed stages settings o }
    ensures some { (seed stages : ℕ) (settings : Settings) (kernel : Kernel) → IsShortProgram (program stages) kernel
        → (o : Outcome) × LoadComesTo seed stages settings o }
    ensures one { (seed stages : ℕ) (settings : Settings) (o other : Outcome)
        → LoadComesTo seed stages settings o → LoadComesTo seed stages settings other → o ≡ other }
{
    programs_have_a_verdict();
}

/// A law: a generated program that can be run over its flows comes to the end of its load: that, and nothing
/// else, is what it comes to, with the summary of the text of the longest trace, the named cause, and status
/// 0 or 3.
pub fn good_loads_end()
    ensures only { (seed stages : ℕ) (settings : Settings) → (can : CanLoad seed stages settings)
        → (o : Outcome) → LoadComesTo seed stages settings o → LoadsTo stages can.kernel can.values o }
    ensures status { (seed stages : ℕ) (settings : Settings) → CanLoad seed stages settings
        → (o : Outcome) → LoadComesTo seed stages settings o → IsEnded o.status }
    ensures some { (seed stages : ℕ) (settings : Settings) → CanLoad seed stages settings
        → (o : Outcome) × LoadComesTo seed stages settings o }
{}

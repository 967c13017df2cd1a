//! What is so of every run.

ghost use Rattle.std.specs.Prelude.{◌≡◌};
ghost use Rattle.sig_run_command.specs.Prelude.{ℕ, List, PROGRAM_BYTES, Contents, Kernel, Settings, Holds, Outcome, IsEnded, IsAcceptedAs};
ghost use Rattle.sig_loaded.specs.Complete.{CanRun};
ghost use Rattle.sig_loaded.specs.Runs.{RunComesTo, RunsTo};

use sig_program::programs_have_a_verdict;

/// A law: a run over told contents comes to exactly one outcome, whatever its files hold and whether they are
/// there; and this is so of an accepted program.
pub fn runs_have_one_outcome()
    ensures every { (held : Contents) (program flows : List ℕ) (settings : Settings) → (o : Outcome) × RunComesTo held program flows settings o }
    ensures some { (held : Contents) (program flows : List ℕ) (settings : Settings) (kernel : Kernel)
        → Holds (held program) PROGRAM_BYTES (λ bytes. IsAcceptedAs settings.pace bytes kernel)
        → (o : Outcome) × RunComesTo held program flows settings o }
    ensures one { (held : Contents) (program flows : List ℕ) (settings : Settings) (o other : Outcome)
        → RunComesTo held program flows settings o → RunComesTo held program flows settings other → o ≡ other }
{
    programs_have_a_verdict();
}

/// A law: a program that can be run over flows comes to the end of its run: that, and nothing else, is what
/// it comes to, with the text of the longest trace, the named cause, and status 0 or 3.
pub fn good_runs_end()
    ensures only { (held : Contents) (program flows : List ℕ) (settings : Settings)
        → (can : CanRun held program flows settings) → (o : Outcome) → RunComesTo held program flows settings o
        → RunsTo can.kernel can.values settings.instants flows o }
    ensures status { (held : Contents) (program flows : List ℕ) (settings : Settings)
        → CanRun held program flows settings → (o : Outcome) → RunComesTo held program flows settings o
        → IsEnded o.status }
    ensures some { (held : Contents) (program flows : List ℕ) (settings : Settings)
        → CanRun held program flows settings → (o : Outcome) × RunComesTo held program flows settings o }
{}

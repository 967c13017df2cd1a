//! What is so of every judging of a trace.

ghost use Rattle.std.specs.Prelude.{◌≡◌, ℕ, List};
ghost use Rattle.sig_text.specs.Files.{Contents};
ghost use Rattle.sig_outcome.specs.Outcomes.{Outcome};
ghost use Rattle.sig_judge_command.specs.Judging.{JudgeComesTo};

use sig_front::texts_have_a_verdict;
use sig_judge::traces_have_a_verdict;

/// A law: the judging of a trace over told contents comes to exactly one outcome, whatever its files hold and
/// whether they are there.
pub fn judges_have_one_outcome()
    ensures every { (held : Contents) (program traces : List ℕ) → (o : Outcome) × JudgeComesTo held program traces o }
    ensures one { (held : Contents) (program traces : List ℕ) (o other : Outcome)
        → JudgeComesTo held program traces o → JudgeComesTo held program traces other → o ≡ other }
{
    texts_have_a_verdict();
    traces_have_a_verdict();
}

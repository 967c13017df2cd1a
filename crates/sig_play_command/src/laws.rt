//! What is so of every play.

ghost use Rattle.std.specs.Prelude.{◌≡◌};
ghost use Rattle.sig_play_command.specs.Prelude.{ℕ, List, PROGRAM_BYTES, Contents, Kernel, Settings, Holds, Outcome, IsEnded, IsAcceptedAs};
ghost use Rattle.sig_play_command.specs.Complete.{CanPlay};
ghost use Rattle.sig_play_command.specs.Plays.{PlayComesTo, PlaysTo};

use sig_program::programs_have_a_verdict;

/// A law: a play over told contents comes to exactly one outcome, whatever its files hold and whether they are
/// there; and this is so of an accepted program.
pub fn plays_have_one_outcome()
    ensures every { (held : Contents) (program flows events : List ℕ) (settings : Settings) → (o : Outcome) × PlayComesTo held program flows events settings o }
    ensures some { (held : Contents) (program flows events : List ℕ) (settings : Settings) (kernel : Kernel)
        → Holds (held program) PROGRAM_BYTES (λ bytes. IsAcceptedAs settings.pace bytes kernel)
        → (o : Outcome) × PlayComesTo held program flows events settings o }
    ensures one { (held : Contents) (program flows events : List ℕ) (settings : Settings) (o other : Outcome)
        → PlayComesTo held program flows events settings o → PlayComesTo held program flows events settings other
        → o ≡ other }
{
    programs_have_a_verdict();
}

/// A law: events that can be played come to the end of their play: that, and nothing else, is what they come
/// to, with the text of what they commit, of the state that they leave and of what is missing there of the
/// text of the longest trace, the named cause of that, and status 0 or 3.
pub fn good_plays_end()
    ensures only { (held : Contents) (program flows events : List ℕ) (settings : Settings)
        → (can : CanPlay held program flows events settings)
        → (o : Outcome) → PlayComesTo held program flows events settings o
        → PlaysTo can.run.kernel can.run.values settings.capacity settings.instants events can.happening o }
    ensures status { (held : Contents) (program flows events : List ℕ) (settings : Settings)
        → CanPlay held program flows events settings
        → (o : Outcome) → PlayComesTo held program flows events settings o → IsEnded o.status }
    ensures some { (held : Contents) (program flows events : List ℕ) (settings : Settings)
        → CanPlay held program flows events settings → (o : Outcome) × PlayComesTo held program flows events settings o }
{}

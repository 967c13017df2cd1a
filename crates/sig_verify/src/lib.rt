//! Which images are sound. An image that came from outside may read what was never written; `verify` finds out, by
//! diagrams over its conditions, that no operation does, or which is the first that may. It stands on sig_file, whose
//! images and definitions these are, and on sig_dd.
#![tactic(auto)]

mod answer;
mod diagrams;
mod key;
mod laws;
mod pairs;
mod parts;
mod reads;
mod verified;
mod verifier;
mod verifying;
mod walk;
mod written;

pub use answer::VerifyAnswer;
pub use laws::images_are_sound_or_not;
pub use verified::Verified;
pub use verifying::verify;

//! Lemmas on lists that the proofs of several crates cite (`proofs/`): a library of lemmas, with no
//! functions. It stands on std alone.
#![tactic(auto)]

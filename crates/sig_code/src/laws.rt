//! A law of codes. Its function does nothing when it runs.

ghost use Rattle.std.specs.Prelude.{◌≡◌};
ghost use Rattle.sig_code.specs.Prelude.{ℕ, List, Kernel};
ghost use Rattle.sig_code.specs.Texts.{IsCodeText};

/// A law: the accepted plans of a kernel have one text of their code.
pub fn a_kernel_has_one_code_text()
    ensures { (kernel : Kernel) (a b : List ℕ) → IsCodeText kernel a → IsCodeText kernel b → a ≡ b }
{}

//! Programs that are well formed, with the kinds of their expressions.

ghost use Rattle.sig_scope.specs.Prelude.{program_of, IsWellFormed};
ghost use Rattle.sig_scope.specs.inner.Formed.{IsWellFormed-prop};
ghost use Rattle.sig_scope.specs.Typed.{AreKinds};

use sig_base::Kind;
use sig_tree::Program;

/// A well-formed program, with one kind for each of its expressions: each form before its operands,
/// and a process's body before its inner processes.
#[derive(Debug, Drop)]
pub struct Typed {
    pub program: Program,
    pub kinds: Vec<Kind>,
    ghost formed: { IsWellFormed (program_of program) } by { IsWellFormed-prop (program_of program) },
    ghost kinds_are: { AreKinds (program_of program) kinds.items },
}

//! What is so of every program.

ghost use Rattle.std.specs.Prelude.{◌≡◌};
ghost use Rattle.sig_compile_command.specs.Prelude.{ℕ, Bool, List, Contents, canonical_text, Outcome, WritesDue, done};
ghost use Rattle.sig_compile_command.specs.Compiling.{CompileComesTo, IsDueOf};
ghost use Rattle.sig_compile_command.specs.Complete.{CanCompile, CanPrint};
ghost use Rattle.sig_compile_command.specs.Printing.{PrintComesTo};
ghost use Rattle.sig_compile_command.specs.declared.product.Product.{Product};

use sig_front::texts_have_a_verdict;
use sig_program::programs_have_a_verdict;

/// A law: whatever its file holds and whether it is there, the compiling of a program comes to an outcome, and so
/// does its printing.
pub fn programs_have_an_outcome()
    ensures compiled { (pace : Bool) (held : Contents) (program : List ℕ) (product : Product)
        → (o : Outcome) × CompileComesTo (IsDueOf product) pace held program o }
    ensures printed { (held : Contents) (program : List ℕ) → (o : Outcome) × PrintComesTo held program o }
{
    texts_have_a_verdict();
    programs_have_a_verdict();
}

/// A law: a program that is accepted, with paces or without, is compiled. Whatever its compiling comes to has
/// the text that is due of its kernel, with status 0; and there is exactly one such outcome, of the verdict, of
/// the tree of clocks and of the code. A program comes to no two outcomes, accepted or not.
pub fn good_programs_compile()
    ensures only { (pace : Bool) (held : Contents) (program : List ℕ) → (can : CanCompile pace held program)
        → (product : Product) (o : Outcome) → CompileComesTo (IsDueOf product) pace held program o
        → WritesDue (IsDueOf product can.kernel) program o }
    ensures status { (pace : Bool) (held : Contents) (program : List ℕ) → CanCompile pace held program
        → (product : Product) (o : Outcome) → CompileComesTo (IsDueOf product) pace held program o → o.status ≡ 0 }
    ensures some { (pace : Bool) (held : Contents) (program : List ℕ) → CanCompile pace held program
        → (product : Product) → (o : Outcome) × CompileComesTo (IsDueOf product) pace held program o }
    ensures one { (pace : Bool) (held : Contents) (program : List ℕ) (product : Product) (o other : Outcome)
        → CompileComesTo (IsDueOf product) pace held program o
        → CompileComesTo (IsDueOf product) pace held program other → o ≡ other }
{}

/// A law: a program whose text has a tree is printed, as its canonical text and as nothing else.
pub fn good_texts_print()
    ensures only { (held : Contents) (program : List ℕ) → (can : CanPrint held program)
        → (o : Outcome) → PrintComesTo held program o → o ≡ done (canonical_text can.tree) program }
    ensures some { (held : Contents) (program : List ℕ) → (can : CanPrint held program)
        → PrintComesTo held program (done (canonical_text can.tree) program) }
{}

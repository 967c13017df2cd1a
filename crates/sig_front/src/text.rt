//! From a text to its tree.

ghost use Rattle.std.specs.Prelude.{◌≡◌, ◌≤◌, ◌⊎◌};
ghost use Rattle.sig_front.specs.Prelude.{List, IfOk, IfErr, IsErrAnd, MatchResult, length, IsText, ProcessModel, program_of};
ghost use Rattle.sig_front.specs.Texts.{IsNoText};
ghost use Rattle.sig_front.specs.declared.answer.FrontAnswer.{FrontAnswer};

use crate::answer::FrontAnswer;
use sig_base::limits::PROGRAM_BYTES;
use sig_lex::lex;
use sig_parse::parse_owned;
use sig_tree::Program;
use std::alloc::Global;

/// The tree of the program that a text is, or the first refusal by the lexer or the parser. Only
/// memory can be wanting besides.
pub fn tree(alloc: Global, bytes: &[u8]) -> Result<Program, FrontAnswer>
    requires short { length bytes.now ≤ PROGRAM_BYTES }
    ensures tree { IfOk result (λ program. IsText bytes.now (program_of program)) }
    ensures fault { IfErr result (λ answer. (answer ≡ FrontAnswer.OutOfMemory) ⊎ IsNoText bytes.now answer) }

    // Where the text is that of a program, its tree is given, and where it is refused, the refusal is
    // this one, unless memory runs out.
    ensures given { (program : List ProcessModel) → IsText bytes.now program →
        MatchResult result (λ given. program_of given ≡ program) (λ answer. answer ≡ FrontAnswer.OutOfMemory) }
    ensures refused { (fault : FrontAnswer) → IsNoText bytes.now fault →
        IsErrAnd result (λ answer. (answer ≡ FrontAnswer.OutOfMemory) ⊎ (answer ≡ fault)) }
{
    tree_of(alloc, bytes)
}

/// The tree or the first refusal.
fn tree_of(alloc: Global, bytes: &[u8]) -> Result<Program, FrontAnswer>
    requires short { length bytes.now ≤ PROGRAM_BYTES }
    ensures tree { IfOk result (λ program. IsText bytes.now (program_of program)) }
    ensures fault { IfErr result (λ answer. (answer ≡ FrontAnswer.OutOfMemory) ⊎ IsNoText bytes.now answer) }
{
    let tokens = lex(alloc, bytes)?;
    let program = parse_owned(alloc, bytes, tokens)?;
    Ok(program)
}

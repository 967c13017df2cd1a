//! Programs.

ghost use Rattle.std.specs.Prelude.{◌≡◌, ◌⊎◌};
ghost use Rattle.sig_parse.specs.Prelude.{List, map, IfOk, IfErr, Span, ProcessModel, model_of, program_of, leaves_of, HasTree, AreTokens};
ghost use Rattle.sig_parse.specs.Refused.{end_of, place_of, answer_of, IsRefusal};
ghost use Rattle.sig_parse.specs.Refusals.{Cause, RefusedBy};
ghost use Rattle.sig_parse.specs.Exact.{IsRefused, IsAnswerOf, answer_for};
ghost use Rattle.sig_parse.specs.Parts.{InProgram, IsAnything};
ghost use Rattle.sig_parse.specs.Refusals.{IsOfText};

use crate::leaf::into_leaves;
use crate::parse_answer::ParseAnswer;
use crate::parser::Parser;
use crate::process::process;
use crate::refusal::Refusal;
use sig_base::Span;
use sig_base::limits::{NESTING, OPERATORS};
use sig_lex::Token;
use sig_tree::{Process, Program, one_tree};
use std::alloc::Global;

/// The tree of a program, from the tokens of its text, which has no other tree.
pub fn parse(alloc: Global, bytes: &[u8], tokens: &[Token]) -> Result<Program, ParseAnswer>
    requires { AreTokens bytes.now tokens.now }
    ensures tree { IfOk result (λ program. HasTree (leaves_of bytes.now tokens.now) (program_of program)) }
    ensures only { IfOk result (λ program. (other : List ProcessModel) → HasTree (leaves_of bytes.now tokens.now) other → other ≡ program_of program) }
    // Some program that keeps both limits begins with the tokens before the refused one.
    ensures viable { IfErr result (λ answer. IsRefusal (leaves_of bytes.now tokens.now) (end_of tokens.now) answer) }
    // The refused token is the first with which no program goes on. It is Syntax where none does
    // whatever the limits, Nesting of 64 where none does that keeps the nesting, and else of 512.
    ensures refused { IfErr result (λ answer. IsAnswerOf (leaves_of bytes.now tokens.now) (end_of tokens.now) answer) }
    // It is so exactly there: no other token is the first, and none for another cause.
    ensures no_other { IfErr result (λ answer. (cause : Cause) (at : Span) → IsRefused (leaves_of bytes.now tokens.now) (end_of tokens.now) cause at
        → (answer ≡ ParseAnswer.OutOfMemory) ⊎ (answer ≡ answer_for cause at)) }
    ensures accepted { IfOk result (λ program. (cause : Cause) (at : Span) → IsRefused (leaves_of bytes.now tokens.now) (end_of tokens.now) cause at → ⊥) }
    // A text with a tree is refused for want of memory alone.
    ensures given { IfErr result (λ answer. (processes : List ProcessModel) → HasTree (leaves_of bytes.now tokens.now) processes → answer ≡ ParseAnswer.OutOfMemory) }
{
    parse_owned(alloc, bytes, tokens.to_vec(alloc)?)
}

/// The same as `parse`, with the tokens let go before the tree is built, so that both never take memory
/// together.
pub fn parse_owned(alloc: Global, bytes: &[u8], tokens: Vec<Token>) -> Result<Program, ParseAnswer>
    requires { AreTokens bytes.now tokens.items }
    ensures tree { IfOk result (λ program. HasTree (leaves_of bytes.now tokens.items) (program_of program)) }
    ensures only { IfOk result (λ program. (other : List ProcessModel) → HasTree (leaves_of bytes.now tokens.items) other → other ≡ program_of program) }
    // Some program that keeps both limits begins with the tokens before the refused one.
    ensures viable { IfErr result (λ answer. IsRefusal (leaves_of bytes.now tokens.items) (end_of tokens.items) answer) }
    // The refused token is the first with which no program goes on. It is Syntax where none does
    // whatever the limits, Nesting of 64 where none does that keeps the nesting, and else of 512.
    ensures refused { IfErr result (λ answer. IsAnswerOf (leaves_of bytes.now tokens.items) (end_of tokens.items) answer) }
    // It is so exactly there: no other token is the first, and none for another cause.
    ensures no_other { IfErr result (λ answer. (cause : Cause) (at : Span) → IsRefused (leaves_of bytes.now tokens.items) (end_of tokens.items) cause at
        → (answer ≡ ParseAnswer.OutOfMemory) ⊎ (answer ≡ answer_for cause at)) }
    ensures accepted { IfOk result (λ program. (cause : Cause) (at : Span) → IsRefused (leaves_of bytes.now tokens.items) (end_of tokens.items) cause at → ⊥) }
    // A text with a tree is refused for want of memory alone.
    ensures given { IfErr result (λ answer. (processes : List ProcessModel) → HasTree (leaves_of bytes.now tokens.items) processes → answer ≡ ParseAnswer.OutOfMemory) }
{
    one_tree();
    let last = end(&tokens);
    let leaves = into_leaves(alloc, bytes, tokens)?;
    let mut parser = Parser::new(&leaves);
    match processes(alloc, &mut parser) {
        Ok(processes) => Ok(Program { processes }),
        Err(refusal) => Err(answer(refusal, place(&parser, last))),
    }
}

/// The answer for a refusal of the token at this place.
fn answer(refusal: Refusal, at: Span) -> ParseAnswer
    ensures { result ≡ answer_of refusal at }
{
    match refusal {
        Refusal::Syntax => ParseAnswer::Syntax(at),
        Refusal::Nesting => ParseAnswer::Nesting(NESTING, at),
        Refusal::Operators => ParseAnswer::Nesting(OPERATORS, at),
        Refusal::OutOfMemory => ParseAnswer::OutOfMemory,
    }
}

/// The place of the next token, or of the last one.
fn place(parser: &Parser, last: Span) -> Span
    ensures { result ≡ place_of parser.now.leaves last }
{
    match parser.ahead().first() {
        Some(leaf) => leaf.at,
        None => last,
    }
}

/// The place of the last token.
fn end(tokens: &[Token]) -> Span
    ensures { result ≡ end_of tokens.now }
{
    match tokens.last() {
        Some(token) => token.at,
        None => Span { line: 1, col: 1 },
    }
}

/// Processes, up to the end.
fn processes(alloc: Global, parser: &mut Parser) -> Result<Vec<Process>, Refusal>
    ensures reads { IfOk result (λ processes. HasTree parser.old.leaves (map model_of processes.items)) }
    ensures refuses { IfErr result (RefusedBy InProgram IsAnything parser.old parser.new) }
{
    let mut all = Vec::new(alloc);
    all.push(process(alloc, parser, 0)?)?;
    loop {
        if parser.is_done() {
            return Ok(all);
        }
        all.push(process(alloc, parser, 0)?)?;
    }
}

//! What was found wrong, in the order in which it is asked for.

ghost use Rattle.std.specs.Prelude.{◌≡◌, ◌∷◌};
ghost use Rattle.sig_type.specs.Prelude.{IsTrue, IfOk, [], MatchOption, ⊤, candidate};
ghost use Rattle.sig_type.specs.Answers.{offence_of};
ghost use Rattle.sig_type.specs.inner.Findings.{Finds, offence_in, sooner};

use crate::answer::TypeAnswer;
use sig_base::{Span, Text};
use sig_tree::Name;
use std::alloc::{AllocError, Global};

/// What is wrong in a program, with its name or its place.
#[derive(Clone, Copy)]
pub enum Finding<'a> {
    Unknown(&'a Name),
    DeclaredTwice(&'a Name),
    InputDefined(&'a Name),
    DefinedTwice(&'a Name),
    Undefined(&'a Name),
    Clash(Span),
    BareConstant(Span),
    BadCall(&'a Name),
    Recursive(&'a Name),
    BadPragma(Span),
    NoInit(Span),
}

/// The first of what was found, of all that was asked for.
#[derive(Clone, Copy)]
pub struct First<'a> {
    pub found: Option<Finding<'a>>,
}

impl<'a> First<'a> {
    /// Nothing was found.
    pub fn new() -> First<'a>
        ensures { result.found ≡ None }
    {
        First { found: None }
    }

    /// Asks whether something is wrong.
    pub fn ask(&mut self, wrong: bool, finding: Finding<'a>)
        ensures { Finds self.old self.new (candidate (offence_in finding.entry) (IsTrue wrong) ∷ []) }
    {
        if wrong && self.found.is_none() {
            self.found = Some(finding);
        }
    }

    /// What was asked for elsewhere comes behind what was asked for here.
    pub fn append(&mut self, later: First<'a>)
        ensures { self.new.found ≡ sooner self.old.found later.entry.found }
    {
        if self.found.is_none() {
            self.found = later.found;
        }
    }
}

/// A copy of a name.
fn copied(alloc: Global, name: &Name) -> Result<Name, AllocError>
    ensures { IfOk result (λ copy. copy ≡ name.now) }
{
    Ok(Name {
        text: Text::from_bytes(alloc, name.text.as_bytes())?,
        at: name.at,
    })
}

/// The answer that says what was found.
pub fn answer_of(alloc: Global, finding: Finding<'_>) -> TypeAnswer
    ensures { MatchOption (offence_of result) ⊤ (λ offence. offence ≡ offence_in finding.entry) }
{
    match answer_in(alloc, finding) {
        Ok(answer) => answer,
        Err(_) => TypeAnswer::OutOfMemory,
    }
}

/// The same, where memory may be wanting.
fn answer_in(alloc: Global, finding: Finding<'_>) -> Result<TypeAnswer, AllocError>
    ensures { IfOk result (λ answer. offence_of answer ≡ Some (offence_in finding.entry)) }
{
    Ok(match finding {
        Finding::Unknown(name) => TypeAnswer::Unknown(copied(alloc, name)?),
        Finding::DeclaredTwice(name) => TypeAnswer::DeclaredTwice(copied(alloc, name)?),
        Finding::InputDefined(name) => TypeAnswer::InputDefined(copied(alloc, name)?),
        Finding::DefinedTwice(name) => TypeAnswer::DefinedTwice(copied(alloc, name)?),
        Finding::Undefined(name) => TypeAnswer::Undefined(copied(alloc, name)?),
        Finding::Clash(at) => TypeAnswer::Clash(at),
        Finding::BareConstant(at) => TypeAnswer::BareConstant(at),
        Finding::BadCall(name) => TypeAnswer::BadCall(copied(alloc, name)?),
        Finding::Recursive(name) => TypeAnswer::Recursive(copied(alloc, name)?),
        Finding::BadPragma(at) => TypeAnswer::BadPragma(at),
        Finding::NoInit(at) => TypeAnswer::NoInit(at),
    })
}

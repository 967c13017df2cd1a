//! Where the parser stands in the leaves of a text.

ghost use Rattle.std.specs.Prelude.{◌≡◌, ◌≤◌, ◌<◌, ◌∷◌};
ghost use Rattle.sig_parse.specs.Prelude.{ℕ, List, suc, true, [], codes, map, IfOk, IfErr, OnOk, MatchOption, MatchBool, OnErr, length, name, number, label, StopsBefore, StartsWith, BeginsName, ContinuesNothing, IsName, IsOptionalOne};
ghost use Rattle.sig_parse.specs.inner.Keywords.{terminal_of, IsKeyword};
ghost use Rattle.sig_parse.specs.Languages.{InLeaf, InLabel, InName, InOptionalOne};
ghost use Rattle.sig_parse.specs.Refusals.{RefusedBy};
ghost use Rattle.sig_parse.specs.Settling.{Settles};
ghost use Rattle.sig_parse.specs.Seen.{leaf_seen};
ghost use Rattle.sig_parse.specs.Reads.{Reads, Shorter, IsLeaf};
ghost use Rattle.sig_parse.specs.Refusals.{IsOfText};

use crate::keyword::{Keyword, is_same};
use crate::leaf::{Leaf, Terminal};
use crate::natural::Natural;
use crate::refusal::Refusal;
use sig_base::limits::{NESTING, OPERATORS};
use sig_base::{Span, Text};
use sig_tree::Name;
use std::alloc::Global;
use std::marker::Model;

/// The leaves, the index of the next one, and the operators of the equation so far.
#[derive(Drop)]
pub struct Parser<'l, 'a> {
    leaves: &'l [Leaf<'a>],
    next: usize,
    operators: u32,
}

impl<'l, 'a> Model for Parser<'l, 'a> {
    ghost use Rattle.std.specs.Prelude.{map, drop};
    ghost use Rattle.sig_parse.specs.State.{State};
    ghost use Rattle.sig_parse.specs.Seen.{leaf_seen};

    ghost Value = { State };

    ghost view = { λ p. record { leaves = map leaf_seen (drop p.next p.leaves.now); operators = p.operators } };
}

/// The construct that begins with the next token stands inside so many others: how deep its inside
/// stands, or its refusal.
pub fn inside(parser: &Parser, depth: u32) -> Result<u32, Refusal>
    ensures deeper { IfOk result (λ inner. (depth < 64) × (inner ≡ suc depth)) }
    ensures too_deep { IfErr result (λ why. (why ≡ Refusal.Nesting) × (64 ≤ depth)) }
{
    if depth < NESTING {
        Ok(depth + 1)
    } else {
        Err(Refusal::Nesting)
    }
}

impl<'l, 'a> Parser<'l, 'a> {
    /// Before the first of these leaves.
    pub fn new(leaves: &'l [Leaf<'a>]) -> Parser<'l, 'a>
        ensures { result ≡ record { leaves = map leaf_seen leaves.now; operators = 0 } }
    {
        Parser {
            leaves,
            next: 0,
            operators: 0,
        }
    }

    /// Whether nothing is left.
    pub fn is_done(&self) -> bool
        ensures { MatchBool result (self.now.leaves ≡ []) (self.now.leaves ≡ [] → ⊥) }
    {
        self.leaves.len() <= self.next
    }

    /// How many tokens are left.
    pub fn left(&self) -> usize
        ensures { result ≡ length self.now.leaves }
    {
        self.ahead().len()
    }

    /// The next terminals.
    pub fn ahead(&self) -> &[Leaf<'a>]
        ensures { map leaf_seen result.now ≡ self.now.leaves }
    {
        if self.next <= self.leaves.len() {
            &self.leaves[self.next..]
        } else {
            &[]
        }
    }

    /// The next token, where it is a reserved word or a mark.
    pub fn keyword(&self) -> Option<Keyword>
        ensures { MatchOption result (StopsBefore IsKeyword self.now.leaves) (λ keyword. StartsWith (λ t. t ≡ terminal_of keyword) self.now.leaves) }
    {
        match self.leaves.get(self.next)?.terminal {
            Terminal::Keyword(keyword) => Some(keyword),
            _ => None,
        }
    }

    /// Whether the next token is this keyword.
    pub fn is(&self, keyword: Keyword) -> bool
        ensures { MatchBool result (StartsWith (λ t. t ≡ terminal_of keyword) self.now.leaves) (StopsBefore (λ t. t ≡ terminal_of keyword) self.now.leaves) }
    {
        match self.keyword() {
            Some(found) => is_same(found, keyword),
            None => false,
        }
    }

    /// Whether the next token is a `1`.
    pub fn is_one(&self) -> bool
        ensures { MatchBool result (StartsWith (λ t. t ≡ number 1) self.now.leaves) (StopsBefore (λ t. t ≡ number 1) self.now.leaves) }
    {
        match self.leaves.get(self.next) {
            Some(leaf) => match leaf.terminal {
                Terminal::Number(number) => number.value == 1,
                _ => false,
            },
            None => false,
        }
    }

    /// Passes this keyword, where it is next.
    pub fn take(&mut self, keyword: Keyword) -> Option<Span>
        ensures { MatchOption result ((self.new ≡ self.old) × StopsBefore (λ t. t ≡ terminal_of keyword) self.old.leaves)
            (λ at. Reads (IsLeaf (terminal_of keyword) at) 0 self.old self.new × Shorter self.old self.new) }
    {
        let first = self.leaves.get(self.next)?;
        let Terminal::Keyword(found) = first.terminal else {
            return None;
        };
        if !is_same(found, keyword) {
            return None;
        }
        self.next += 1;
        Some(first.at)
    }

    /// Passes a name, where one is next.
    fn take_name(&mut self) -> Option<(&'a [u8], Span)>
        ensures { MatchOption result ((self.new ≡ self.old) × StopsBefore BeginsName self.old.leaves)
            (λ found. Reads (IsLeaf (name found.0.now) found.1) 0 self.old self.new × Shorter self.old self.new) }
    {
        let first = self.leaves.get(self.next)?;
        match first.terminal {
            Terminal::Name(text) => {
                self.next += 1;
                Some((text, first.at))
            }
            _ => None,
        }
    }

    /// Passes the name `RunOn`, which must be next.
    pub fn run_on(&mut self) -> Result<Span, Refusal>
        ensures reads { IfOk result (λ at. Reads (IsLeaf (name (codes "RunOn")) at) 0 self.old self.new) }
        ensures shorter { OnOk result (Shorter self.old self.new) }
        ensures stays { OnErr result (self.new ≡ self.old) }
        ensures refuses { IfErr result (RefusedBy (InLeaf (name (codes "RunOn"))) ContinuesNothing self.old self.new) }
    {
        match self.take_run_on() {
            Some(at) => Ok(at),
            None => Err(Refusal::Syntax),
        }
    }

    /// Passes the name `RunOn`, where it is next.
    fn take_run_on(&mut self) -> Option<Span>
        ensures { MatchOption result ((self.new ≡ self.old) × StopsBefore (λ t. t ≡ name (codes "RunOn")) self.old.leaves)
            (λ at. Reads (IsLeaf (name (codes "RunOn")) at) 0 self.old self.new × Shorter self.old self.new) }
    {
        let first = self.leaves.get(self.next)?;
        let Terminal::Name(text) = first.terminal else {
            return None;
        };
        if text == b"RunOn".as_slice() {
            self.next += 1;
            return Some(first.at);
        }
        None
    }

    /// Passes a number, where one is next.
    pub fn take_number(&mut self) -> Option<(Natural, Span)>
        ensures { MatchOption result ((self.new ≡ self.old) × StopsBefore (λ t. (n : ℕ) × (t ≡ number n)) self.old.leaves)
            (λ found. Reads (IsLeaf (number found.0.value) found.1) 0 self.old self.new × Shorter self.old self.new) }
    {
        let first = self.leaves.get(self.next)?;
        match first.terminal {
            Terminal::Number(value) => {
                self.next += 1;
                Some((value, first.at))
            }
            _ => None,
        }
    }

    /// Passes a `1`, where one is next.
    pub fn take_one(&mut self)
        ensures reads { Reads IsOptionalOne 0 self.old self.new }
        ensures settles { Settles InOptionalOne (λ t. t ≡ number 1) self.old.leaves self.new.leaves }
    {
        if self.is_one() {
            let _one = self.take_number();
        }
    }

    /// Passes a label, where one is next.
    fn take_label(&mut self) -> Option<(&'a [u8], Span)>
        ensures { MatchOption result ((self.new ≡ self.old) × StopsBefore (λ t. (text : List ℕ) × (t ≡ label text)) self.old.leaves)
            (λ found. Reads (IsLeaf (label found.0.now) found.1) 0 self.old self.new × Shorter self.old self.new) }
    {
        let first = self.leaves.get(self.next)?;
        match first.terminal {
            Terminal::Label(text) => {
                self.next += 1;
                Some((text, first.at))
            }
            _ => None,
        }
    }

    /// Passes this keyword, which must be next.
    pub fn expect(&mut self, keyword: Keyword) -> Result<Span, Refusal>
        ensures reads { IfOk result (λ at. Reads (IsLeaf (terminal_of keyword) at) 0 self.old self.new) }
        ensures shorter { OnOk result (Shorter self.old self.new) }
        ensures stays { OnErr result (self.new ≡ self.old) }
        ensures missing { IfErr result (λ why. (why ≡ Refusal.Syntax) × StopsBefore (λ t. t ≡ terminal_of keyword) self.old.leaves) }
        ensures refuses { IfErr result (RefusedBy (InLeaf (terminal_of keyword)) ContinuesNothing self.old self.new) }
    {
        match self.take(keyword) {
            Some(at) => Ok(at),
            None => Err(Refusal::Syntax),
        }
    }

    /// Passes a name, which must be next.
    pub fn name(&mut self, alloc: Global) -> Result<Name, Refusal>
        ensures reads { IfOk result (λ name. Reads (IsName name) 0 self.old self.new) }
        ensures shorter { OnOk result (Shorter self.old self.new) }
        ensures stays { IfErr result (λ why. IsOfText why → self.new ≡ self.old) }
        ensures missing { IfErr result (λ why. IsOfText why → (why ≡ Refusal.Syntax) × StopsBefore BeginsName self.old.leaves) }
        ensures refuses { IfErr result (RefusedBy InName ContinuesNothing self.old self.new) }
    {
        match self.take_name() {
            Some((text, at)) => Ok(Name {
                text: Text::from_bytes(alloc, text)?,
                at,
            }),
            None => Err(Refusal::Syntax),
        }
    }

    /// Passes a label, which must be next.
    pub fn label(&mut self, alloc: Global) -> Result<(Text, Span), Refusal>
        ensures reads { IfOk result (λ found. Reads (IsLeaf (label found.0) found.1) 0 self.old self.new) }
        ensures shorter { OnOk result (Shorter self.old self.new) }
        ensures stays { IfErr result (λ why. IsOfText why → self.new ≡ self.old) }
        ensures refuses { IfErr result (RefusedBy InLabel ContinuesNothing self.old self.new) }
    {
        match self.take_label() {
            Some((text, at)) => Ok((Text::from_bytes(alloc, text)?, at)),
            None => Err(Refusal::Syntax),
        }
    }

    /// Passes this keyword, which is next and an operator.
    pub fn operator(&mut self, keyword: Keyword) -> Result<Span, Refusal>
        ensures reads { IfOk result (λ at. Reads (IsLeaf (terminal_of keyword) at) 1 self.old self.new) }
        ensures shorter { OnOk result (Shorter self.old self.new) }
        ensures stays { OnErr result (self.new ≡ self.old) }
        ensures full { IfErr result (λ why. StartsWith (λ t. t ≡ terminal_of keyword) self.old.leaves → (why ≡ Refusal.Operators) × (512 ≤ self.old.operators)) }
    {
        if self.operators >= OPERATORS {
            return Err(Refusal::Operators);
        }
        let Some(at) = self.take(keyword) else {
            return Err(Refusal::Syntax);
        };
        self.operators += 1;
        Ok(at)
    }

    /// The same place, before an equation.
    pub fn begin_equation(&mut self)
        ensures { self.new ≡ record { leaves = self.old.leaves; operators = 0 } }
    {
        self.operators = 0;
    }
}

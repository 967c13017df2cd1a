//! Declarations.

ghost use Rattle.std.specs.Prelude.{◌≡◌, ◌≢◌};
ghost use Rattle.sig_parse.specs.Prelude.{codes, map, IfOk, OnOk, IfErr, OnErr, Event, declared_of, kind_word, mark, Separated, AreGroups, ContinuesNothing};
ghost use Rattle.sig_parse.specs.Declarations.{IsItemOf, IsGroupOf};
ghost use Rattle.sig_parse.specs.inner.Keywords.{terminal_of};
ghost use Rattle.sig_parse.specs.Parts.{InKind, InItem, InItems, InGroup, InGroups, ContinuesItem, ContinuesItems, EndsGroups};
ghost use Rattle.sig_parse.specs.Reads.{Reads, Shorter, IsLeaf};
ghost use Rattle.sig_parse.specs.Refusals.{RefusedBy};
ghost use Rattle.sig_parse.specs.Settling.{Settles, Closes};
ghost use Rattle.sig_parse.specs.Refusals.{IsOfText};

use crate::constant::optional_init;
use crate::keyword::Keyword;
use crate::parser::Parser;
use crate::refusal::Refusal;
use crate::separated::{Part, separated};
use sig_base::{Kind, Span};
use sig_tree::{Group, Item};
use std::alloc::Global;

/// What is declared: parameters, inputs, or signals that may have an init.
#[derive(Clone, Copy, PartialEq, Eq)]
pub enum Declares {
    Parameters,
    Inputs,
    Signals,
}

/// The kind with which a group begins.
fn kind(parser: &mut Parser, declares: Declares) -> Result<(Kind, Span), Refusal>
    ensures reads { IfOk result (λ found. Reads (IsLeaf (kind_word found.0) found.1) 0 parser.old parser.new) }
    ensures no_event { IfOk result (λ found. declares ≡ Declares.Parameters → found.0 ≢ Event) }
    ensures shorter { OnOk result (Shorter parser.old parser.new) }
    ensures stays { OnErr result (parser.new ≡ parser.old) }
    ensures refuses { IfErr result (RefusedBy (InKind declares) ContinuesNothing parser.old parser.new) }
{
    if let Some(at) = parser.take(Keyword::Integer) {
        return Ok((Kind::Integer, at));
    }
    if let Some(at) = parser.take(Keyword::Boolean) {
        return Ok((Kind::Boolean, at));
    }
    if declares == Declares::Parameters {
        return Err(Refusal::Syntax);
    }
    Ok((Kind::Event, parser.expect(Keyword::Event)?))
}

/// A name, with its init where it may have one and has.
fn item(alloc: Global, parser: &mut Parser, declares: Declares) -> Result<Item, Refusal>
    ensures reads { IfOk result (λ item. Reads (IsItemOf declares item) 0 parser.old parser.new) }
    ensures settles { OnOk result (Settles (InItem declares) (ContinuesItem declares) parser.old.leaves parser.new.leaves) }
    ensures refuses { IfErr result (RefusedBy (InItem declares) (ContinuesItem declares) parser.old parser.new) }
{
    let name = parser.name(alloc)?;
    if declares == Declares::Signals {
        let init = optional_init(alloc, parser)?;
        Ok(Item { name, init })
    } else {
        Ok(Item { name, init: None })
    }
}

/// An item of several.
#[derive(Clone, Copy)]
struct OneItem {
    declares: Declares,
}

impl Part for OneItem {
    type Tree = Item;

    ghost reads_as = { λ part item before after. Reads (IsItemOf part.declares item) 0 before after
        × Settles (InItem part.declares) (ContinuesItem part.declares) before.leaves after.leaves };

    ghost refuses_as = { λ part why before after. RefusedBy (InItem part.declares) (ContinuesItem part.declares) before after why };

    fn read(&self, alloc: Global, parser: &mut Parser) -> Result<Item, Refusal> {
        item(alloc, parser, self.declares)
    }
}

/// Items with `,` between them.
fn items(alloc: Global, parser: &mut Parser, declares: Declares) -> Result<Vec<Item>, Refusal>
    ensures reads { IfOk result (λ items. Reads (Separated (IsItemOf declares) (mark (codes ",")) items.items) 0 parser.old parser.new) }
    ensures settles { OnOk result (Settles (InItems declares) (ContinuesItems declares) parser.old.leaves parser.new.leaves) }
    ensures refuses { IfErr result (RefusedBy (InItems declares) (ContinuesItems declares) parser.old parser.new) }
{
    separated(alloc, parser, &OneItem { declares }, Keyword::Comma)
}

/// A group: its kind and its items.
pub fn group(alloc: Global, parser: &mut Parser, declares: Declares) -> Result<Group, Refusal>
    ensures reads { IfOk result (λ group. Reads (IsGroupOf declares (declared_of group)) 0 parser.old parser.new) }
    ensures shorter { OnOk result (Shorter parser.old parser.new) }
    ensures settles { OnOk result (Settles (InGroup declares) (ContinuesItems declares) parser.old.leaves parser.new.leaves) }
    ensures refuses { IfErr result (RefusedBy (InGroup declares) (ContinuesItems declares) parser.old parser.new) }
{
    let (kind, _at) = kind(parser, declares)?;
    let items = items(alloc, parser, declares)?;
    Ok(Group { kind, items })
}

/// Groups with `;` between them and perhaps behind them, up to the mark that closes them.
pub fn groups(
    alloc: Global,
    parser: &mut Parser,
    declares: Declares,
    closing: Keyword,
) -> Result<Vec<Group>, Refusal>
    requires ends { EndsGroups (terminal_of closing) }
    ensures reads { IfOk result (λ groups. Reads (AreGroups (IsGroupOf declares) (map declared_of groups.items)) 0 parser.old parser.new) }
    // Where the mark is not next, the next token is refused.
    ensures closes { OnOk result (Closes (InGroups declares (terminal_of closing)) (terminal_of closing) parser.old.leaves parser.new.leaves) }
    ensures refuses { IfErr result (RefusedBy (InGroups declares (terminal_of closing)) ContinuesNothing parser.old parser.new) }
{
    let mut all = Vec::new(alloc);
    if parser.is(closing) {
        return Ok(all);
    }
    all.push(group(alloc, parser, declares)?)?;
    loop {
        let Some(_) = parser.take(Keyword::Semicolon) else {
            return Ok(all);
        };
        if parser.is(closing) {
            return Ok(all);
        }
        all.push(group(alloc, parser, declares)?)?;
    }
}

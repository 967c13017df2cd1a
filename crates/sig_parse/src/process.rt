//! Processes.

ghost use Rattle.std.specs.Prelude.{◌≡◌, ◌∷◌};
ghost use Rattle.sig_parse.specs.Prelude.{[], codes, map, IfOk, OnOk, IfErr, Span, roll-Process, declared_of, equations_of, model_of, placement_of, leaf, name_leaf, word, mark, both_limits, AreParams, IsInterface, IsLocalGroup, IsModel, StartsWith, BeginsProcess, ContinuesNothing, ContinuesOptional};
ghost use Rattle.sig_parse.specs.Declarations.{IsTitle, HasSides, HasDeclared, HasBehindWhere, AreDeclared, AreBehindWhere, IsInnerProcess};
ghost use Rattle.sig_parse.specs.Parts.{InParams, InInterface, InTitle, InLocalGroup, InProcess, InDeclared, InWhere};
ghost use Rattle.sig_parse.specs.inner.Beginnings.{ReadsBeginning};
ghost use Rattle.sig_parse.specs.Reads.{Reads, Covers, Shorter};
ghost use Rattle.sig_parse.specs.Refusals.{RefusedBy};
ghost use Rattle.sig_parse.specs.Settling.{Settles, Closes};
ghost use Rattle.sig_parse.specs.Refusals.{IsOfText};

use crate::bodies::body;
use crate::declaration::{Declares, group, groups};
use crate::keyword::Keyword;
use crate::parser::{Parser, inside};
use crate::pragma::pragmas;
use crate::refusal::Refusal;
use sig_tree::{Body, Group, Name, Process, RunOn};
use std::alloc::Global;

/// Parameters in braces, where `{` is next.
fn params(alloc: Global, parser: &mut Parser) -> Result<Vec<Group>, Refusal>
    ensures reads { IfOk result (λ params. Reads (AreParams (map declared_of params.items)) 0 parser.old parser.new) }
    ensures settles { OnOk result (Settles InParams (ContinuesOptional (mark (codes "{"))) parser.old.leaves parser.new.leaves) }
    ensures refuses { IfErr result (RefusedBy InParams (ContinuesOptional (mark (codes "{"))) parser.old parser.new) }
{
    let Some(_opened) = parser.take(Keyword::BraceOpen) else {
        return Ok(Vec::new(alloc));
    };
    let all = groups(alloc, parser, Declares::Parameters, Keyword::BraceClose)?;
    let _closed = parser.expect(Keyword::BraceClose)?;
    Ok(all)
}

/// The inputs and the outputs of a process.
#[derive(Drop)]
struct Interface {
    inputs: Vec<Group>,
    outputs: Vec<Group>,
}

/// Inputs behind `?` and outputs behind `!`, in parentheses.
fn inputs_and_outputs(alloc: Global, parser: &mut Parser) -> Result<Interface, Refusal>
    ensures reads { IfOk result (λ interface. Reads (IsInterface (map declared_of interface.inputs.items) (map declared_of interface.outputs.items)) 0 parser.old parser.new) }
    ensures refuses { IfErr result (RefusedBy InInterface ContinuesNothing parser.old parser.new) }
{
    let _opened = parser.expect(Keyword::Open)?;
    let _asked = parser.expect(Keyword::Question)?;
    let inputs = groups(alloc, parser, Declares::Inputs, Keyword::Exclamation)?;
    let _answered = parser.expect(Keyword::Exclamation)?;
    let outputs = groups(alloc, parser, Declares::Signals, Keyword::Close)?;
    let _closed = parser.expect(Keyword::Close)?;
    Ok(Interface { inputs, outputs })
}

/// `process`, a name and `=`.
fn title(alloc: Global, parser: &mut Parser) -> Result<Name, Refusal>
    ensures reads { IfOk result (λ name. Reads (IsTitle name) 0 parser.old parser.new) }
    ensures shorter { OnOk result (Shorter parser.old parser.new) }
    ensures refuses { IfErr result (RefusedBy InTitle ContinuesNothing parser.old parser.new) }
{
    let _begun = parser.expect(Keyword::Process)?;
    let name = parser.name(alloc)?;
    let _equals = parser.expect(Keyword::Equal)?;
    Ok(name)
}

/// A process up to its body.
#[derive(Drop)]
struct Begun {
    name: Name,
    params: Vec<Group>,
    inputs: Vec<Group>,
    outputs: Vec<Group>,
    run_on: Vec<RunOn>,
    body: Body,
}

/// A process up to its body, which stands inside so many constructs.
fn beginning(alloc: Global, parser: &mut Parser, depth: u32) -> Result<Begun, Refusal>
    ensures reads { IfOk result (λ begun. ReadsBeginning depth begun.name (map declared_of begun.params.items) (map declared_of begun.inputs.items) (map declared_of begun.outputs.items)
        (map placement_of begun.run_on.items) (equations_of begun.body) parser.old parser.new) }
    ensures shorter { OnOk result (Shorter parser.old parser.new) }
    ensures refuses { IfErr result (RefusedBy (InProcess depth) ContinuesNothing parser.old parser.new) }
{
    let name = title(alloc, parser)?;
    let params = params(alloc, parser)?;
    let interface = inputs_and_outputs(alloc, parser)?;
    let run_on = pragmas(alloc, parser)?;
    let body = body(alloc, parser, depth)?;
    Ok(Begun {
        name,
        params,
        inputs: interface.inputs,
        outputs: interface.outputs,
        run_on,
        body,
    })
}

/// A process, whose contents stand inside so many constructs.
#[cycle(process)]
pub fn process(alloc: Global, parser: &mut Parser, depth: u32) -> Result<Process, Refusal>
    ensures reads { IfOk result (λ process. Covers (IsModel both_limits (model_of process) depth) parser.old parser.new) }
    ensures shorter { OnOk result (Shorter parser.old parser.new) }
    ensures refuses { IfErr result (RefusedBy (InProcess depth) ContinuesNothing parser.old parser.new) }
{
    let begun = beginning(alloc, parser, depth)?;
    let declared = where_part(alloc, parser, depth)?;
    let _ended = parser.expect(Keyword::Semicolon)?;
    Ok(whole(begun, declared))
}

/// What a process declares after `where`.
#[derive(Drop)]
struct Locals {
    groups: Vec<Group>,
    processes: Vec<Process>,
}

/// A process from its beginning and what it declares.
fn whole(begun: Begun, declared: Locals) -> Process
    ensures { result ≡ roll-Process (record { name = begun.name; params = begun.params; inputs = begun.inputs; outputs = begun.outputs; run_on = begun.run_on; body = begun.body; locals = declared.groups; inner = declared.processes }) }
{
    Process {
        name: begun.name,
        params: begun.params,
        inputs: begun.inputs,
        outputs: begun.outputs,
        run_on: begun.run_on,
        body: begun.body,
        locals: declared.groups,
        inner: declared.processes,
    }
}

/// What is declared after `where`, where that is next.
#[cycle(process)]
fn where_part(alloc: Global, parser: &mut Parser, depth: u32) -> Result<Locals, Refusal>
    ensures reads { IfOk result (λ declared. Covers (AreBehindWhere depth (map model_of declared.processes.items) (map declared_of declared.groups.items)) parser.old parser.new) }
    ensures settles { OnOk result (Settles (InWhere depth) (ContinuesOptional (word (codes "where"))) parser.old.leaves parser.new.leaves) }
    ensures refuses { IfErr result (RefusedBy (InWhere depth) (ContinuesOptional (word (codes "where"))) parser.old parser.new) }
{
    let Some(_opened) = parser.take(Keyword::Where) else {
        return Ok(Locals {
            groups: Vec::new(alloc),
            processes: Vec::new(alloc),
        });
    };
    let all = entries(alloc, parser, depth)?;
    let _closed = parser.expect(Keyword::End)?;
    Ok(all)
}

/// Groups and inner processes, up to `end`.
#[cycle(process)]
fn entries(alloc: Global, parser: &mut Parser, depth: u32) -> Result<Locals, Refusal>
    ensures reads { IfOk result (λ declared. Covers (AreDeclared depth (map model_of declared.processes.items) (map declared_of declared.groups.items)) parser.old parser.new) }
    // Where `end` is not next, the next token is refused.
    ensures closes { OnOk result (Closes (InDeclared depth) (word (codes "end")) parser.old.leaves parser.new.leaves) }
    ensures refuses { IfErr result (RefusedBy (InDeclared depth) ContinuesNothing parser.old parser.new) }
{
    let mut groups = Vec::new(alloc);
    let mut processes = Vec::new(alloc);
    loop {
        if parser.is(Keyword::End) {
            return Ok(Locals { groups, processes });
        }
        if parser.is(Keyword::Process) {
            processes.push(inner_process(alloc, parser, depth)?)?;
        } else {
            groups.push(local_group(alloc, parser)?)?;
        }
    }
}

/// A process inside one whose contents stand inside so many constructs.
#[cycle(process)]
fn inner_process(alloc: Global, parser: &mut Parser, depth: u32) -> Result<Process, Refusal>
    requires next { StartsWith BeginsProcess parser.old.leaves }
    ensures reads { IfOk result (λ process. Covers (IsInnerProcess depth (model_of process)) parser.old parser.new) }
    ensures shorter { OnOk result (Shorter parser.old parser.new) }
    ensures refuses { IfErr result (RefusedBy (InDeclared depth) ContinuesNothing parser.old parser.new) }
{
    let inner = inside(parser, depth)?;
    process(alloc, parser, inner)
}

/// A group and `;`.
fn local_group(alloc: Global, parser: &mut Parser) -> Result<Group, Refusal>
    ensures reads { IfOk result (λ group. Reads (IsLocalGroup (declared_of group)) 0 parser.old parser.new) }
    ensures shorter { OnOk result (Shorter parser.old parser.new) }
    ensures refuses { IfErr result (RefusedBy InLocalGroup ContinuesNothing parser.old parser.new) }
{
    let one = group(alloc, parser, Declares::Signals)?;
    let _ended = parser.expect(Keyword::Semicolon)?;
    Ok(one)
}

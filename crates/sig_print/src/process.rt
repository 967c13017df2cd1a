//! The words of declarations, processes and programs.

ghost use Rattle.std.specs.Prelude.{◌≡◌, ◌++◌, ◌∷◌};
ghost use Rattle.sig_print.specs.Prelude.{[], IfOk, codes, map, declared_of, placement_of, model_of, program_of, flat_map};
ghost use Rattle.sig_print.specs.Canonical.{canonical_text, further, group_words, groups_words, heading_in, heading_words, item_words, local_words, params_words, pragma_words, pragmas_words, process_words, separated, where_words};
ghost use Rattle.sig_print.specs.inner.Prints.{Adds};
ghost use Rattle.sig_print.specs.inner.Words.{kind_text, mark};

use crate::answer::PrintAnswer;
use crate::equation::{body, names};
use crate::expression::optional_init;
use crate::words::Words;
use sig_base::Kind;
use sig_tree::{Group, Item, Process, Program, RunOn};
use std::alloc::Global;

/// The canonical text of a program.
pub fn print(alloc: Global, program: &Program) -> Result<Vec<u8>, PrintAnswer>
    ensures { IfOk result (λ text. text.items ≡ canonical_text (program_of program.now)) }
{
    let mut words = Words::new(alloc);
    processes(&mut words, &program.processes)?;
    words.finish()
}

/// The word of a kind.
fn kind_word(kind: Kind) -> &'static [u8]
    ensures { result.now ≡ kind_text kind }
{
    match kind {
        Kind::Integer => b"integer",
        Kind::Boolean => b"boolean",
        Kind::Event => b"event",
    }
}

/// A declared name, with its init where it has one.
fn item(words: &mut Words, one: &Item) -> Result<(), PrintAnswer>
    ensures { Adds words.old words.new result (item_words one.now) }
{
    words.word(one.name.text.as_bytes())?;
    optional_init(words, &one.init)
}

/// Declared names, with `,` between them.
fn items(words: &mut Words, all: &[Item]) -> Result<(), PrintAnswer>
    ensures { Adds words.old words.new result (separated item_words (mark (codes ",")) all.now) }
{
    match all.split_first() {
        None => Ok(()),
        Some((first, rest)) => {
            item(words, first)?;
            further_items(words, rest)
        }
    }
}

/// Declared names, each behind `,`.
fn further_items(words: &mut Words, all: &[Item]) -> Result<(), PrintAnswer>
    ensures { Adds words.old words.new result (further item_words (mark (codes ",")) all.now) }
{
    for one in all {
        words.word(b",")?;
        item(words, one)?;
    }
    Ok(())
}

/// A group: its kind, and its names.
fn group(words: &mut Words, one: &Group) -> Result<(), PrintAnswer>
    ensures { Adds words.old words.new result (group_words (declared_of one.now)) }
{
    words.word(kind_word(one.kind))?;
    items(words, &one.items)
}

/// Groups with `;` between them.
fn groups(words: &mut Words, all: &[Group]) -> Result<(), PrintAnswer>
    ensures { Adds words.old words.new result (groups_words (map declared_of all.now)) }
{
    match all.split_first() {
        None => Ok(()),
        Some((first, rest)) => {
            group(words, first)?;
            further_groups(words, rest)
        }
    }
}

/// Groups, each behind `;`.
fn further_groups(words: &mut Words, all: &[Group]) -> Result<(), PrintAnswer>
    ensures { Adds words.old words.new result (further group_words (mark (codes ";")) (map declared_of all.now)) }
{
    for one in all {
        words.word(b";")?;
        group(words, one)?;
    }
    Ok(())
}

/// Parameters in braces, where there are any.
fn params(words: &mut Words, all: &[Group]) -> Result<(), PrintAnswer>
    ensures { Adds words.old words.new result (params_words (map declared_of all.now)) }
{
    if all.is_empty() {
        return Ok(());
    }
    words.word(b"{")?;
    groups(words, all)?;
    words.word(b"}")
}

/// Pragmas, where there are any.
fn pragmas(words: &mut Words, all: &[RunOn]) -> Result<(), PrintAnswer>
    ensures { Adds words.old words.new result (pragmas_words (map placement_of all.now)) }
{
    if all.is_empty() {
        return Ok(());
    }
    words.line(b"pragmas")?;
    each_pragma(words, all)?;
    words.word(b"end")?;
    words.word(b"pragmas")
}

/// Each of these pragmas.
fn each_pragma(words: &mut Words, all: &[RunOn]) -> Result<(), PrintAnswer>
    ensures { Adds words.old words.new result (flat_map pragma_words (map placement_of all.now)) }
{
    for one in all {
        pragma(words, one)?;
    }
    Ok(())
}

/// `RunOn`, names in braces, and the label.
fn pragma(words: &mut Words, one: &RunOn) -> Result<(), PrintAnswer>
    ensures { Adds words.old words.new result (pragma_words (placement_of one.now)) }
{
    words.word(b"RunOn")?;
    words.word(b"{")?;
    names(words, &one.names)?;
    words.word(b"}")?;
    words.label(one.label.as_bytes())
}

/// The heading of a process, up to its pragmas.
fn heading(words: &mut Words, one: &Process) -> Result<(), PrintAnswer>
    ensures { Adds words.old words.new result (heading_words (heading_in (model_of one.now))) }
{
    words.line(b"process")?;
    words.word(one.name.text.as_bytes())?;
    words.word(b"=")?;
    params(words, &one.params)?;
    words.word(b"(")?;
    words.word(b"?")?;
    groups(words, &one.inputs)?;
    words.word(b"!")?;
    groups(words, &one.outputs)?;
    words.word(b")")
}

/// The local groups, each with its `;`.
fn locals(words: &mut Words, all: &[Group]) -> Result<(), PrintAnswer>
    ensures { Adds words.old words.new result (local_words (map declared_of all.now)) }
{
    for one in all {
        group(words, one)?;
        words.word(b";")?;
    }
    Ok(())
}

/// A process.
#[cycle(process)]
fn process(words: &mut Words, one: &Process) -> Result<(), PrintAnswer>
    ensures { Adds words.old words.new result (process_words (model_of one.now)) }
{
    heading(words, one)?;
    pragmas(words, &one.run_on)?;
    body(words, &one.body)?;
    declarations(words, &one.locals, &one.inner)?;
    words.word(b";")
}

/// What is declared after `where`, where there is anything.
#[cycle(process)]
fn declarations(words: &mut Words, groups: &[Group], inner: &[Process]) -> Result<(), PrintAnswer>
    ensures { Adds words.old words.new result
        (where_words (map declared_of groups.now) (flat_map process_words (map model_of inner.now))) }
{
    if groups.is_empty() && inner.is_empty() {
        return Ok(());
    }
    words.line(b"where")?;
    locals(words, groups)?;
    processes(words, inner)?;
    words.word(b"end")
}

/// Processes, one after another.
#[cycle(process)]
fn processes(words: &mut Words, all: &[Process]) -> Result<(), PrintAnswer>
    ensures { Adds words.old words.new result (flat_map process_words (map model_of all.now)) }
{
    for one in all {
        process(words, one)?;
    }
    Ok(())
}

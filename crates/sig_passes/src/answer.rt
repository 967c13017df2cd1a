//! What comes of a row.

ghost use Rattle.std.specs.Prelude.{All};
ghost use Rattle.sig_dd.specs.Nodes.{Holds};

use anyhow::Result;
use sig_dd::{Ref, Store};
use sig_rows_clocks::write_clock_row;
use sig_rows_files::write_file_row;
use sig_rows_plans::write_plan_row;
use sig_rows_text::write_text_row;
use std::alloc::Global;

/// The answer to the words of a row.
pub(crate) fn answer(
    alloc: Global,
    store: &mut Store,
    refs: &mut Vec<Ref>,
    program: &[u8],
    words: &str,
) -> Result<String>
    requires { All (λ f. Holds store.old.nodes f) refs.old.items }
    ensures { All (λ f. Holds store.new.nodes f) refs.new.items }
{
    let mut out = String::new(alloc);
    write_answer(alloc, &mut out, store, refs, program, words)?;
    Ok(out)
}

/// Adds the answer to the words of a row, of which the first is its kind.
fn write_answer(
    alloc: Global,
    out: &mut String,
    store: &mut Store,
    refs: &mut Vec<Ref>,
    program: &[u8],
    words: &str,
) -> Result<()>
    requires { All (λ f. Holds store.old.nodes f) refs.old.items }
    ensures { All (λ f. Holds store.new.nodes f) refs.new.items }
{
    let (kind, text) = words.split_once(' ').unwrap_or((words, ""));
    match (kind, text) {
        ("plan" | "split", _) | ("line", "back") => {
            write_plan_row(alloc, out, program, kind, text)
        }
        ("put" | "events" | "flows" | "trace" | "judge", _)
        | ("built" | "image" | "cuts" | "set" | "exec", _)
        | ("line", "file") => write_file_row(alloc, out, program, kind, text),
        ("line" | "tokens" | "neighbours" | "labels" | "parse" | "tree" | "print" | "parts", _)
        | ("texts" | "processes" | "read" | "types" | "kinds" | "inline", _)
        | ("kernel" | "forms" | "undefined" | "front" | "valid" | "fits" | "words", _) => {
            write_text_row(alloc, out, kind, text)
        }
        _ => write_clock_row(alloc, out, store, refs, program, words),
    }
}

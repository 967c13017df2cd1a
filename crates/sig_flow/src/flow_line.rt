//! One line of a flow file: the name of an input, and its next values.

ghost use Rattle.std.specs.Prelude.{◌≡◌, ◌≤◌, ◌<◌, ◌+◌, ◌++◌, ◌∷◌, ◌^◌, ◌⊎◌};
ghost use Rattle.sig_flow.specs.Prelude.{ℕ, [], None, Some, bytes_eq, length, map, slice_index_or, sum_by, OnOk, IfOk, IfErr, IfSome, IfNone, IsDistinct, Signal};
ghost use Rattle.sig_flow.specs.First.{first_fault};
ghost use Rattle.sig_flow.specs.Flows.{text_fault, value_judge, values_for, values_of, word_fault, words_count, words_fault};
ghost use Rattle.sig_flow.specs.NextWords.{word_of, words_behind};
ghost use Rattle.sig_flow.specs.Values.{run_length, run_said, run_values};
ghost use Rattle.sig_flow.specs.Words.{words_from, words_of};
ghost use Rattle.sig_flow.specs.declared.answer.FlowAnswer.TheVariants.{OutOfMemory};

use crate::answer::FlowAnswer;
use crate::named::{is_clean, is_name};
use crate::names::Names;
use crate::value::{Run, WordFault, run_of};
use crate::version::Version;
use crate::word::{Next, next_number, next_truth, next_word};
use sig_base::limits::VALUES;
use sig_base::{Kind, Signal};
use sig_kernel::Flow;
use std::alloc::AllocError;

/// Where a line stands: in a file of this version, as its line of this number, behind so many values.
#[derive(Clone, Copy)]
pub struct Context {
    pub version: Version,
    pub number: usize,
    pub before: usize,
}

/// Appends the values of a line to the flow of its input, and answers the number of all values so far.
/// A line whose words are good holds no other bytes than a line may, so only one with a fault is
/// looked at for them.
pub fn read_line(
    line: &[u8],
    context: Context,
    names: &Names,
    inputs: &[Signal],
    flows: &mut [Flow],
) -> Result<usize, FlowAnswer>
    requires names { names.now ≡ inputs.now }
    requires same_length { length flows.old ≡ length inputs.now }
    requires differ { IsDistinct bytes_eq (map (λ input. input.name) inputs.now) }
    requires few { context.before ≤ VALUES }
    requires short { length line.now + 1 < 2 ^ 64 }
    ensures good { OnOk result (text_fault context.version inputs.now context.number context.before line.now ≡ None) }
    ensures counted { IfOk result (λ n. n ≡ context.before + words_count context.version inputs.now (words_of line.now)) }
    ensures few { IfOk result (λ n. n ≤ VALUES) }
    ensures flows { OnOk result ((k : ℕ) (d : Signal) → k < length inputs.now →
        slice_index_or flows.new k []
        ≡ slice_index_or flows.old k [] ++ values_for context.version (slice_index_or inputs.now k d) (words_of line.now)) }
    ensures fault { IfErr result (λ answer. (answer ≡ OutOfMemory)
        ⊎ (text_fault context.version inputs.now context.number context.before line.now ≡ Some answer)) }
{
    let Some(name) = next_word(line, 1) else {
        return Ok(context.before);
    };
    match read_words(name, context, names, inputs, flows) {
        Ok(count) => Ok(count),
        Err(fault) if is_clean(line) => Err(fault),
        Err(_) => Err(FlowAnswer::BadLine(context.number)),
    }
}

/// Appends the values behind the name of an input to its flow.
fn read_words(
    name: Next,
    context: Context,
    names: &Names,
    inputs: &[Signal],
    flows: &mut [Flow],
) -> Result<usize, FlowAnswer>
    requires names { names.now ≡ inputs.now }
    requires same_length { length flows.old ≡ length inputs.now }
    requires differ { IsDistinct bytes_eq (map (λ input. input.name) inputs.now) }
    requires few { context.before ≤ VALUES }
    requires short { name.col + length name.word.now + length name.rest.now < 2 ^ 64 }
    ensures good { OnOk result (words_fault context.version inputs.now context.number context.before
        (word_of name.entry ∷ words_behind name.entry) ≡ None) }
    ensures counted { IfOk result (λ n. n
        ≡ context.before + words_count context.version inputs.now (word_of name.entry ∷ words_behind name.entry)) }
    ensures few { IfOk result (λ n. n ≤ VALUES) }
    ensures flows { OnOk result ((k : ℕ) (d : Signal) → k < length inputs.now →
        slice_index_or flows.new k []
        ≡ slice_index_or flows.old k []
        ++ values_for context.version (slice_index_or inputs.now k d) (word_of name.entry ∷ words_behind name.entry)) }
    ensures fault { IfErr result (λ answer. (answer ≡ OutOfMemory)
        ⊎ (words_fault context.version inputs.now context.number context.before
        (word_of name.entry ∷ words_behind name.entry) ≡ Some answer)) }
{
    if !is_name(name.word) {
        return Err(FlowAnswer::BadLine(context.number));
    }
    match names.find(name.word) {
        Some(i) => read_values(
            name.rest,
            name.col + name.word.len(),
            context,
            inputs[i].kind,
            &mut flows[i],
        ),
        None => Err(FlowAnswer::NotAnInput(context.number)),
    }
}

/// Appends the values of the words of a line whose first byte stands at this column.
fn read_values(
    line: &[u8],
    col: usize,
    context: Context,
    kind: Kind,
    flow: &mut Flow,
) -> Result<usize, FlowAnswer>
    requires few { context.before ≤ VALUES }
    requires short { col + length line.now < 2 ^ 64 }
    ensures good { OnOk result (first_fault (value_judge context.version kind context.number) context.before (words_from col line.now) ≡ None) }
    ensures counted { IfOk result (λ n. n ≡ context.before + sum_by (value_judge context.version kind 0).size (words_from col line.now)) }
    ensures few { IfOk result (λ n. n ≤ VALUES) }
    ensures flow { OnOk result (flow.new ≡ flow.old ++ values_of context.version kind (words_from col line.now)) }
    ensures fault { IfErr result (λ answer. (answer ≡ OutOfMemory)
        ⊎ (first_fault (value_judge context.version kind context.number) context.before (words_from col line.now) ≡ Some answer)) }
{
    make_room(flow, line.len(), context.before)?;
    let mut rest = line;
    let mut col = col;
    let mut before = context.before;
    while let Some((next, run)) = next_run(rest, col, context.version, kind) {
        before = add_run(run, next.col, Context { before, ..context }, flow)?;
        col = next.col + next.word.len();
        rest = next.rest;
    }
    Ok(before)
}

/// Makes room for the values of this many bytes, behind so many values.
fn make_room(flow: &mut Flow, bytes: usize, before: usize) -> Result<(), AllocError>
    requires { before ≤ VALUES }
    ensures { OnOk result (flow.new ≡ flow.old) }
{
    flow.values.reserve((bytes / 2).min(VALUES - before))
}

/// The first word of a line whose first byte stands at this column, and what it stands for. A short
/// number and a truth are looked at once.
#[inline(always)]
fn next_run(
    line: &[u8],
    col: usize,
    version: Version,
    kind: Kind,
) -> Option<(Next, Result<Run, WordFault>)>
    requires { col + length line.now < 2 ^ 64 }
    ensures none { IfNone result (words_from col line.now ≡ []) }
    ensures word { IfSome result (λ p. words_from col line.now ≡ word_of p.0 ∷ words_behind p.0) }
    ensures run { IfSome result (λ p. p.1 ≡ run_said version kind p.0.word.now) }
    ensures shorter { IfSome result (λ p. length p.0.rest.now < length line.now) }
    ensures within { IfSome result (λ p. p.0.col + length p.0.word.now + length p.0.rest.now ≤ col + length line.now) }
{
    if kind == Kind::Integer {
        if let Some((next, number)) = next_number(line, col) {
            let run = Run {
                value: number as i64,
                times: 1,
            };
            return Some((next, Ok(run)));
        }
    } else if let Some((next, truth)) = next_truth(line, col) {
        if truth || kind == Kind::Boolean {
            let run = Run {
                value: i64::from(truth),
                times: 1,
            };
            return Some((next, Ok(run)));
        }
    }
    match next_word(line, col) {
        Some(next) => Some((next, run_of(next.word, version, kind))),
        None => None,
    }
}

/// Appends the values that a word at this column stands for.
#[inline(always)]
fn add_run(
    run: Result<Run, WordFault>,
    col: usize,
    context: Context,
    flow: &mut Flow,
) -> Result<usize, FlowAnswer>
    requires { context.before ≤ VALUES }
    ensures good { OnOk result (word_fault context.number context.before col run ≡ None) }
    ensures counted { IfOk result (λ n. n ≡ context.before + run_length run) }
    ensures few { IfOk result (λ n. n ≤ VALUES) }
    ensures flow { OnOk result (flow.new ≡ flow.old ++ run_values run) }
    ensures fault { IfErr result (λ answer. (answer ≡ OutOfMemory)
        ⊎ (word_fault context.number context.before col run ≡ Some answer)) }
{
    match run {
        Ok(run) => {
            let count = context.before + run.times as usize;
            if count > VALUES {
                return Err(FlowAnswer::TooMany(VALUES));
            }
            append(flow, run)?;
            Ok(count)
        }
        Err(WordFault::Bad) => Err(FlowAnswer::BadValue(context.number, col)),
        Err(WordFault::Outside) => Err(FlowAnswer::OutOfRange(context.number, col)),
    }
}

/// Appends a value, so many times.
#[inline(always)]
fn append(flow: &mut Flow, run: Run) -> Result<(), AllocError>
    ensures { OnOk result (flow.new ≡ flow.old ++ run_values (Ok run)) }
{
    if run.times == 1 {
        flow.values.push(run.value)?;
        return Ok(());
    }
    let length = flow.values.len() + run.times as usize;
    flow.values.resize(length, run.value)
}

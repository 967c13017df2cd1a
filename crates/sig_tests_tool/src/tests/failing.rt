//! Calls of the files and of the output that fail.

use super::calls::{Streams, answer, call_of, compare};
use super::*;

/// Calls of SUM and of TWO, with each call of the files failing in turn. The program is read by the calls 1 to 3, and the
/// flow file by those up to 6.
#[test]
fn each_call_of_the_files_may_fail(rt: HostRuntime) -> Result<(), Fail> {
    for number in 1..=7u32 {
        let wanted = match number {
            1..=3 => (5, "", "error: P: read failed\n"),
            4..=6 => (5, "", "error: F: read failed\n"),
            _ => (0, TWO_TEXT, "end: input B exhausted after 3 instants\n"),
        };
        let line = "run P F --capacity 1 --workers 2";
        fail_read(&rt, line, TWO, TWO_FLOWS, number, wanted)?;
        if number < 7 {
            fail_read(&rt, "run P F", SUM, "A 1\nB 1", number, wanted)?;
        }
    }
    Ok(())
}

/// Calls a line with this call of the files failing.
fn fail_read<R: Threads + Wait + Sync + AllocGlobal>(
    rt: &R,
    line: &str,
    program: &str,
    flows: &str,
    number: u32,
    wanted: (u8, &str, &str),
) -> Result<(), Fail> {
    let mut streams = call_of(rt.alloc(), program, flows)?;
    streams.files.fail_at(number)?;
    let status = answer(rt, line, &ANY, &mut streams)?;
    compare(line, &streams, status, wanted)
}

/// No more is asked for than is needed: the call behind the last one that is needed fails where it is made.
#[test]
fn nothing_more_is_asked_for(rt: HostRuntime) -> Result<(), Fail> {
    let words = (2, "", "error: these words are not a command\n");
    ask(&rt, "run P", 1, words)?;
    ask(&rt, "run P F", 4, (1, "", "error 1:1: syntax\n"))?;
    ask(&rt, "run Q F", 2, (5, "", "error: Q: not found\n"))
}

/// Calls a line over no program with this call of the files and the first one of the output failing, which must not be
/// made.
fn ask<R: Threads + Wait + Sync + AllocGlobal>(
    rt: &R,
    line: &str,
    number: u32,
    wanted: (u8, &str, &str),
) -> Result<(), Fail> {
    let mut streams = call_of(rt.alloc(), "no program", "A 1")?;
    streams.files.fail_at(number)?;
    streams.out.fail_at(1)?;
    let status = answer(rt, line, &ANY, &mut streams)?;
    if streams.files.begin("P") != Begun::Failed || streams.out.flush() != Err(WriteFault) {
        return Err(Fail::new(format_args!("{line} asks for more")));
    }
    compare(line, &streams, status, wanted)
}

/// Without a text the first call of the sink is the flush.
#[test]
fn a_flush_may_fail(rt: HostRuntime) -> Result<(), Fail> {
    let mut streams = call_of(rt.alloc(), SUM, "")?;
    streams.out.fail_at(1)?;
    let status = answer(&rt, "run P F", &ANY, &mut streams)?;
    compare(
        "run P F",
        &streams,
        status,
        (6, "", "error: write failed\n"),
    )
}

/// Calls a line with this call of the sink failing, and tells whether the text is whole; nothing where no call failed,
/// which must be so behind a whole text alone.
fn fail_at<R: Threads + Wait + Sync + AllocGlobal>(
    rt: &R,
    line: &str,
    number: u32,
    (program, flows, text): (&str, &str, &str),
    whole: bool,
) -> Result<Option<bool>, Fail> {
    let mut streams = call_of(rt.alloc(), program, flows)?;
    streams.out.fail_at(number)?;
    let status = answer(rt, line, &ANY, &mut streams)?;
    let is_whole = streams.out.bytes() == text.as_bytes();
    if is_cut(status, text, whole, &streams) {
        return Ok(Some(is_whole));
    }
    if status == 0 && whole && is_whole {
        return Ok(None);
    }
    Err(Fail::new(format_args!("{line}, call {number}: {status}")))
}

/// Whether a call failed and said so, and what was written begins a text that was not whole before.
fn is_cut(status: u8, text: &str, whole: bool, streams: &Streams) -> bool {
    status == 6
        && !whole
        && streams.err.bytes() == b"error: write failed\n".as_slice()
        && text.as_bytes().starts_with(streams.out.bytes())
}

/// A line with each call of the sink failing in turn. Only behind the last write the text is whole.
fn fail_each<R: Threads + Wait + Sync + AllocGlobal>(
    rt: &R,
    line: &str,
    texts: (&str, &str, &str),
) -> Result<(), Fail> {
    let mut whole = false;
    for number in 1..200u32 {
        match fail_at(rt, line, number, texts, whole)? {
            Some(is_whole) => whole = is_whole,
            None => return Ok(()),
        }
    }
    Err(Fail::from("the calls of the sink do not end"))
}

/// Each write and flush fails in turn, up to one that is not made, without workers and with two.
#[test]
fn each_call_of_the_sink_may_fail(rt: HostRuntime) -> Result<(), Fail> {
    let sum = (SUM, "A 1 2 3\nB 10 20", "Y 11\nY 22\n");
    let two = (TWO, TWO_FLOWS, TWO_TEXT);
    for line in [
        "run P F --capacity 1 --workers 0",
        "run P F --capacity 1 --workers 2",
    ] {
        fail_each(&rt, line, sum)?;
        fail_each(&rt, line, two)?;
    }
    Ok(())
}

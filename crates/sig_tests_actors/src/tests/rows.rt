//! The rows: programs, what is asked of them, and what is told. One that fails is told by its number, counted from 0.
//!
//! A row begins with a line `$ WORDS` that tells what is asked for. Below it stand the program, the text of a flow file
//! and what must be told, with a line `=` between them:
//!
//! - `run ROOM LIMIT [WORKERS]`: the end of a run up to a limit, and the text in a sink with so much room. Where workers
//!   are told it is one with workers over links of one item, and else one on this thread.
//! - `events ROOM EVENT..`: what events do over links of one item, each the act of an actor or with L its look. Of each
//!   is told whether it changed the state; then the length of the text, the state of each actor and how many items the
//!   link of this number holds, and the failure word; then the end of the run from there, with the text, and what a
//!   second run to the end adds in a sink of its own.
//! - `steps ROOM`: how many conditions the guards of the slots of the first actor need; then what a thousand steps of
//!   this actor answer, each answer that is not that of the step before with the next place and whether the actor has
//!   ended, over links that have room for so many items together and none to give; the cause at the next step; whether a
//!   look at the next place ends the actor, whether one at a place before does, and whether it has ended; and the items
//!   that were sent, each behind its link.
//!
//! Two programs are LOOP, two clusters, of which each takes what the other sends, and TWO, two clusters that share
//! nothing. The signals of DOWN, a countdown, are A, Y, ZY, and those of `-`, `<=` and `when`.
//!
//! The first row of events has an end in the midst of a reaction; in the second a full link holds its writer. In the next
//! two the product of A is recorded first or last: the cause is that B has no value, whose place is earlier. Then come
//! events of no actor and looks at an empty word, which change nothing. In the last one the reaction that the sink did
//! not take has happened, and is not appended again.
//!
//! The instants of DOWN are those of Y, which goes to link 0; link 1 has the condition, and link 2 the reports. At the
//! eighth its input has no value. Its guards are the constant, the clock of A, and that of Y without it. What a count of
//! walks rises by in an instant is what these need together, which is 2: the first is the parent of the others, and a
//! walk of each of these asks for one condition. In the last row the report of the first instant finds no room: the
//! actor stays before it, and a look at a place before ends it.

use super::events::happened;
use super::loaded::{loaded, number};
use super::runs::ran;
use super::steps::stepped;
use std::marker::Brand;
use std::sync::Wait;
use std::sync::ledger::Blank;
use std::test::Fail;
use std::thread::Threads;

/// What a row tells.
fn told<R: Threads + Wait + Sync + AllocGlobal>(
    rt: &R,
    words: &str,
    program: &str,
    flows: &str,
) -> Result<String, Fail> {
    let alloc = rt.alloc();
    let (plan, inputs) = loaded(alloc, program.as_bytes(), flows.as_bytes())?;
    let (ask, rest) = words.split_once(' ').unwrap_or((words, ""));
    let (first, others) = rest.split_once(' ').unwrap_or((rest, ""));
    let room = number(Some(first));
    match ask {
        "steps" => stepped::<Brand>(alloc, &plan, &inputs, room, Blank::new(1)),
        "events" => happened(alloc, &plan, &inputs, room, others),
        _ => {
            let mut words = others.split_whitespace();
            let limit = number(words.next());
            ran(rt, &plan, &inputs, limit, room, words.next())
        }
    }
}

/// Compares what each row tells with what it must.
fn check<R: Threads + Wait + Sync + AllocGlobal>(rt: &R) -> Result<(), Fail> {
    for (number, row) in ROWS.split("\n$ ").skip(1).enumerate() {
        let (head, rest) = row.split_once("\n=\n").unwrap_or((row, ""));
        let (words, program) = head.split_once('\n').unwrap_or((head, ""));
        let (flows, wanted) = rest.split_once("\n=\n").unwrap_or((rest, ""));
        let text = told(rt, words, program, flows)?;
        if !text.lines().eq(wanted.lines()) {
            return Err(Fail::new(format_args!("ROWS, row {number}: {text}")));
        }
    }
    Ok(())
}

#[test]
fn runs_and_steps_are_right(rt: HostRuntime) -> Result<(), Fail> {
    check(&rt)
}

const ROWS: &str = r#"
$ run 100 9
process DOWN = (? integer A ! integer Y) (| Y := A default (ZY - 1) | ZY := Y $ init 0 | A ^= when (ZY <= 0) |) where integer ZY; end;
=
A 2 1
=
Ok(Ended { instants: 5, cause: Exhausted(SigId(0)) }) "Y 2\nY 1\nY 0\nY 1\nY 0\n"
$ run 100 3
process DOWN = (? integer A ! integer Y) (| Y := A default (ZY - 1) | ZY := Y $ init 0 | A ^= when (ZY <= 0) |) where integer ZY; end;
=
A 2 1
=
Ok(Ended { instants: 3, cause: Limit }) "Y 2\nY 1\nY 0\n"
$ run 6 9
process DOWN = (? integer A ! integer Y) (| Y := A default (ZY - 1) | ZY := Y $ init 0 | A ^= when (ZY <= 0) |) where integer ZY; end;
=
A 2 1
=
Err(WriteFault) "Y 2\nY "
$ run 100 9 0
process LOOP = (? integer A ! integer Y) pragmas RunOn {M} "1" end pragmas (| M := A * 2 | Y := M + A |) where integer M; end;
=
A 1 2 3
=
Ok(Ended { instants: 3, cause: Exhausted(SigId(0)) }) "Y 3\nY 6\nY 9\n"
$ run 100 9 2
process LOOP = (? integer A ! integer Y) pragmas RunOn {M} "1" end pragmas (| M := A * 2 | Y := M + A |) where integer M; end;
=
A 1 2 3
=
Ok(Ended { instants: 3, cause: Exhausted(SigId(0)) }) "Y 3\nY 6\nY 9\n"
$ events 1000 1 0 0 0 0 0 0 0 0 1 1 7
process SUM = (? integer A, B ! integer Y) Y := A + B;
=
A 1 2
B 10
=
1 false;0 true;0 true;0 true;0 true;0 true;0 true;0 true;0 false;1 true;1 true;7 false;
0
0 (Some(ActorState { instant: 2, step: 1, ended: true }), Some(0))
1 (Some(ActorState { instant: 1, step: 2, ended: false }), Some(0))
Some(Place { instant: 2, pos: 2 })
Ok(Ended { instants: 1, cause: Exhausted(SigId(1)) }) "Y 11\n"
Ok(Ended { instants: 1, cause: Exhausted(SigId(1)) }) ""
$ events 1000 0 0 0 0 0 0 0 0 0 0
process SUM = (? integer A, B ! integer Y) Y := A + B;
=
A 1 2
B 10 20
=
0 true;0 true;0 true;0 true;0 true;0 true;0 true;0 true;0 false;0 false;
0
0 (Some(ActorState { instant: 2, step: 3, ended: false }), Some(1))
1 (Some(ActorState { instant: 1, step: 0, ended: false }), Some(1))
None
Ok(Ended { instants: 2, cause: Exhausted(SigId(0)) }) "Y 11\nY 22\n"
Ok(Ended { instants: 2, cause: Exhausted(SigId(0)) }) ""
$ events 1000 0 0 1
process TWO = (? integer A, B ! integer Y, Z) pragmas RunOn {B, Z} "1" end pragmas (| Y := A * A | Z := B + 1 | A ^= B |);
=
A 4000000000
=
0 true;0 true;1 true;
0
0 (Some(ActorState { instant: 1, step: 1, ended: true }), Some(0))
1 (Some(ActorState { instant: 1, step: 0, ended: true }), Some(0))
2 (Some(ActorState { instant: 1, step: 0, ended: false }), Some(0))
3 (None, Some(0))
Some(Place { instant: 1, pos: 2 })
Ok(Ended { instants: 0, cause: Exhausted(SigId(1)) }) ""
Ok(Ended { instants: 0, cause: Exhausted(SigId(1)) }) ""
$ events 1000 1 0 0
process TWO = (? integer A, B ! integer Y, Z) pragmas RunOn {B, Z} "1" end pragmas (| Y := A * A | Z := B + 1 | A ^= B |);
=
A 4000000000
=
1 true;0 true;0 true;
0
0 (Some(ActorState { instant: 1, step: 1, ended: true }), Some(0))
1 (Some(ActorState { instant: 1, step: 0, ended: true }), Some(0))
2 (Some(ActorState { instant: 1, step: 0, ended: false }), Some(0))
3 (None, Some(0))
Some(Place { instant: 1, pos: 2 })
Ok(Ended { instants: 0, cause: Exhausted(SigId(1)) }) ""
Ok(Ended { instants: 0, cause: Exhausted(SigId(1)) }) ""
$ events 1000 L0 L9 999999999
process SUM = (? integer A, B ! integer Y) Y := A + B;
=
A 1 2
B 10 20
=
L0 false;L9 false;999999999 false;
0
0 (Some(ActorState { instant: 1, step: 0, ended: false }), Some(0))
1 (Some(ActorState { instant: 1, step: 0, ended: false }), Some(0))
None
Ok(Ended { instants: 2, cause: Exhausted(SigId(0)) }) "Y 11\nY 22\n"
Ok(Ended { instants: 2, cause: Exhausted(SigId(0)) }) ""
$ events 3
process SUM = (? integer A, B ! integer Y) Y := A + B;
=
A 1 2
B 10 20
=

0
0 (Some(ActorState { instant: 1, step: 0, ended: false }), Some(0))
1 (Some(ActorState { instant: 1, step: 0, ended: false }), Some(0))
None
Err(WriteFault) "Y 1"
Ok(Ended { instants: 2, cause: Exhausted(SigId(0)) }) "Y 22\n"
$ steps 100
process DOWN = (? integer A ! integer Y) (| Y := A default (ZY - 1) | ZY := Y $ init 0 | A ^= when (ZY <= 0) |) where integer ZY; end;
=
A 3 2
=
0 needs 0;1 needs 1;2 needs 1;
Failed(Place { instant: 8, pos: 6 }) Place { instant: 8, pos: 6 } true
Stopped Place { instant: 8, pos: 6 } true
Exhausted(SigId(0))
false false true
[(1, 1), (0, 3), (2, 0), (1, 0), (0, 2), (2, 0), (1, 0), (0, 1), (2, 0), (1, 0), (0, 0), (2, 0), (1, 1), (0, 2), (2, 0), (1, 0), (0, 1), (2, 0), (1, 0), (0, 0), (2, 0), (1, 1)]
$ steps 2
process DOWN = (? integer A ! integer Y) (| Y := A default (ZY - 1) | ZY := Y $ init 0 | A ^= when (ZY <= 0) |) where integer ZY; end;
=
A 3 2
=
0 needs 0;1 needs 1;2 needs 1;
Full(2) Place { instant: 1, pos: 16 } false
Limit
false true true
[(1, 1), (0, 3)]
"#;

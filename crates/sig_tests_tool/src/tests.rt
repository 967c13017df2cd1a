//! Calls of the top call over files and sinks in memory that no row can tell: with gates, and with calls that fail. What
//! a call writes and answers is told by the rows of tests/rows/commands.

use calls::{call_of, status_of};
use sig_text::{Begun, Files, Gate, MemAnswer, MemFiles, MemSink, Sink, WriteFault};
use sig_tool::sig_main;
use std::alloc::{AllocError, Global};
use std::sync::Wait;
use std::sync::atomic::{AtomicU64, Ordering};
use std::test::Fail;
use std::thread::Threads;

mod calls;
mod failing;
mod gate;
mod passes;

const SUM: &str = "process SUM = (? integer A, B ! integer Y) Y := A + B;";

/// Two clusters that share nothing.
const TWO: &str =
    "process TWO = (? integer A, B ! integer Y, Z) pragmas RunOn {B, Z} \"1\" end pragmas\n(| Y := A + 1 | Z := B + 1 | A ^= B |);";

const TWO_FLOWS: &str = "A 1 2 3 4 5 6\nB 10 20 30";

const TWO_TEXT: &str = "Y 2\nZ 11\nY 3\nZ 21\nY 4\nZ 31\n";

/// Limits of passes: any, and none.
const ANY: [(u64, u64); 5] = [(0, u64::MAX); 5];

const NEVER: [(u64, u64); 5] = [(0, 0); 5];

//! Clusters that must run on threads of their own.

use super::calls::Streams;
use super::*;
use sig_text::Wrote;
use std::thread;

/// The turns after which a wait is given up: a test may not last so long.
const VAIN: u64 = 200_000_000;

/// The turns for which a cluster is held until the sink has a byte, if it gets one.
const HELD: u64 = 2_000_000;

/// The turns for which it is held then.
const HELD_ON: u64 = 1_000_000;

/// What is known of a cluster: how often it came to the gate, and at how many instants it returned from there.
#[derive(Drop)]
struct Party {
    came: AtomicU64,
    passed: AtomicU64,
}

/// A gate for the clusters 0 and 1, each of which passes at one instant after the other. At the first instant each
/// waits for the other, which it cannot do on the thread of the other. At the second the cluster 1 waits a while for a
/// byte of the sink, and then a while longer. That may be in vain: a thread that is held has perhaps not told yet the one
/// of the sink, which rests, that it has sent something.
#[derive(Drop)]
struct Meeting {
    parties: (Party, Party),
    taken: AtomicU64,
    failures: AtomicU64,
}

/// Where a text of two lines an instant stands: how many lines are whole, and whether one more is begun.
#[derive(Clone, Copy)]
struct Lines {
    whole: u64,
    begun: bool,
}

impl Party {
    fn new() -> Party {
        Party {
            came: AtomicU64::new(0),
            passed: AtomicU64::new(0),
        }
    }
}

/// Waits until a word is set, for so many turns at most, and tells whether it is.
fn comes(word: &AtomicU64, turns: u64) -> bool {
    for _ in 0..turns {
        if word.load(Ordering::SeqCst) > 0 {
            return true;
        }
        thread::yield_now();
    }
    false
}

impl Meeting {
    fn new() -> Meeting {
        Meeting {
            parties: (Party::new(), Party::new()),
            taken: AtomicU64::new(0),
            failures: AtomicU64::new(0),
        }
    }

    /// Waits for the other cluster, however long it is kept from a processor. A wait in vain fails the test.
    fn meet(&self, other: &Party) {
        if !comes(&other.came, VAIN) {
            self.failures.fetch_add(1, Ordering::SeqCst);
        }
    }

    /// The sink took this piece behind these lines. Where it has the first byte of an instant, both clusters must have
    /// passed there.
    fn take(&self, mut lines: Lines, piece: &[u8]) -> Lines {
        for byte in piece {
            if !lines.begun && lines.whole % 2 == 0 {
                let instant = lines.whole / 2 + 1;
                let first = self.parties.0.passed.load(Ordering::SeqCst);
                let second = self.parties.1.passed.load(Ordering::SeqCst);
                if first.min(second) < instant {
                    self.failures.fetch_add(1, Ordering::SeqCst);
                }
            }
            lines.begun = *byte != b'\n';
            if !lines.begun {
                lines.whole = lines.whole.saturating_add(1);
            }
        }
        if !piece.is_empty() {
            self.taken.store(1, Ordering::SeqCst);
        }
        lines
    }
}

impl Gate for Meeting {
    fn pass(&self, cluster: u32, instant: u32) {
        let (own, other) = match cluster {
            0 => (&self.parties.0, &self.parties.1),
            _ => (&self.parties.1, &self.parties.0),
        };
        let before = own.came.fetch_add(1, Ordering::SeqCst);
        if cluster > 1 || before.saturating_add(1) != u64::from(instant) {
            self.failures.fetch_add(1, Ordering::SeqCst);
        }
        if instant == 1 {
            self.meet(other);
        } else if cluster == 1 && instant == 2 {
            comes(&self.taken, HELD);
            for _ in 0..HELD_ON {
                self.taken.load(Ordering::SeqCst);
            }
        }
        own.passed.store(u64::from(instant), Ordering::SeqCst);
    }
}

/// A sink that tells the gate of its bytes.
#[derive(Drop)]
struct Told<'a, S> {
    sink: S,
    meeting: &'a Meeting,
    lines: Lines,
}

/// A sink in memory that tells this gate.
fn told_of<'a>(alloc: Global, meeting: &'a Meeting) -> Result<Told<'a, MemSink>, MemAnswer> {
    Ok(Told {
        sink: MemSink::new(alloc, 5000)?,
        meeting,
        lines: Lines {
            whole: 0,
            begun: false,
        },
    })
}

impl<'a, S: Sink> Sink for Told<'a, S> {
    ghost took = { λ a bytes b. S.took a.sink bytes b.sink };

    ghost faults = { λ told. S.faults told.sink };

    ghost clean = { λ told. S.clean told.sink };

    fn write(&mut self, piece: &[u8]) -> Wrote {
        let wrote = self.sink.write(piece);
        if let Wrote::Took(count) = wrote {
            self.lines = self.meeting.take(self.lines, &piece[..count]);
        }
        wrote
    }

    fn flush(&mut self) -> Result<(), WriteFault> {
        self.sink.flush()
    }

    ghost took_nothing = { λ told. S.took_nothing told.sink };

    ghost took_both = { λ first middle last bytes more. S.took_both first.sink middle.sink last.sink bytes more };
}

/// The run of TWO on two threads, one of them the collector's, into this sink.
fn run_two<R: Threads + Wait + Sync + AllocGlobal, S: Sink>(
    rt: &R,
    out: &mut S,
    meeting: &Meeting,
) -> Result<(), Fail> {
    let mut streams = call_of(rt.alloc(), TWO, TWO_FLOWS)?;
    run_over(rt, &mut streams, out, meeting)
}

/// The same, over these files and this standard error.
fn run_over<R: Threads + Wait + Sync + AllocGlobal, S: Sink>(
    rt: &R,
    streams: &mut Streams,
    out: &mut S,
    meeting: &Meeting,
) -> Result<(), Fail> {
    let line = "run P F --capacity 1 --workers 2";
    let (files, err) = (&mut streams.files, &mut streams.err);
    let status = status_of(rt, line, files, out, err, meeting)?;
    let failures = meeting.failures.load(Ordering::SeqCst);
    let is_said = streams.err.bytes() == b"end: input B exhausted after 3 instants\n".as_slice();
    if status == 0 && failures == 0 && is_said {
        return Ok(());
    }
    Err(Fail::new(format_args!("status {status}, {failures} failures")))
}

/// Two clusters run on two threads, one of them the collector's, instant by instant.
#[test]
fn gate_two(rt: HostRuntime) -> Result<(), Fail> {
    let meeting = Meeting::new();
    let mut out = told_of(rt.alloc(), &meeting)?;
    run_two(&rt, &mut out, &meeting)?;
    assert_eq!(rt; out.sink.bytes(), TWO_TEXT.as_bytes());
    Ok(())
}

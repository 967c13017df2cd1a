//! Calls of the top call over files and sinks in memory, with a gate that counts.

use super::*;

/// What a call reads and writes.
#[derive(Drop)]
pub struct Streams {
    pub files: MemFiles,
    pub out: MemSink,
    pub err: MemSink,
}

/// Books on the passes of a gate: how often each of the clusters 0 to 3 passed, and all others together, and how many
/// passes of those four were at an instant that is not the next one of their cluster.
#[derive(Drop)]
struct Books {
    passes: [AtomicU64; 5],
    wrong: AtomicU64,
}

impl Books {
    fn new() -> Books {
        Books {
            passes: [
                AtomicU64::new(0),
                AtomicU64::new(0),
                AtomicU64::new(0),
                AtomicU64::new(0),
                AtomicU64::new(0),
            ],
            wrong: AtomicU64::new(0),
        }
    }

    /// Whether each passed at least and at most so often, at one instant after the other.
    fn are(&self, limits: &[(u64, u64); 5]) -> bool {
        for (passed, (least, most)) in self.passes.iter().zip(limits) {
            let count = passed.load(Ordering::SeqCst);
            if count < *least || *most < count {
                return false;
            }
        }
        self.wrong.load(Ordering::SeqCst) == 0
    }
}

impl Gate for Books {
    fn pass(&self, cluster: u32, instant: u32) {
        let Some(passes) = self.passes.as_slice().get(cluster.min(4) as usize) else {
            return;
        };
        let before = passes.fetch_add(1, Ordering::SeqCst);
        if cluster < 4 && before.saturating_add(1) != u64::from(instant) {
            self.wrong.fetch_add(1, Ordering::SeqCst);
        }
    }
}

/// A program `P` and a flow file `F`, and room for the output and for standard error.
pub fn call_of(alloc: Global, program: &str, flows: &str) -> Result<Streams, MemAnswer> {
    let mut files = MemFiles::new(alloc);
    files.add("P", program.as_bytes())?;
    files.add("F", flows.as_bytes())?;
    Ok(Streams {
        files,
        out: MemSink::new(alloc, 5000)?,
        err: MemSink::new(alloc, 200)?,
    })
}

/// The words of a line.
fn words_of(alloc: Global, line: &str) -> Result<Vec<String>, AllocError> {
    let mut words = Vec::new(alloc);
    for word in line.split_whitespace() {
        words.push(String::from_str(alloc, word)?)?;
    }
    Ok(words)
}

/// The status of a call with these words.
pub fn status_of<
    R: Threads + Wait + Sync + AllocGlobal,
    F: Files,
    S: Sink,
    E: Sink,
    G: Gate + Sync,
>(rt: &R, line: &str, files: &mut F, out: &mut S, err: &mut E, gate: &G) -> Result<u8, AllocError> {
    let words = words_of(rt.alloc(), line)?;
    Ok(sig_main(rt, rt.alloc(), &words, files, out, err, gate))
}

/// The same over these streams. The clusters must pass the gate within these limits, and those of a call that is refused
/// not at all.
pub fn answer<R: Threads + Wait + Sync + AllocGlobal>(
    rt: &R,
    line: &str,
    limits: &[(u64, u64); 5],
    streams: &mut Streams,
) -> Result<u8, Fail> {
    let books = Books::new();
    let (files, out, err) = (&mut streams.files, &mut streams.out, &mut streams.err);
    let status = status_of(rt, line, files, out, err, &books)?;
    let limits = if matches!(status, 0 | 3 | 6) {
        limits
    } else {
        &NEVER
    };
    if !books.are(limits) {
        return Err(Fail::new(format_args!("passes of {line}")));
    }
    Ok(status)
}

/// Compares what a call answered and wrote.
pub fn compare(
    line: &str,
    streams: &Streams,
    found: u8,
    (status, out, err): (u8, &str, &str),
) -> Result<(), Fail> {
    let is_written = streams.out.bytes() == out.as_bytes();
    if found == status && is_written && streams.err.bytes() == err.as_bytes() {
        return Ok(());
    }
    let said = str::from_utf8(streams.err.bytes()).unwrap_or("");
    Err(Fail::new(format_args!("{line}: {found} {said}")))
}

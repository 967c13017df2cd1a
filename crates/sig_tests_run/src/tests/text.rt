//! Files and sinks in memory and of the operating system, with the answers that are expected.

use super::signals::{Interrupted, InterruptedFiles};
use sig_text::{
    Begun, Files, HostFiles, HostSink, MemFiles, MemSink, QuietSink, ReadAnswer, ReadStep, Sink,
    WriteFault, put_all, read_all,
};
use std::alloc::{AllocError, Global};
use std::io::{Error, ErrorKind, Write};
use std::test::Fail;
use std::{env, fs, io, process};

// A file of 100,000 bytes takes two reads, a third to see its end, and one call to begin.
const LONG: usize = 100_000;

fn long_text(alloc: Global) -> Result<Vec<u8>, AllocError> {
    vec![in alloc; b'a'; LONG]
}

fn two_files(alloc: Global) -> Result<MemFiles, Fail> {
    let mut files = MemFiles::new(alloc);
    files.add("five", b"earlier")?;
    files.add("five", b"12345")?;
    files.add("long", &long_text(alloc)?)?;
    Ok(files)
}

#[test]
fn reads_files_in_memory(rt: HostRuntime) -> Result<(), Fail> {
    let alloc = rt.alloc();
    let mut files = two_files(alloc)?;
    assert_eq!(rt;
        read_all(alloc, &mut files, "none", 9),
        Err(ReadAnswer::Missing)
    );
    assert_eq!(rt;
        read_all(alloc, &mut files, "five", 5)?.as_slice(),
        b"12345".as_slice()
    );
    assert_eq!(rt;
        read_all(alloc, &mut files, "five", 4),
        Err(ReadAnswer::TooLong(4))
    );
    assert_eq!(rt; read_all(alloc, &mut files, "long", LONG)?.len(), LONG);
    assert_eq!(rt;
        read_all(alloc, &mut files, "long", 99_999),
        Err(ReadAnswer::TooLong(99_999))
    );
    Ok(())
}

#[test]
fn fails_at_listed_reads(rt: HostRuntime) -> Result<(), Fail> {
    let alloc = rt.alloc();
    let listed = [
        (1, "five", 0),
        (2, "five", 1),
        (3, "long", 1),
        (4, "long", 0),
    ];
    for (call, name, left) in listed {
        let mut files = two_files(alloc)?;
        files.fail_at(call)?;
        assert_eq!(rt;
            read_all(alloc, &mut files, name, LONG),
            Err(ReadAnswer::ReadFault),
            "at {call}"
        );
        assert_eq!(rt; files.read(&mut [0]), ReadStep::Got(left), "after {call}");
        assert!(rt; read_all(alloc, &mut files, name, LONG).is_ok());
    }
    Ok(())
}

#[test]
fn fills_a_sink_in_memory(rt: HostRuntime) -> Result<(), Fail> {
    let mut short = MemSink::new(rt.alloc(), 5)?;
    assert_eq!(rt; put_all(&mut short, b"123"), Ok(()));
    assert_eq!(rt; put_all(&mut short, b"45678"), Err(WriteFault));
    assert_eq!(rt; put_all(&mut short, b""), Ok(()));
    assert_eq!(rt; short.bytes(), b"12345".as_slice());
    Ok(())
}

#[test]
fn a_sink_fails_at_listed_calls(rt: HostRuntime) -> Result<(), Fail> {
    let mut faulty = MemSink::new(rt.alloc(), 9)?;
    faulty.fail_at(2)?;
    faulty.fail_at(3)?;
    assert_eq!(rt; put_all(&mut faulty, b"one"), Ok(()));
    assert_eq!(rt; put_all(&mut faulty, b"two"), Err(WriteFault));
    assert_eq!(rt; (faulty.flush(), faulty.flush()), (Err(WriteFault), Ok(())));
    assert_eq!(rt; faulty.bytes(), b"one".as_slice());
    Ok(())
}

#[test]
fn a_quiet_sink_takes_all(rt: HostRuntime) {
    let mut quiet = QuietSink;
    assert_eq!(rt; put_all(&mut quiet, b"nothing is kept"), Ok(()));
    assert_eq!(rt; quiet.flush(), Ok(()));
}

// Takes up to so many bytes, and then fails.
struct Limited {
    room: usize,
}

impl Drop for Limited {
    fn drop(self) {
        let Limited { room: _ } = self;
    }
}

impl Write for Limited {
    fn write(&mut self, piece: &[u8]) -> io::Result<usize> {
        let count = piece.len().min(self.room);
        if count == 0 && !piece.is_empty() {
            return Err(Error::from(ErrorKind::StorageFull));
        }
        self.room -= count;
        Ok(count)
    }

    fn flush(&mut self) -> io::Result<()> {
        Ok(())
    }
}

#[test]
fn writes_to_streams(rt: HostRuntime) -> Result<(), Fail> {
    let alloc = rt.alloc();
    let mut full = HostSink::new(alloc, Limited { room: 70_000 })?;
    assert_eq!(rt; put_all(&mut full, &long_text(alloc)?), Ok(()));
    assert_eq!(rt; put_all(&mut full, &long_text(alloc)?), Err(WriteFault));
    assert_eq!(rt; full.flush(), Err(WriteFault));

    let mut output = HostSink::new(alloc, rt.stdout())?;
    assert_eq!(rt; output.flush(), Ok(()));
    let mut errors = HostSink::new(alloc, rt.stderr())?;
    assert_eq!(rt; errors.flush(), Ok(()));
    Ok(())
}

#[test]
fn goes_on_after_a_signal(rt: HostRuntime) -> Result<(), Fail> {
    let alloc = rt.alloc();
    let stream = Interrupted {
        was_interrupted: false,
        left: 4,
    };
    let mut sink = HostSink::new(alloc, stream)?;
    assert_eq!(rt; put_all(&mut sink, b"four"), Ok(()));
    assert_eq!(rt; sink.flush(), Ok(()));
    assert_eq!(rt; put_all(&mut sink, b"more"), Ok(()));
    assert_eq!(rt; sink.flush(), Err(WriteFault));

    let runtime = InterruptedFiles { length: 3 };
    let mut files = HostFiles::new(&runtime);
    assert_eq!(rt;
        read_all(alloc, &mut files, "any", 3)?.as_slice(),
        b"xxx".as_slice()
    );
    Ok(())
}

#[test]
fn reads_what_it_wrote(rt: HostRuntime) -> Result<(), Fail> {
    let alloc = rt.alloc();
    let folder = env::temp_dir(&rt)?;
    let id = process::id(rt.process());
    let name = format!(in alloc; "{}/sig_text_{id}", folder.display())?;
    let mut sink = HostSink::new(alloc, fs::create(&rt, name.as_str())?)?;
    assert_eq!(rt; put_all(&mut sink, &long_text(alloc)?), Ok(()));
    assert_eq!(rt; put_all(&mut sink, b"end"), Ok(()));
    assert_eq!(rt; sink.flush(), Ok(()));

    let mut files = HostFiles::new(&rt);
    assert_eq!(rt; files.read(&mut [0]), ReadStep::Got(0));
    let bytes = read_all(alloc, &mut files, &name, LONG + 3)?;
    assert_eq!(rt; bytes.len(), LONG + 3);
    assert!(rt; bytes.ends_with(b"aend"));
    assert_eq!(rt;
        read_all(alloc, &mut files, &name, LONG),
        Err(ReadAnswer::TooLong(LONG))
    );
    fs::remove_file(&rt, name.as_str())?;
    assert_eq!(rt;
        read_all(alloc, &mut files, &name, LONG),
        Err(ReadAnswer::Missing)
    );
    assert_eq!(rt;
        read_all(alloc, &mut files, "/", LONG),
        Err(ReadAnswer::ReadFault)
    );
    Ok(())
}

#[test]
fn keeps_nothing_of_an_earlier_file(rt: HostRuntime) -> Result<(), Fail> {
    let alloc = rt.alloc();
    let folder = env::temp_dir(&rt)?;
    let id = process::id(rt.process());
    let name = format!(in alloc; "{}/sig_text_earlier_{id}", folder.display())?;
    let below = format!(in alloc; "{name}/below")?;
    let none = format!(in alloc; "{name}_none")?;
    fs::write(&rt, name.as_str(), b"earlier")?;
    let mut files = HostFiles::new(&rt);

    assert_eq!(rt; files.begin(&name), Begun::Ready);
    assert_eq!(rt; files.begin(&none), Begun::Missing);
    assert_eq!(rt; files.read(&mut [0]), ReadStep::Got(0));

    // A file is no folder, so what is asked for below it fails and is not missing.
    assert_eq!(rt; files.begin(&name), Begun::Ready);
    assert_eq!(rt; files.begin(&below), Begun::Failed);
    assert_eq!(rt; files.read(&mut [0]), ReadStep::Got(0));
    assert_eq!(rt;
        read_all(alloc, &mut files, &below, LONG),
        Err(ReadAnswer::ReadFault)
    );
    fs::remove_file(&rt, name.as_str())?;
    Ok(())
}

//! A sink in memory, with room for so many bytes.

ghost use Rattle.std.specs.Prelude.{◌≡◌, ◌↔◌, ◌++◌, ◌∷◌, [], ◌≤◌, ◌<◌, IfOk, OnOk, OnErr, IsTrue, false, is_err, length, min};
ghost use Rattle.sig_text.specs.Calls.{NextFails, after_call};
ghost use Rattle.sig_text.specs.Sink.{IfTook, TellsBytes, taken_of, write_failed};
ghost use Rattle.sig_text.specs.MemSink.{Grew, Grew-nothing, Grew-both, WriteFails, room_left};

use super::calls::{Calls, MemAnswer};
use super::sink::{Sink, WriteFault, Wrote};
use std::alloc::Global;
use std::marker::Model;

/// A sink that keeps its bytes. It has room for so many, and fails at the calls that it was told to
/// fail at. Its calls of `write` and `flush` together are numbered from 1.
#[derive(Drop)]
pub struct MemSink {
    bytes: Vec<u8>,
    room: usize,
    clean: bool,
    calls: Calls,
}

impl Model for MemSink {
    ghost use Rattle.std.specs.Prelude.{◌≤◌, vec_len, vec_capacity};
    ghost use Rattle.sig_text.specs.MemSink.{SinkInMemory};

    ghost Value = { SinkInMemory };

    ghost view = { λ sink. record { bytes = sink.bytes.items; room = sink.room; clean = sink.clean; calls = sink.calls } };

    ghost invariant = { λ sink. (vec_len sink.bytes ≤ sink.room) × (sink.room ≤ vec_capacity sink.bytes) };
}

impl MemSink {
    /// An empty sink with room for so many bytes. Only memory can be wanting.
    pub fn new(alloc: Global, room: u32) -> Result<MemSink, MemAnswer>
        ensures { IfOk result (λ sink. sink ≡ record {
          bytes = [];
          room = room;
          clean = false;
          calls = record { made = 0; failing = []; faults = 0 };
        }) }
    {
        Ok(MemSink {
            bytes: Vec::with_capacity(alloc, room as usize)?,
            room: room as usize,
            clean: false,
            calls: Calls::new(alloc),
        })
    }

    /// Has this call fail, counted from 1. Only memory can be wanting.
    pub fn fail_at(&mut self, call: u32) -> Result<(), MemAnswer>
        ensures ok { OnOk result (self.new ≡ record self.old {
          calls = record self.old.calls { failing = self.old.calls.failing ++ call ∷ [] };
        }) }
        ensures err { OnErr result (self.new ≡ self.old) }
    {
        self.calls.fail_at(call)
    }

    /// The bytes that it took.
    pub fn bytes(&self) -> &[u8]
        ensures bytes { result.now ≡ self.now.bytes }
        ensures within { length self.now.bytes ≤ self.now.room }
    {
        self.bytes.as_slice()
    }
}

impl Sink for MemSink {
    ghost took = { Grew };

    ghost faults = { λ sink. sink.calls.faults };

    ghost clean = { λ sink. sink.clean };

    /// Takes as much of the piece as there is room for. It takes no memory.
    fn write(&mut self, piece: &[u8]) -> Wrote
        ensures fails { (result ≡ Wrote.Failed) ↔ WriteFails self.old piece.now }
        ensures takes { IfTook result (λ n. n ≡ min (room_left self.old) (length piece.now)) }
        ensures bytes { Grew self.old (taken_of result piece.now) self.new }
        ensures clean { self.new.clean ≡ false }
        ensures room_stays { self.new.room ≡ self.old.room }
        ensures calls { self.new.calls ≡ after_call self.old.calls (write_failed result) }
        ensures faults_stay { self.old.calls.faults ≤ self.new.calls.faults }
    {
        self.clean = false;
        if self.calls.next_fails() {
            return Wrote::Failed;
        }
        let room = self.room - self.bytes.len();
        if room == 0 && !piece.is_empty() {
            self.calls.fault();
            return Wrote::Failed;
        }
        let count = room.min(piece.len());
        self.bytes.extend_from_slice(&piece[..count]).unwrap();
        Wrote::Took(count)
    }

    /// Fails exactly at a listed call. It takes no memory.
    fn flush(&mut self) -> Result<(), WriteFault>
        ensures fails { (result ≡ Err (record {})) ↔ NextFails self.old.calls }
        ensures bytes { self.new.bytes ≡ self.old.bytes }
        ensures clean { OnOk result (IsTrue self.new.clean) }
        ensures room_stays { self.new.room ≡ self.old.room }
        ensures calls { self.new.calls ≡ after_call self.old.calls (is_err result) }
        ensures faults_stay { self.old.calls.faults ≤ self.new.calls.faults }
    {
        if self.calls.next_fails() {
            return Err(WriteFault);
        }
        self.clean = true;
        Ok(())
    }

    ghost took_nothing = { Grew-nothing };

    ghost took_both = { Grew-both };
}

/// A law: a sink in memory tells its bytes, since what it took is fixed by what it held before and
/// what it holds after.
pub fn mem_sink_tells_bytes()
    ensures { TellsBytes ⟦<MemSink as Sink>⟧.took }
{}

//! Files in memory.

ghost use Rattle.std.specs.Prelude.{◌≡◌, ◌↔◌, ◌++◌, ◌∷◌, [], ◌≤◌, ◌<◌, Some, None, IfSome, OnOk, OnErr, length, take, min, if◌then◌else◌};
ghost use Rattle.std.specs.Option.{option_map};
ghost use Rattle.sig_text.specs.Counts.{raised};
ghost use Rattle.sig_text.specs.Calls.{NextFails, after_call};
ghost use Rattle.sig_text.specs.Files.{OnReady, UnlessReady, UnlessFailed, IfGot, OnReadFailed, name_where_there, begin_failed, begin_missed, read_failed};
ghost use Rattle.sig_text.specs.MemFiles.{contents_of, last_named, file_at, name_at, rest_at};

use super::calls::{Calls, MemAnswer};
use super::files::{Begun, Files, ReadStep};
use sig_base::Text;
use std::alloc::Global;
use std::marker::Model;

/// Files in memory, which tell what they hold. They fail at the calls that they were told to fail at.
/// Their calls of `begin` and `read` together are numbered from 1.
#[derive(Drop)]
pub struct MemFiles {
    files: Vec<(Text, Text)>,
    begun: Option<usize>,
    left: usize,
    misses: u64,
    calls: Calls,
}

impl Model for MemFiles {
    ghost use Rattle.std.specs.Prelude.{◌≤◌, ◌<◌, vec_len, length, IfSome};
    ghost use Rattle.sig_text.specs.MemFiles.{FilesInMemory, file_at, name_at, rest_at};

    ghost Value = { FilesInMemory };

    ghost view = { λ held. record {
      files = held.files.items;
      rest = rest_at held.files.items held.begun held.left;
      at = name_at held.files.items held.begun;
      misses = held.misses;
      calls = held.calls;
    } };

    ghost invariant = { λ held. IfSome held.begun (λ index.
        (index < vec_len held.files) × (held.left ≤ length (file_at held.files.items index).1)) };
}

impl MemFiles {
    /// No file.
    pub fn new(alloc: Global) -> MemFiles
        ensures { result ≡ record {
          files = [];
          rest = [];
          at = None;
          misses = 0;
          calls = record { made = 0; failing = []; faults = 0 };
        } }
    {
        MemFiles {
            files: Vec::new(alloc),
            begun: None,
            left: 0,
            misses: 0,
            calls: Calls::new(alloc),
        }
    }

    /// Adds a file. One that is added later stands in the place of an earlier one of its name, of
    /// which a reading that was begun goes on. Only memory can be wanting.
    pub fn add(&mut self, name: &str, bytes: &[u8]) -> Result<(), MemAnswer>
        ensures ok { OnOk result (self.new ≡ record self.old { files = self.old.files ++ (name.now, bytes.now) ∷ [] }) }
        ensures err { OnErr result (self.new ≡ self.old) }
    {
        let alloc = *self.files.allocator();
        let name = Text::from_bytes(alloc, name.as_bytes())?;
        let bytes = Text::from_bytes(alloc, bytes)?;
        self.files.push((name, bytes))?;
        Ok(())
    }

    /// Has this call fail, counted from 1. Only memory can be wanting.
    pub fn fail_at(&mut self, call: u32) -> Result<(), MemAnswer>
        ensures ok { OnOk result (self.new ≡ record self.old {
          calls = record self.old.calls { failing = self.old.calls.failing ++ call ∷ [] };
        }) }
        ensures err { OnErr result (self.new ≡ self.old) }
    {
        self.calls.fail_at(call)
    }
}

impl Files for MemFiles {
    ghost contents = { λ held. Some (contents_of held.files) };

    ghost rest = { λ held. Some held.rest };

    ghost at = { λ held. held.at };

    ghost faults = { λ held. held.calls.faults };

    ghost misses = { λ held. held.misses };

    /// Fails exactly at a listed call, and otherwise misses exactly a name that is not there.
    fn begin(&mut self, name: &str) -> Begun
        ensures fails { (result ≡ Begun.Failed) ↔ NextFails self.old.calls }
        ensures misses { UnlessFailed result ((result ≡ Begun.Missing) ↔ (contents_of self.old.files name.now ≡ None)) }
        ensures ready { OnReady result (contents_of self.old.files name.now ≡ Some self.new.rest) }
        ensures closed { UnlessReady result (self.new.rest ≡ []) }
        ensures at { self.new.at ≡ name_where_there (contents_of self.old.files) name.now }
        ensures files_stay { self.new.files ≡ self.old.files }
        ensures calls { self.new.calls ≡ after_call self.old.calls (begin_failed result) }
        ensures missed { self.new.misses ≡ (if begin_missed result then raised self.old.misses else self.old.misses) }
        ensures faults_stay { self.old.calls.faults ≤ self.new.calls.faults }
        ensures misses_stay { self.old.misses ≤ self.new.misses }
    {
        self.begun = last_index(&self.files, name.as_bytes());
        self.left = 0;
        if self.calls.next_fails() {
            return Begun::Failed;
        }
        match self.begun {
            Some(index) => {
                self.left = self.files[index].1.len();
                Begun::Ready
            }
            None => {
                self.misses = self.misses.saturating_add(1);
                Begun::Missing
            }
        }
    }

    /// Fails exactly at a listed call, and otherwise gives as many bytes as are left and fit.
    fn read(&mut self, piece: &mut [u8]) -> ReadStep
        ensures fails { (result ≡ ReadStep.Failed) ↔ NextFails self.old.calls }
        ensures count { IfGot result (λ n. n ≡ min (length self.old.rest) (length piece.new)) }
        ensures bytes { IfGot result (λ n. self.old.rest ≡ take n piece.new ++ self.new.rest) }
        ensures rest_stays { OnReadFailed result (self.new.rest ≡ self.old.rest) }
        ensures at_stays { self.new.at ≡ self.old.at }
        ensures files_stay { self.new.files ≡ self.old.files }
        ensures calls { self.new.calls ≡ after_call self.old.calls (read_failed result) }
        ensures misses_stay { self.new.misses ≡ self.old.misses }
        ensures faults_stay { self.old.calls.faults ≤ self.new.calls.faults }
    {
        if self.calls.next_fails() {
            return ReadStep::Failed;
        }
        let Some(index) = self.begun else {
            return ReadStep::Got(0);
        };
        let bytes = self.files[index].1.as_bytes();
        let count = copy_front(&bytes[bytes.len() - self.left..], piece);
        self.left -= count;
        ReadStep::Got(count)
    }
}

// The index of the last file of this name.
fn last_index(files: &[(Text, Text)], name: &[u8]) -> Option<usize>
    ensures found { last_named files.now name.now ≡ option_map (file_at files.now) result }
    ensures bound { IfSome result (λ index. index < length files.now) }
    ensures named { name_at files.now result ≡ name_where_there (contents_of files.now) name.now }
{
    let mut found = None;
    for (index, file) in files.iter().enumerate() {
        if file.0.as_bytes() == name {
            found = Some(index);
        }
    }
    found
}

// Copies as much of the rest into the front of the piece as fits, and tells how much.
fn copy_front(rest: &[u8], piece: &mut [u8]) -> usize
    ensures count { result ≡ min (length rest.now) (length piece.old) }
    ensures copied { take result piece.new ≡ take result rest.now }
{
    let count = rest.len().min(piece.len());
    piece[..count].copy_from_slice(&rest[..count]);
    count
}

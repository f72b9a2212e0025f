//! A shelf in memory, of which all is told, and which can be made to fail.
ghost use Rattle.std.specs.Prelude.{◌≡◌, ◌==◌, IsErr, IsTrue, true, ◌+◌, ◌<◌, ◌≤◌, ◌∷◌, ◌++◌, [], Some, None, length, drop, take, OnOk, OnErr, OnSome, IfOk, MatchOption, MatchResult, option_map, is_some, false, slice_get, string_bytes};
ghost use Rattle.std.specs.List.{list_any};
ghost use Rattle.loc_io.specs.Causes.{FailsAsTold};
ghost use Rattle.loc_io.specs.Meaning.{PutsFile, IsFresh, TakesUp, Reads, Creates, Writes, Finishes, absent, holds};

use crate::fail_list::FailList;
use crate::failed::CallCounts;
use crate::mem_file::{MemFile, append, bytes_of, copy_front, copy_of, put};
use crate::trace::Trace;
use crate::{Failed, Shelf};
use std::alloc::{AllocError, Global};

/// Keeps its files and tells them. Its calls as a `Shelf` are numbered from 1, and those whose
/// numbers are listed fail. So does a call that finds no memory.
#[derive(Drop)]
pub struct MemShelf {
    alloc: Global,
    files: Vec<MemFile>,
    is_open: bool,
    rest: Vec<u8>,
    at: usize,
    making: Option<String>,
    fail: FailList,
    counts: CallCounts,
    trace: Trace,
}

impl MemShelf {
    ghost use Rattle.loc_io.specs.MemShelf.{mem_meaning, failing_calls, calls_made};

    /// A shelf without files, of which the calls with these numbers are to fail.
    pub fn new(alloc: Global, fail: Vec<u64>) -> MemShelf
        ensures files { (mem_meaning result).told ≡ (λ _. absent) }
        ensures fresh { IsFresh (mem_meaning result) }
        ensures failing { failing_calls result ≡ fail.items }
        ensures calls { calls_made result ≡ 0 }
    {
        MemShelf {
            alloc,
            files: Vec::new(alloc),
            is_open: false,
            rest: Vec::new(alloc),
            at: 0,
            making: None,
            fail: FailList::new(fail),
            counts: CallCounts::new(),
            trace: Trace::new(),
        }
    }

    /// Puts a file there, in place of one with this name. After a refusal the shelf is as before.
    pub fn put(&mut self, name: &str, bytes: &[u8]) -> Result<(), AllocError>
        ensures ok { OnOk result (PutsFile name.now bytes.now (mem_meaning self.old) (mem_meaning self.new)) }
        ensures err { OnErr result (mem_meaning self.new ≡ mem_meaning self.old) }
        ensures failing { failing_calls self.new ≡ failing_calls self.old }
        ensures calls { calls_made self.new ≡ calls_made self.old }
    {
        let copy = bytes.to_vec(self.alloc)?;
        put(self.alloc, &mut self.files, name, copy)
    }

    /// The bytes of the file with this name, or `None` where there is none.
    pub fn bytes(&self, name: &str) -> Option<&[u8]>
        ensures { MatchOption result ((mem_meaning self.now).told name.now ≡ absent) (λ bytes. (mem_meaning self.now).told name.now ≡ holds bytes.now) }
    {
        bytes_of(&self.files, name)
    }
}

impl Shelf for MemShelf {
    ghost use Rattle.loc_io.specs.MemShelf.{mem_meaning, failing_calls, calls_made};

    ghost meaning = { mem_meaning };

    fn take_up(&mut self, name: &str) -> Result<(), Failed>
        ensures shelf { TakesUp name.now (mem_meaning self.old) (mem_meaning self.new) result }
        ensures failing { FailsAsTold (failing_calls self.old) (calls_made self.old) (calls_made self.new) result }
        ensures listed { failing_calls self.new ≡ failing_calls self.old }
    {
        self.counts.note_call();
        self.trace.note(&[], name.as_bytes());
        let found = if self.fail.next_fails() {
            None
        } else {
            copy_of(self.alloc, &self.files, name)
        };
        match found {
            Some(bytes) => {
                self.rest = bytes;
                self.at = 0;
                self.is_open = true;
                Ok(())
            }
            None => Err(self.counts.read_faults.count_one()),
        }
    }

    fn read(&mut self, into: &mut [u8]) -> Result<usize, Failed>
        requires open { (mem_meaning self.old).is_open ≡ true }
        requires room { 0 < length into.old }
        ensures shelf { Reads (mem_meaning self.old) (mem_meaning self.new) into.new result }
        ensures failing { FailsAsTold (failing_calls self.old) (calls_made self.old) (calls_made self.new) result }
        ensures listed { failing_calls self.new ≡ failing_calls self.old }
        ensures only { IsErr result → IsTrue (list_any (λ number. number == calls_made self.new) (failing_calls self.old)) }
    {
        self.counts.note_call();
        if self.fail.next_fails() {
            return Err(self.counts.read_faults.count_one());
        }
        let n = copy_front(&self.rest, self.at, into);
        self.at += n;
        self.trace.note(&[n as u64], &[]);
        Ok(n)
    }

    fn create(&mut self, name: &str) -> Result<(), Failed>
        ensures shelf { Creates name.now (mem_meaning self.old) (mem_meaning self.new) result }
        ensures failing { FailsAsTold (failing_calls self.old) (calls_made self.old) (calls_made self.new) result }
        ensures listed { failing_calls self.new ≡ failing_calls self.old }
    {
        self.counts.note_call();
        if self.fail.next_fails() {
            return Err(self.counts.write_faults.count_one());
        }
        let Ok(made) = String::from_str(self.alloc, name) else {
            return Err(self.counts.write_faults.count_one());
        };
        if put(self.alloc, &mut self.files, name, Vec::new(self.alloc)).is_err() {
            return Err(self.counts.write_faults.count_one());
        }
        self.making = Some(made);
        Ok(())
    }

    fn write(&mut self, piece: &[u8]) -> Result<usize, Failed>
        requires making { (mem_meaning self.old).is_making ≡ true }
        requires some { 0 < length piece.now }
        ensures shelf { Writes piece.now (mem_meaning self.old) (mem_meaning self.new) result }
        ensures failing { FailsAsTold (failing_calls self.old) (calls_made self.old) (calls_made self.new) result }
        ensures listed { failing_calls self.new ≡ failing_calls self.old }
    {
        self.counts.note_call();
        if self.fail.next_fails() {
            return Err(self.counts.write_faults.count_one());
        }
        let Some(name) = &self.making else {
            return Err(self.counts.write_faults.count_one());
        };
        if append(&mut self.files, name, piece) {
            Ok(piece.len())
        } else {
            Err(self.counts.write_faults.count_one())
        }
    }

    fn finish(&mut self) -> Result<(), Failed>
        requires making { (mem_meaning self.old).is_making ≡ true }
        ensures shelf { Finishes (mem_meaning self.old) (mem_meaning self.new) result }
        ensures failing { FailsAsTold (failing_calls self.old) (calls_made self.old) (calls_made self.new) result }
        ensures listed { failing_calls self.new ≡ failing_calls self.old }
        ensures only { IsErr result → IsTrue (list_any (λ number. number == calls_made self.new) (failing_calls self.old)) }
    {
        self.counts.note_call();
        self.making = None;
        if self.fail.next_fails() {
            return Err(self.counts.write_faults.count_one());
        }
        Ok(())
    }
}

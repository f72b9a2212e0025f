//! The real files as a shelf, of whose content nothing is told.
ghost use Rattle.std.specs.Prelude.{◌≡◌, option_and_then, OnErr};
ghost use Rattle.std.specs.Io.KnownBytes.{ReadConsumes, WriteAppends};
ghost use Rattle.loc_io.specs.Meaning.{Creates, Finishes, IsFresh, Reads, TakesUp, Writes, untold};

use crate::failed::CallCounts;
use crate::trace::Trace;
use crate::{Failed, Shelf};
use std::fs;
use std::io::{Read, Write};
use std::rt::Files;

/// The files of the system, by their paths. A directory can be taken up, and fails at its first read.
#[derive(Drop)]
pub struct FileShelf<R: Files + Drop> {
    rt: R,
    reading: Option<R::File>,
    writing: Option<R::File>,
    counts: CallCounts,
    trace: Trace,
}

impl<R: Files + Drop> FileShelf<R> {
    ghost use Rattle.loc_io.specs.FileShelf.{file_meaning};

    /// A shelf over the files of this runtime.
    pub fn new(rt: R) -> FileShelf<R>
        ensures files { (file_meaning result).told ≡ (λ _. untold) }
        ensures fresh { IsFresh (file_meaning result) }
    {
        FileShelf {
            rt,
            reading: None,
            writing: None,
            counts: CallCounts::new(),
            trace: Trace::new(),
        }
    }
}

impl<R: Files + Drop> Shelf for FileShelf<R> {
    ghost use Rattle.loc_io.specs.FileShelf.{file_meaning, file_in_making, file_taken_up};

    ghost meaning = { file_meaning };

    // The file that is being made stays as it is.
    fn take_up(&mut self, name: &str) -> Result<(), Failed>
        ensures shelf { TakesUp name.now (file_meaning self.old) (file_meaning self.new) result }
        ensures reading { OnErr result (file_taken_up self.new ≡ file_taken_up self.old) }
        ensures making { file_in_making self.new ≡ file_in_making self.old }
    {
        self.counts.note_call();
        self.trace.note(&[], name.as_bytes());
        match fs::open(&self.rt, name).ok() {
            Some(file) => {
                self.reading = Some(file);
                Ok(())
            }
            None => Err(self.counts.read_faults.count_one()),
        }
    }

    // One call of the file, which gives what it has left.
    fn read(&mut self, into: &mut [u8]) -> Result<usize, Failed>
        ensures shelf { Reads (file_meaning self.old) (file_meaning self.new) into.new result }
        ensures file { ReadConsumes (option_and_then R.File.remaining (file_taken_up self.old))
            (option_and_then R.File.remaining (file_taken_up self.new)) result into.new }
        ensures making { file_in_making self.new ≡ file_in_making self.old }
    {
        self.counts.note_call();
        let taken = match &mut self.reading {
            Some(file) => file.read(into).ok(),
            None => None,
        };
        match taken {
            Some(n) => {
                self.trace.note(&[n as u64], &[]);
                Ok(n)
            }
            None => Err(self.counts.read_faults.count_one()),
        }
    }

    // The file that is being read stays as it is.
    fn create(&mut self, name: &str) -> Result<(), Failed>
        ensures shelf { Creates name.now (file_meaning self.old) (file_meaning self.new) result }
        ensures reading { file_taken_up self.new ≡ file_taken_up self.old }
        ensures making { OnErr result (file_in_making self.new ≡ file_in_making self.old) }
    {
        self.counts.note_call();
        match fs::create(&self.rt, name).ok() {
            Some(file) => {
                self.writing = Some(file);
                Ok(())
            }
            None => Err(self.counts.write_faults.count_one()),
        }
    }

    // One call of the file. A write that takes no byte is a failure.
    fn write(&mut self, piece: &[u8]) -> Result<usize, Failed>
        ensures shelf { Writes piece.now (file_meaning self.old) (file_meaning self.new) result }
        ensures file { WriteAppends (option_and_then R.File.contents (file_in_making self.old))
            (option_and_then R.File.contents (file_in_making self.new)) result piece.now }
        ensures reading { file_taken_up self.new ≡ file_taken_up self.old }
    {
        self.counts.note_call();
        let taken = match &mut self.writing {
            Some(file) => file.write(piece).ok(),
            None => None,
        };
        match taken {
            Some(n) if n > 0 => Ok(n),
            _ => Err(self.counts.write_faults.count_one()),
        }
    }

    // The file is closed where it is dropped. Nothing was held back from it.
    fn finish(&mut self) -> Result<(), Failed>
        ensures shelf { Finishes (file_meaning self.old) (file_meaning self.new) result }
        ensures reading { file_taken_up self.new ≡ file_taken_up self.old }
    {
        self.counts.note_call();
        self.writing = None;
        Ok(())
    }
}

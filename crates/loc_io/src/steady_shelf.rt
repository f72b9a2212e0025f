//! A shelf of files that are handed in, over which no call fails.
ghost use Rattle.std.specs.Prelude.{◌≡◌, ◌<◌, true, false, [], Ok, length, unwrap_or, vec_len, OnOk, OnErr};
ghost use Rattle.std.specs.List.{position};
ghost use Rattle.std.specs.Option.{ForSome};
ghost use Rattle.loc_io.specs.Steady.{bytes_at};
ghost use Rattle.loc_io.specs.Meaning.{IsFresh, HandsIn, Writes, holds};

use crate::mem_file::{MemFile, copy_front, place_of};
use crate::trace::Trace;
use crate::{Failed, Shelf};
use std::alloc::{AllocError, Global};

/// Tells the files that were put there; every other name is an empty file. A file that is made is
/// swallowed, and from the first `create` on nothing is told of any file.
#[derive(Drop)]
pub struct SteadyShelf {
    alloc: Global,
    files: Vec<MemFile>,
    hides: bool,
    is_open: bool,
    place: Option<usize>,
    at: usize,
    is_making: bool,
    trace: Trace,
    ghost in_range: { ForSome place (λ i. i < vec_len files) },
}

// The bytes of the file at this place, or none where there is no place.
fn bytes_of(files: &[MemFile], place: Option<usize>) -> &[u8]
    ensures { result.now ≡ bytes_at files.now place }
{
    match place {
        Some(i) if i < files.len() => files[i].bytes.as_slice(),
        _ => &[],
    }
}

impl SteadyShelf {
    ghost use Rattle.loc_io.specs.SteadyShelf.{steady_meaning};

    /// A shelf on which every name is an empty file.
    pub fn new(alloc: Global) -> SteadyShelf
        ensures files { (steady_meaning result).told ≡ (λ _. holds []) }
        ensures fresh { IsFresh (steady_meaning result) }
    {
        SteadyShelf {
            alloc,
            files: Vec::new(alloc),
            hides: false,
            is_open: false,
            place: None,
            at: 0,
            is_making: false,
            trace: Trace::new(),
        }
    }

    /// Hands in a file, in place of one with this name. After a refusal the shelf is as before.
    pub fn put(&mut self, name: &str, bytes: &[u8]) -> Result<(), AllocError>
        ensures ok { OnOk result (HandsIn name.now bytes.now (steady_meaning self.old) (steady_meaning self.new)) }
        ensures err { OnErr result (steady_meaning self.new ≡ steady_meaning self.old) }
    {
        let name = String::from_str(self.alloc, name)?;
        let bytes = bytes.to_vec(self.alloc)?;
        // An older file with this name stays behind this one, since it may be the one taken up.
        self.files.insert(0, MemFile { name, bytes })?;
        self.place = self.place.map(|i| i + 1);
        Ok(())
    }
}

impl Shelf for SteadyShelf {
    ghost use Rattle.loc_io.specs.SteadyShelf.{steady_meaning};

    ghost meaning = { steady_meaning };

    fn take_up(&mut self, name: &str) -> Result<(), Failed> {
        self.trace.note(&[], name.as_bytes());
        self.place = place_of(&self.files, name);
        self.at = 0;
        self.is_open = true;
        Ok(())
    }

    fn read(&mut self, into: &mut [u8]) -> Result<usize, Failed> {
        let n = copy_front(bytes_of(&self.files, self.place), self.at, into);
        self.at += n;
        self.trace.note(&[n as u64], &[]);
        Ok(n)
    }

    fn create(&mut self, _name: &str) -> Result<(), Failed> {
        self.hides = true;
        self.is_making = true;
        Ok(())
    }

    fn write(&mut self, piece: &[u8]) -> Result<usize, Failed>
        requires making { (steady_meaning self.old).is_making ≡ true }
        requires some { 0 < length piece.now }
        ensures shelf { Writes piece.now (steady_meaning self.old) (steady_meaning self.new) result }
        ensures whole { result ≡ Ok (length piece.now) }
    {
        Ok(piece.len())
    }

    fn finish(&mut self) -> Result<(), Failed> {
        self.is_making = false;
        Ok(())
    }
}

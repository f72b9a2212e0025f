//! A page of bytes before the file that a shelf makes, so that the shelf gets them in large pieces.

ghost use Rattle.std.specs.Prelude.{◌≡◌, [], true, OnOk};
ghost use Rattle.loc_page.specs.Making.{WroteBytes, PutsBytes};

use arrayvec::ArrayVec;
use loc_io::{Shelf, WriteFault};
use std::marker::Model;

// Writes all of a text.
fn write_whole<F: Shelf>(shelf: &mut F, text: &[u8]) -> Result<(), WriteFault>
    requires making { (F.meaning shelf.old).is_making ≡ true }
    ensures wrote { WroteBytes text.now (F.meaning shelf.old) (F.meaning shelf.new) result }
    ensures making { OnOk result ((F.meaning shelf.new).is_making ≡ true) }
{
    let mut rest = text;
    while !rest.is_empty() {
        let n = shelf.write(rest)?;
        rest = &rest[n..];
    }
    Ok(())
}

/// What is held back from the file.
#[derive(Drop)]
pub struct FilePage {
    held: ArrayVec<u8, 4096>,
}

impl Model for FilePage {
    ghost use Rattle.std.specs.Prelude.{List, ℕ};

    ghost Value = { List ℕ };

    ghost view = { λ p. p.held.items };
}

impl FilePage {
    /// A page that holds nothing.
    pub fn new() -> FilePage
        ensures { result ≡ [] }
    {
        FilePage {
            held: ArrayVec::new(),
        }
    }

    /// Writes what is held.
    pub fn flush<F: Shelf>(&mut self, shelf: &mut F) -> Result<(), WriteFault>
        requires making { (F.meaning shelf.old).is_making ≡ true }
        ensures put { PutsBytes [] (F.meaning shelf.old) (F.meaning shelf.new) self.old self.new result }
        ensures empty { OnOk result (self.new ≡ []) }
        ensures making { OnOk result ((F.meaning shelf.new).is_making ≡ true) }
    {
        write_whole(shelf, self.held.as_slice())?;
        self.held.clear();
        Ok(())
    }

    // A text on an empty page, or past it where it is longer than a page.
    fn put_first<F: Shelf>(&mut self, shelf: &mut F, text: &[u8]) -> Result<(), WriteFault>
        requires empty { self.old ≡ [] }
        requires making { (F.meaning shelf.old).is_making ≡ true }
        ensures put { PutsBytes text.now (F.meaning shelf.old) (F.meaning shelf.new) self.old self.new result }
        ensures making { OnOk result ((F.meaning shelf.new).is_making ≡ true) }
    {
        match self.held.try_extend_from_slice(text) {
            Ok(()) => Ok(()),
            Err(_) => write_whole(shelf, text),
        }
    }

    // A text on a page that had no room for it.
    fn put_anew<F: Shelf>(&mut self, shelf: &mut F, text: &[u8]) -> Result<(), WriteFault>
        requires making { (F.meaning shelf.old).is_making ≡ true }
        ensures put { PutsBytes text.now (F.meaning shelf.old) (F.meaning shelf.new) self.old self.new result }
        ensures making { OnOk result ((F.meaning shelf.new).is_making ≡ true) }
    {
        self.flush(shelf)?;
        self.put_first(shelf, text)
    }

    /// A text behind what is held.
    pub fn put<F: Shelf>(&mut self, shelf: &mut F, text: &[u8]) -> Result<(), WriteFault>
        requires making { (F.meaning shelf.old).is_making ≡ true }
        ensures put { PutsBytes text.now (F.meaning shelf.old) (F.meaning shelf.new) self.old self.new result }
        ensures making { OnOk result ((F.meaning shelf.new).is_making ≡ true) }
    {
        match self.held.try_extend_from_slice(text) {
            Ok(()) => Ok(()),
            Err(_) => self.put_anew(shelf, text),
        }
    }
}

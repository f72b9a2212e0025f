//! A page of bytes before a sink, so that the sink gets them in large pieces.

ghost use Rattle.std.specs.Prelude.{◌≡◌, ℕ, [], OnOk};
ghost use Rattle.std.specs.Fmt.{decimal};
ghost use Rattle.loc_page.specs.Puts.{PutsText};

use arrayvec::ArrayVec;
use itoa::Buffer;
use loc_io::{Sink, WriteFault, write_all};
use std::marker::Model;

/// What is held back from a sink.
#[derive(Drop)]
pub struct Page {
    held: ArrayVec<u8, 4096>,
}

impl Model for Page {
    ghost use Rattle.std.specs.Prelude.{List, ℕ};

    ghost Value = { List ℕ };

    ghost view = { λ p. p.held.items };
}

impl Page {
    /// A page that holds nothing.
    pub fn new() -> Page
        ensures { result ≡ [] }
    {
        Page {
            held: ArrayVec::new(),
        }
    }

    /// Lets go what is held.
    pub fn clear(&mut self)
        ensures { self.new ≡ [] }
    {
        self.held.clear();
    }

    /// Writes what is held.
    pub fn flush<O: Sink>(&mut self, sink: &mut O) -> Result<(), WriteFault>
        ensures put { PutsText [] (O.meaning sink.old) (O.meaning sink.new) self.old self.new result }
        ensures empty { OnOk result (self.new ≡ []) }
    {
        write_all(sink, self.held.as_slice())?;
        self.held.clear();
        Ok(())
    }

    // A text on an empty page, or past it where it is longer than a page.
    fn put_first<O: Sink>(&mut self, sink: &mut O, text: &[u8]) -> Result<(), WriteFault>
        requires { self.old ≡ [] }
        ensures { PutsText text.now (O.meaning sink.old) (O.meaning sink.new) self.old self.new result }
    {
        match self.held.try_extend_from_slice(text) {
            Ok(()) => Ok(()),
            Err(_) => write_all(sink, text),
        }
    }

    // A text on a page that had no room for it.
    fn put_anew<O: Sink>(&mut self, sink: &mut O, text: &[u8]) -> Result<(), WriteFault>
        ensures { PutsText text.now (O.meaning sink.old) (O.meaning sink.new) self.old self.new result }
    {
        self.flush(sink)?;
        self.put_first(sink, text)
    }

    /// A text behind what is held.
    pub fn put<O: Sink>(&mut self, sink: &mut O, text: &[u8]) -> Result<(), WriteFault>
        ensures { PutsText text.now (O.meaning sink.old) (O.meaning sink.new) self.old self.new result }
    {
        match self.held.try_extend_from_slice(text) {
            Ok(()) => Ok(()),
            Err(_) => self.put_anew(sink, text),
        }
    }

    /// A number in decimal.
    pub fn put_number<O: Sink>(&mut self, sink: &mut O, number: u32) -> Result<(), WriteFault>
        ensures { PutsText (decimal number) (O.meaning sink.old) (O.meaning sink.new) self.old self.new result }
    {
        let mut buffer = Buffer::new();
        self.put(sink, buffer.format(number).as_bytes())
    }
}

//! A shelf and a sink in memory that count their calls, and can take few bytes at a call.

ghost use Rattle.std.specs.Prelude.{◌≡◌, ◌<◌, ◌≤◌, true, length};

use loc_io::{Failed, MemShelf, MemSink, Shelf, Sink};

// How many of some bytes a call takes that takes so many at most; 0 is no bound.
fn front(most: usize, length: usize) -> usize
    requires { 0 < length }
    ensures some { 0 < result }
    ensures within { result ≤ length }
{
    if most == 0 || length < most {
        length
    } else {
        most
    }
}

/// A shelf in memory whose calls are counted, of which a call takes so many bytes at most; 0 is no bound.
#[derive(Drop)]
pub(crate) struct WatchedShelf {
    pub(crate) files: MemShelf,
    pub(crate) calls: u64,
    pub(crate) most: usize,
}

impl Shelf for WatchedShelf {
    ghost use Rattle.loc_io.specs.MemShelf.{mem_meaning};

    ghost meaning = { λ s. mem_meaning s.files };

    fn take_up(&mut self, name: &str) -> Result<(), Failed> {
        self.calls = self.calls.saturating_add(1);
        self.files.take_up(name)
    }

    fn read(&mut self, into: &mut [u8]) -> Result<usize, Failed> {
        let front = front(self.most, into.len());
        self.calls = self.calls.saturating_add(1);
        self.files.read(&mut into[..front])
    }

    fn create(&mut self, name: &str) -> Result<(), Failed> {
        self.calls = self.calls.saturating_add(1);
        self.files.create(name)
    }

    fn write(&mut self, piece: &[u8]) -> Result<usize, Failed> {
        let front = front(self.most, piece.len());
        self.calls = self.calls.saturating_add(1);
        self.files.write(&piece[..front])
    }

    fn finish(&mut self) -> Result<(), Failed> {
        self.calls = self.calls.saturating_add(1);
        self.files.finish()
    }
}

/// A sink in memory whose calls are counted, of which a write takes so many bytes at most; 0 is no bound.
#[derive(Drop)]
pub(crate) struct WatchedSink {
    pub(crate) sink: MemSink,
    pub(crate) calls: u64,
    pub(crate) most: usize,
}

impl Sink for WatchedSink {
    ghost use Rattle.loc_io.specs.Sinks.{mem_stream};

    ghost meaning = { λ s. mem_stream s.sink };

    fn write(&mut self, piece: &[u8]) -> Result<usize, Failed> {
        let front = front(self.most, piece.len());
        self.calls = self.calls.saturating_add(1);
        self.sink.write(&piece[..front])
    }
}

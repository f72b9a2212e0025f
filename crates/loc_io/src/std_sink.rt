//! A real stream as a sink, of which nothing is told.
ghost use Rattle.std.specs.Prelude.{◌≡◌, None};
ghost use Rattle.std.specs.Io.KnownBytes.{WriteAppends};
ghost use Rattle.loc_io.specs.Streams.{Takes, stream};

use crate::failed::{FaultCount, LateCount};
use crate::{Failed, Sink};
use std::io::Write;

/// Standard output, standard error or another stream. It tells nothing of its bytes.
#[derive(Drop)]
pub struct StdSink<W: Write + Drop> {
    inner: W,
    faults: FaultCount,
    late: LateCount,
}

impl<W: Write + Drop> StdSink<W> {
    ghost use Rattle.loc_io.specs.Sinks.{std_stream};

    /// A sink over this stream, as `io::writer(&rt.stdout())`.
    pub fn new(inner: W) -> StdSink<W>
        ensures fresh { std_stream result ≡ stream None 0 0 }
    {
        StdSink {
            inner,
            faults: FaultCount::new(),
            late: LateCount::new(),
        }
    }
}

impl<W: Write + Drop> Sink for StdSink<W> {
    ghost use Rattle.loc_io.specs.Sinks.{std_stream, stream_of};

    ghost meaning = { std_stream };

    // One call of the stream. A write that takes no byte is a failure.
    fn write(&mut self, piece: &[u8]) -> Result<usize, Failed>
        ensures sink { Takes piece.now (std_stream self.old) (std_stream self.new) result }
        ensures stream { WriteAppends (W.contents (stream_of self.old))
            (W.contents (stream_of self.new)) result piece.now }
    {
        self.late.note(self.faults.number > 0);
        match self.inner.write(piece) {
            Ok(n) if n > 0 => Ok(n),
            _ => Err(self.faults.count_one()),
        }
    }
}

//! Where bytes go, and the writing of a whole piece.
ghost use Rattle.std.specs.Prelude.{◌≡◌, ◌<◌, length};
ghost use Rattle.loc_io.specs.Streams.{Stream, Takes, TakesAll};

use crate::Failed;
use thiserror::Error;

/// A write on a sink failed, and a front of the piece was written.
#[derive(Clone, Copy, Debug, Error)]
#[error("a write failed")]
pub struct WriteFault;

impl From<Failed> for WriteFault {
    ghost from_gives = { λ _ e. e ≡ record {} };

    fn from(_: Failed) -> Self {
        WriteFault
    }
}

/// Where bytes go, one after the other.
pub trait Sink {
    /// The bytes written, where told, how many writes have failed, and how many were made after that.
    ghost meaning: { Self → Stream };

    /// Appends a front of the piece, and says how many bytes that is. After a failure nothing was
    /// appended.
    fn write(&mut self, piece: &[u8]) -> Result<usize, Failed>
        requires { 0 < length piece.now }
        ensures { Takes piece.now (meaning self.old) (meaning self.new) result };
}

/// Writes the whole piece. After a failure a front of it was written, and no call follows.
pub fn write_all<O: Sink>(sink: &mut O, piece: &[u8]) -> Result<(), WriteFault>
    ensures { TakesAll piece.now (O.meaning sink.old) (O.meaning sink.new) result }
{
    let mut rest = piece;
    while !rest.is_empty() {
        let n = sink.write(rest)?;
        rest = &rest[n..];
    }
    Ok(())
}

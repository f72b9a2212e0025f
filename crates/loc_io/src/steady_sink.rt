//! A sink over which no call fails.
ghost use Rattle.std.specs.Prelude.{◌≡◌, ◌<◌, None, Ok, length};
ghost use Rattle.loc_io.specs.Streams.{Takes, stream};

use crate::{Failed, Sink};

/// Swallows its bytes and tells none. No write on it fails.
#[derive(Drop)]
pub struct SteadySink;

impl SteadySink {
    /// A sink that tells nothing and has no faults.
    pub fn new() -> SteadySink
        ensures { ⟦<SteadySink as Sink>⟧.meaning result ≡ stream None 0 0 }
    {
        SteadySink
    }
}

impl Sink for SteadySink {
    ghost use Rattle.loc_io.specs.Streams.{stream};

    ghost meaning = { λ _. stream None 0 0 };

    fn write(&mut self, piece: &[u8]) -> Result<usize, Failed>
        requires { 0 < length piece.now }
        ensures sink { Takes piece.now (stream None 0 0) (stream None 0 0) result }
        ensures whole { result ≡ Ok (length piece.now) }
    {
        Ok(piece.len())
    }
}

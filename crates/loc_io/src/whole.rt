//! The reading of a whole file.
ghost use Rattle.std.specs.Prelude.{◌≡◌, ◌<◌, ◌^◌, IfOk, vec_len};
ghost use Rattle.loc_io.specs.Whole.{ReadsAll};
ghost use Rattle.loc_io.specs.declared.whole.ReadAllFault.TheVariants.{ReadFault, NoMemory};

use crate::{Failed, Shelf};
use std::alloc::{AllocError, Global};
use thiserror::Error;

/// Why a file was not read to its end. The contract of `read_all` says when each comes.
#[derive(Clone, Copy, Debug, Error)]
pub enum ReadAllFault {
    /// A call on the shelf failed.
    #[error("a read failed")]
    ReadFault,
    /// The file has more bytes than the limit.
    #[error("the file is too long")]
    TooLong,
    /// No memory was found for the bytes.
    #[error("out of memory")]
    NoMemory,
}

impl From<Failed> for ReadAllFault {
    ghost from_gives = { λ _ e. e ≡ ReadFault };

    fn from(_: Failed) -> Self {
        ReadAllFault::ReadFault
    }
}

impl From<AllocError> for ReadAllFault {
    ghost from_gives = { λ _ e. e ≡ NoMemory };

    fn from(_: AllocError) -> Self {
        ReadAllFault::NoMemory
    }
}

// How many bytes a read asks for.
const PIECE: usize = 65536;

// Room for one piece. It is on the heap, since a call pays for the size of its locals.
fn room_for_piece(alloc: Global) -> Result<Vec<u8>, AllocError>
    ensures { IfOk result (λ piece. 0 < vec_len piece) }
{
    vec![in alloc; 0u8; PIECE]
}

/// Takes up the named file, and reads it to its end, which is at most `limit` bytes away. For a file
/// of n bytes it holds at most about 2 n bytes beside one piece.
pub fn read_all<F: Shelf>(
    alloc: Global,
    shelf: &mut F,
    name: &str,
    limit: usize,
) -> Result<Vec<u8>, ReadAllFault>
    requires { limit < 2 ^ 40 }
    ensures { ReadsAll name.now limit (F.meaning shelf.old) (F.meaning shelf.new) result }
{
    shelf.take_up(name)?;
    let mut piece = room_for_piece(alloc)?;
    let mut all = Vec::new(alloc);
    'pieces: loop {
        let n = shelf.read(&mut piece)?;
        if n == 0 {
            return Ok(all);
        }
        if n > limit - all.len() {
            return Err(ReadAllFault::TooLong);
        }
        all.extend_from_slice(&piece[..n])?;
    }
}

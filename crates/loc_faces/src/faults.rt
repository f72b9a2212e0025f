// Why the text of a face was not written.

use thiserror::Error;

/// Why the text of a face was not written. The contract of `write_face` says when each comes.
#[derive(Clone, Copy, Debug, Error)]
pub enum FaceFault {
    /// No face has this number.
    #[error("no face has this number")]
    NoFace { count: u32 },
    /// A write failed.
    #[error("a write failed")]
    WriteFault,
}

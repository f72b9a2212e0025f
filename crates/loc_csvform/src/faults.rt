// Why a layer text was refused.

use loc_spec_text::TextFault;
use std::alloc::AllocError;
use thiserror::Error;

/// The fault of a layer text: that of its first faulty line or row, counted from 1. Rows are the records behind the header.
#[derive(Clone, Copy, Debug, Drop, Error)]
pub enum LayerFault {
    /// A text in form csv has no header, or a header without a geometry column.
    #[error("no wkt column")]
    NoColumn,
    /// The record has another number of fields than the header.
    #[error("a row has another number of fields than the header")]
    Ragged { row: u32 },
    /// The id is not UTF-8.
    #[error("an id is not UTF-8")]
    BadText { row: u32 },
    /// The id has more than 200 bytes.
    #[error("an id is too long")]
    LongId { row: u32 },
    /// The geometry text is at fault.
    #[error("a geometry text is at fault")]
    Text { row: u32, fault: TextFault },
    /// This is feature number 2^18 + 1.
    #[error("too many features")]
    ManyFeatures { row: u32 },
    /// With this feature the written ring points pass 2^20.
    #[error("too many points")]
    ManyPoints { row: u32 },
    /// No memory was found for the layer. It says nothing of the text.
    #[error("out of memory")]
    NoMemory,
}

impl From<AllocError> for LayerFault {
    ghost use Rattle.std.specs.Prelude.{◌≡◌};
    ghost use Rattle.loc_csvform.specs.declared.faults.LayerFault.TheVariants.{NoMemory};

    ghost from_gives = { λ _ e. e ≡ NoMemory };

    fn from(_: AllocError) -> Self {
        LayerFault::NoMemory
    }
}

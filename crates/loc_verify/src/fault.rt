// What is wrong with an index.

ghost use Rattle.std.specs.Prelude.{◌≡◌};

use loc_geom::Meeting;
use std::alloc::AllocError;
use std::fmt;
use thiserror::Error;

/// The first flaw of an index: corners, edges, features, lists and versions go by number, and so does the position in a list, all from 0.
#[derive(Clone, Copy, Drop, Error)]
pub enum VerifyFault {
    /// The corner is the end of no edge.
    #[error("a corner is the end of no edge")]
    Lone { corner: u32 },
    /// The edge has no mark.
    #[error("an edge has no mark")]
    Bare { edge: u32 },
    /// The feature marks an odd number of the edges at the corner odd.
    #[error("a feature marks an odd number of the edges at a corner")]
    Uneven { corner: u32, feature: u32 },
    /// The two edges conflict, of which a has the lesser number.
    #[error("two edges conflict")]
    Conflict { a: u32, b: u32, meeting: Meeting },
    /// The stored floor is not that of the corner.
    #[error("a stored floor is not that of its corner")]
    WrongFloor { corner: u32 },
    /// The list that the edge names is not the one above it.
    #[error("an edge names another list than the one above it")]
    WrongCover { edge: u32 },
    /// No edge names the list.
    #[error("no edge names a list")]
    SpareCover { list: u32 },
    /// An end of the edge is not on the segment of its source.
    #[error("an end of an edge is not on the segment of its source")]
    WrongSource { edge: u32 },
    /// A path of the version has too many nodes for the edges alive there.
    #[error("a path of a version has too many nodes")]
    Deep { version: u32 },
    /// The version is read otherwise than the list at its corner, from this position on.
    #[error("a version is read otherwise than the list at its corner")]
    WrongList { version: u32, position: u32 },
    /// Memory was wanting. It says nothing of the index.
    #[error("out of memory")]
    NoMemory,
}

// A flaw is shown by what it says.
impl fmt::Debug for VerifyFault {
    fn fmt<W: fmt::Write>(&self, f: &mut fmt::Formatter<W>) -> fmt::Result {
        fmt::Display::fmt(self, f)
    }
}

impl From<AllocError> for VerifyFault {
    ghost use Rattle.loc_verify.specs.declared.fault.VerifyFault.TheVariants.{NoMemory};

    ghost from_gives = { λ _ fault. fault ≡ NoMemory };

    fn from(_: AllocError) -> Self {
        VerifyFault::NoMemory
    }
}

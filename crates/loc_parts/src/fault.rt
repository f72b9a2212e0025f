// Why a layer has no plane.

use loc_edges::EdgeTable;
use std::alloc::AllocError;

/// Why a layer has no plane: two edges of the table that was judged conflict, its distinct cover lists have too many members together, the pieces
/// of the segments are too many, or there was no memory. In the first two cases the table is handed back.
#[derive(Drop)]
pub enum PlaneFault {
    Conflict(EdgeTable),
    Covers(EdgeTable),
    Pieces,
    NoMemory,
}

impl From<AllocError> for PlaneFault {
    ghost use Rattle.std.specs.Prelude.{◌≡◌};
    ghost use Rattle.loc_parts.specs.declared.fault.PlaneFault.TheVariants.{NoMemory};

    ghost from_gives = { λ _ e. e ≡ NoMemory };

    fn from(_: AllocError) -> Self {
        PlaneFault::NoMemory
    }
}

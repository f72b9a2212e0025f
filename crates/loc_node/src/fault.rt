// Why a layer has no noded table.

use std::alloc::AllocError;

/// Why a layer has no noded table: its segments have too many pieces together, or there was no memory.
#[derive(Clone, Copy, Drop)]
pub enum NodeFault {
    ManyPieces,
    NoMemory,
}

impl From<AllocError> for NodeFault {
    ghost use Rattle.std.specs.Prelude.{◌≡◌};
    ghost use Rattle.loc_node.specs.declared.fault.NodeFault.TheVariants.{NoMemory};

    ghost from_gives = { λ _ e. e ≡ NoMemory };

    fn from(_: AllocError) -> Self {
        NodeFault::NoMemory
    }
}

// Why a table has no legend.

use std::alloc::AllocError;

/// Why a table has no legend: its distinct cover lists are too long together, or there was no memory.
#[derive(Clone, Copy, Drop)]
pub enum LegendFault {
    ManyCovers,
    NoMemory,
}

impl From<AllocError> for LegendFault {
    ghost use Rattle.std.specs.Prelude.{◌≡◌};
    ghost use Rattle.loc_cover.specs.declared.fault.LegendFault.TheVariants.{NoMemory};

    ghost from_gives = { λ _ e. e ≡ NoMemory };

    fn from(_: AllocError) -> Self {
        LegendFault::NoMemory
    }
}

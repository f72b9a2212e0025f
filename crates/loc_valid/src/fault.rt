// Why a feature is not judged.

use std::alloc::AllocError;

/// Why a feature is not judged: its segments have too many pieces together, its distinct cover lists are too long together, or there was no
/// memory.
#[derive(Clone, Copy, Drop)]
pub enum ValidFault {
    ManyPieces,
    ManyCovers,
    NoMemory,
}

impl From<AllocError> for ValidFault {
    ghost use Rattle.std.specs.Prelude.{◌≡◌};
    ghost use Rattle.loc_valid.specs.declared.fault.ValidFault.TheVariants.{NoMemory};

    ghost from_gives = { λ _ e. e ≡ NoMemory };

    fn from(_: AllocError) -> Self {
        ValidFault::NoMemory
    }
}

// Why a sweep stops.

use loc_geom::Meeting;
use std::alloc::AllocError;

/// Why a sweep stops: edges a and b conflict, of which a has the lesser number, or there was no memory.
#[derive(Clone, Copy, Drop)]
pub enum SweepFault {
    Conflict { a: u32, b: u32, meeting: Meeting },
    NoMemory,
}

impl From<AllocError> for SweepFault {
    ghost use Rattle.std.specs.Prelude.{◌≡◌};
    ghost use Rattle.loc_sweep.specs.declared.fault.SweepFault.TheVariants.{NoMemory};

    ghost from_gives = { λ _ e. e ≡ NoMemory };

    fn from(_: AllocError) -> Self {
        SweepFault::NoMemory
    }
}

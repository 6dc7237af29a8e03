//! Sweeps that are given up.
ghost use Rattle.std.specs.Prelude.{◌≡◌};
ghost use Rattle.column_sweep.specs.declared.halting.Halt.TheVariants.{NoMemory as Wanting};

use geo_stream::NoMemory;
use std::alloc::AllocError;

/// Why a sweep gave no list.
#[derive(Clone, Copy)]
pub(crate) enum Halt {
    /// Memory ran out.
    NoMemory,
    /// It went over more edges than it may.
    Long,
}

impl From<NoMemory> for Halt {
    ghost from_gives = { λ _ halt. halt ≡ Wanting };

    fn from(_wanting: NoMemory) -> Halt {
        Halt::NoMemory
    }
}

impl From<AllocError> for Halt {
    ghost from_gives = { λ _ halt. halt ≡ Wanting };

    fn from(_refused: AllocError) -> Halt {
        Halt::NoMemory
    }
}

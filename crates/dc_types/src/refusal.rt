// Why a program is refused.
use crate::{NoMemory, Place, Text};
use std::alloc::{AllocError, AllocFailed};

/// A rule that a program breaks, and where.
#[derive(Drop)]
pub struct Refusal {
    /// The number of the rule, from 1 to 25.
    pub rule: u8,
    pub place: Place,
    /// The name that the rule speaks of, or nothing where it speaks of none.
    pub detail: Text,
}

/// Why a text has no tokens, no tree or no program.
#[derive(Drop)]
pub enum Fail {
    Refused(Refusal),
    NoMemory,
}

impl From<AllocError> for Fail {
    ghost use Rattle.std.specs.Prelude.{◌≡◌};
    ghost use Rattle.dc_types.specs.declared.refusal.Fail.TheVariants.{NoMemory};

    ghost from_gives = { λ _ fail. fail ≡ NoMemory };

    fn from(_: AllocError) -> Self {
        Fail::NoMemory
    }
}

impl<T: Drop> From<AllocFailed<T>> for Fail {
    ghost use Rattle.std.specs.Prelude.{◌≡◌};
    ghost use Rattle.dc_types.specs.declared.refusal.Fail.TheVariants.{NoMemory};

    ghost from_gives = { λ _ fail. fail ≡ NoMemory };

    fn from(_: AllocFailed<T>) -> Self {
        Fail::NoMemory
    }
}

impl From<NoMemory> for Fail {
    ghost use Rattle.std.specs.Prelude.{◌≡◌};
    ghost use Rattle.dc_types.specs.declared.refusal.Fail.TheVariants as fail;

    ghost from_gives = { λ _ result. result ≡ fail.NoMemory };

    fn from(_: NoMemory) -> Self {
        Fail::NoMemory
    }
}

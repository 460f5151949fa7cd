// Why a form is none of those that are built.
use dc_types::NoMemory as WantsMemory;
use std::alloc::{AllocError, AllocFailed};

/// Why nothing was made of a tree.
#[derive(Clone, Copy)]
pub enum Miss {
    /// The form that begins at this offset isn't built.
    Unbuilt(u32),
    NoMemory,
}

impl From<AllocError> for Miss {
    ghost use Rattle.std.specs.Prelude.{◌≡◌};
    ghost use Rattle.core_front.specs.declared.miss.Miss.TheVariants.{NoMemory};

    ghost from_gives = { λ _ miss. miss ≡ NoMemory };

    fn from(_: AllocError) -> Self {
        Miss::NoMemory
    }
}

impl From<WantsMemory> for Miss {
    ghost use Rattle.std.specs.Prelude.{◌≡◌};
    ghost use Rattle.core_front.specs.declared.miss.Miss.TheVariants.{NoMemory};

    ghost from_gives = { λ _ miss. miss ≡ NoMemory };

    fn from(_: WantsMemory) -> Self {
        Miss::NoMemory
    }
}

impl<T: Drop> From<AllocFailed<T>> for Miss {
    ghost use Rattle.std.specs.Prelude.{◌≡◌};
    ghost use Rattle.core_front.specs.declared.miss.Miss.TheVariants.{NoMemory};

    ghost from_gives = { λ _ miss. miss ≡ NoMemory };

    fn from(_: AllocFailed<T>) -> Self {
        Miss::NoMemory
    }
}

ghost use Rattle.std.specs.Prelude.{◌≡◌};

use std::alloc::{AllocError, AllocFailed};

/// Why nothing was read.
#[derive(Drop)]
pub enum Miss {
    /// Memory ran out.
    Memory,
    /// No such text begins here.
    Nothing,
}

impl From<AllocError> for Miss {
    ghost use Rattle.dc_grammar.specs.declared.miss.Miss.TheVariants.{Memory};

    ghost from_gives = { λ _ e. e ≡ Memory };

    fn from(_e: AllocError) -> Miss {
        Miss::Memory
    }
}

impl<T: Drop> From<AllocFailed<T>> for Miss {
    ghost use Rattle.dc_grammar.specs.declared.miss.Miss.TheVariants.{Memory};

    ghost from_gives = { λ _ e. e ≡ Memory };

    fn from(_e: AllocFailed<T>) -> Miss {
        Miss::Memory
    }
}

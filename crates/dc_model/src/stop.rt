// Why a judging has no answer yet, or none at all.
use crate::{Question, WorkId};
use dc_syntax::{NameId, Want};
use dc_tree::PlaceId;
use std::alloc::{AllocError, AllocFailed};

/// A rule that is broken, and where.
#[derive(Clone, Copy)]
pub struct Refused {
    pub rule: u8,
    pub place: PlaceId,
    /// The name that the rule speaks of.
    pub detail: Option<NameId>,
}

/// Why a judging stops before its answer.
#[derive(Clone, Copy)]
pub enum Stop {
    /// This question has to be answered first; how it is judged if it isn't begun.
    Need(Question, WorkId),
    Failed(Refused),
    NoMemory,
}

impl From<Want> for Stop {
    fn from(_: Want) -> Stop {
        Stop::NoMemory
    }
}

impl From<AllocError> for Stop {
    fn from(_: AllocError) -> Stop {
        Stop::NoMemory
    }
}

impl<T: Drop> From<AllocFailed<T>> for Stop {
    fn from(_: AllocFailed<T>) -> Stop {
        Stop::NoMemory
    }
}

impl Refused {
    /// Whether a guard is false where this is met in it, rather than that the program is refused (D
    /// specification, "Traits", "compiles"; "Expressions", "Is Expressions").
    pub fn is_guarded(self) -> bool {
        match self.rule {
            5 | 6 | 10 | 11 | 12 | 13 | 22 => true,
            _ => false,
        }
    }
}

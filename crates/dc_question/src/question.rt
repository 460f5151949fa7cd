// Questions that elaboration asks.
ghost use Rattle.std.specs.Prelude.{◌≡◌, IfOk};

use dc_types::{Place, copy_place};
use std::alloc::{AllocError, Global};

/// What is asked about a place.
#[derive(Clone, Copy, PartialEq, Eq, PartialOrd, Ord)]
pub enum Asked {
    /// What the declaration stands for.
    Symbol,
    /// The fields of a struct.
    Layout,
    /// The parameters and the result of a function.
    Signature,
    /// The resolved body of a function.
    BodyOf,
    /// The value of an expression.
    Eval,
    /// The outcome of a conditional, an assertion or a mixin.
    Settle,
}

/// A question about a program. Questions have an order: by their places, and at one place by what is asked.
#[derive(Drop, PartialEq, Eq, PartialOrd, Ord)]
pub struct Question {
    pub place: Place,
    pub asked: Asked,
}

/// A copy that is equal.
pub fn copy_question(alloc: Global, question: &Question) -> Result<Question, AllocError>
    ensures { IfOk result (λ copy. copy ≡ question.now) }
{
    Ok(Question {
        place: copy_place(alloc, &question.place)?,
        asked: question.asked,
    })
}

// Types with parameters of a template in them.
ghost use Rattle.std.specs.Prelude.{◌≡◌, IfOk};

use crate::{Params, copy_params};
use dc_types::{Items, Ty, copy_ty};
use sqlite_items::Boxed;
use std::alloc::{AllocError, Global};

/// The length of a fixed array in a pattern.
#[derive(Clone, Copy)]
pub enum Length {
    Number(u32),
    /// The parameter with the number, counted from 0.
    LengthParam(u32),
}

/// A type that may have parameters of a template in it (D specification, "Templates", "Function Templates").
#[derive(Drop)]
pub enum Pattern {
    /// The parameter with the number, counted from 0.
    Param(u32),
    SliceOf(Boxed<Pattern>),
    FixedOf(Boxed<Pattern>, Length),
    Just(Ty),
    /// What fits every type.
    Other,
}

pub type Patterns = Items<Pattern>;

/// How an `is` expression compares a type with a pattern.
#[derive(Clone, Copy)]
pub enum IsBy {
    /// `is(T)`: there is such a type.
    Alone,
    /// `is(T == U)`: they are the same.
    Same,
    /// `is(T : U)`: the type converts to the pattern.
    Into,
    /// `is(T == struct)`
    AStruct,
}

/// An `is` expression (D specification, "Expressions", "Is Expression").
#[derive(Drop)]
pub struct IsForm {
    pub left: Ty,
    pub by: IsBy,
    pub right: Pattern,
    pub params: Params,
}

/// A copy that is equal.
pub fn copy_pattern(alloc: Global, pattern: &Pattern) -> Result<Pattern, AllocError>
    ensures { IfOk result (λ copy. copy ≡ pattern.now) }
{
    match pattern {
        Pattern::Param(n) => Ok(Pattern::Param(*n)),
        Pattern::SliceOf(of) => Ok(Pattern::SliceOf(Boxed::new(
            alloc,
            copy_pattern(alloc, of.get())?,
        )?)),
        Pattern::FixedOf(of, length) => Ok(Pattern::FixedOf(
            Boxed::new(alloc, copy_pattern(alloc, of.get())?)?,
            *length,
        )),
        Pattern::Just(ty) => Ok(Pattern::Just(copy_ty(alloc, ty)?)),
        Pattern::Other => Ok(Pattern::Other),
    }
}

/// A copy that is equal.
pub fn copy_is_form(alloc: Global, form: &IsForm) -> Result<IsForm, AllocError>
    ensures { IfOk result (λ copy. copy ≡ form.now) }
{
    Ok(IsForm {
        left: copy_ty(alloc, &form.left)?,
        by: form.by,
        right: copy_pattern(alloc, &form.right)?,
        params: copy_params(alloc, &form.params)?,
    })
}

/// A copy that is equal.
pub fn copy_patterns(alloc: Global, patterns: &Patterns) -> Result<Patterns, AllocError>
    ensures { IfOk result (λ copy. copy ≡ patterns.now) }
{
    let mut copy = Items::new(alloc);
    for pattern in patterns.as_slice() {
        copy.push(copy_pattern(alloc, pattern)?)?;
    }
    Ok(copy)
}

// What a conversion depends on.
ghost use Rattle.std.specs.Prelude.{◌≡◌, IfOk};

use dc_types::{Items, Ty, copy_ty};
use sqlite_items::Items as Children;
use std::alloc::{AllocError, Global};

/// The numbers from `lo` to `hi`, both among them. An expression's range holds each value that it may have
/// (D specification, "Types", "Implicit Conversions").
#[derive(Clone, Copy)]
pub struct Range {
    pub lo: i128,
    pub hi: i128,
}

/// How well an argument fits: 2 for the same type, 1 where it converts, and 0 where it doesn't.
pub type Level = u8;

/// What a conversion has to know of an expression.
#[derive(Drop)]
pub struct Source {
    pub ty: Ty,
    pub range: Range,
    /// Whether the expression is a place.
    pub place: bool,
    /// The elements of an array literal, or nothing where the expression is none.
    pub items: Option<Children<Source>>,
}

pub type ArgTypes = Items<Source>;

#[cycle(copy_source)]
fn copy_sources(alloc: Global, sources: &Children<Source>) -> Result<Children<Source>, AllocError>
    ensures { IfOk result (λ copy. copy ≡ sources.now) }
{
    let mut copy = Children::new(alloc);
    for source in sources.as_slice() {
        copy.push(copy_source(alloc, source)?)?;
    }
    Ok(copy)
}

/// A copy that is equal.
#[cycle(copy_source)]
pub fn copy_source(alloc: Global, source: &Source) -> Result<Source, AllocError>
    ensures { IfOk result (λ copy. copy ≡ source.now) }
{
    let items = match &source.items {
        None => None,
        Some(items) => Some(copy_sources(alloc, items)?),
    };
    Ok(Source {
        ty: copy_ty(alloc, &source.ty)?,
        range: source.range,
        place: source.place,
        items,
    })
}

/// A copy that is equal.
pub fn copy_arg_types(alloc: Global, sources: &ArgTypes) -> Result<ArgTypes, AllocError>
    ensures { IfOk result (λ copy. copy ≡ sources.now) }
{
    let mut copy = Items::new(alloc);
    for source in sources.as_slice() {
        copy.push(copy_source(alloc, source)?)?;
    }
    Ok(copy)
}

// Values as they are while an evaluation goes on.
ghost use Rattle.std.specs.Prelude.{◌≡◌, IfOk};

use dc_types::Items;
use sqlite_items::Items as Children;
use std::alloc::{AllocError, Global};

/// The elements of a slice: some of those of a block, or of a list in it.
#[derive(Drop)]
pub struct Span {
    pub block: u32,
    /// Leads to the list whose elements the span takes. It is empty for the block's own list.
    pub path: Items<u64>,
    pub start: u64,
    pub length: u64,
}

/// A value, whose numbers and lists are its own and whose slices span a block.
#[derive(Drop)]
pub enum Value {
    Num(i128),
    SliceOf(Span),
    List(Children<Value>),
}

pub type Values = Items<Value>;

/// Where a value stands in a block.
#[derive(Drop)]
pub struct Spot {
    pub block: u32,
    pub path: Items<u64>,
}

fn copy_path(alloc: Global, path: &Items<u64>) -> Result<Items<u64>, AllocError>
    ensures { IfOk result (λ copy. copy ≡ path.now) }
{
    let mut copy = Items::new(alloc);
    for number in path.as_slice() {
        copy.push(*number)?;
    }
    Ok(copy)
}

/// A copy that is equal.
pub fn copy_span(alloc: Global, span: &Span) -> Result<Span, AllocError>
    ensures { IfOk result (λ copy. copy ≡ span.now) }
{
    Ok(Span {
        block: span.block,
        path: copy_path(alloc, &span.path)?,
        start: span.start,
        length: span.length,
    })
}

/// A copy that is equal.
pub fn copy_spot(alloc: Global, spot: &Spot) -> Result<Spot, AllocError>
    ensures { IfOk result (λ copy. copy ≡ spot.now) }
{
    Ok(Spot {
        block: spot.block,
        path: copy_path(alloc, &spot.path)?,
    })
}

/// A copy that is equal.
pub fn copy_value(alloc: Global, value: &Value) -> Result<Value, AllocError>
    ensures { IfOk result (λ copy. copy ≡ value.now) }
{
    match value {
        Value::Num(n) => Ok(Value::Num(*n)),
        Value::SliceOf(span) => Ok(Value::SliceOf(copy_span(alloc, span)?)),
        Value::List(parts) => {
            let mut copy = Children::new(alloc);
            for part in parts.as_slice() {
                copy.push(copy_value(alloc, part)?)?;
            }
            Ok(Value::List(copy))
        }
    }
}

/// A copy that is equal.
pub fn copy_values(alloc: Global, values: &Values) -> Result<Values, AllocError>
    ensures { IfOk result (λ copy. copy ≡ values.now) }
{
    let mut copy = Items::new(alloc);
    for value in values.as_slice() {
        copy.push(copy_value(alloc, value)?)?;
    }
    Ok(copy)
}

// Constants: values that are known when a program is compiled.
ghost use Rattle.std.specs.Prelude.{◌≡◌, IfOk};

use crate::{Ty, copy_ty};
use sqlite_items::Items as Children;
use std::alloc::{AllocError, Global};

/// The tree of a constant: a number, or the list of the parts of an array, a string or a struct.
#[derive(Drop)]
pub enum CTree {
    Num(i128),
    List(Children<CTree>),
}

/// A value with its type.
#[derive(Drop)]
pub struct Const {
    pub ty: Ty,
    pub tree: CTree,
}

/// A copy that is equal.
pub fn copy_tree(alloc: Global, tree: &CTree) -> Result<CTree, AllocError>
    ensures { IfOk result (λ copy. copy ≡ tree.now) }
{
    match tree {
        CTree::Num(n) => Ok(CTree::Num(*n)),
        CTree::List(parts) => {
            let mut copy = Children::new(alloc);
            for part in parts.as_slice() {
                copy.push(copy_tree(alloc, part)?)?;
            }
            Ok(CTree::List(copy))
        }
    }
}

/// A copy that is equal.
pub fn copy_const(alloc: Global, value: &Const) -> Result<Const, AllocError>
    ensures { IfOk result (λ copy. copy ≡ value.now) }
{
    Ok(Const {
        ty: copy_ty(alloc, &value.ty)?,
        tree: copy_tree(alloc, &value.tree)?,
    })
}

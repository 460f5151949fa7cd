// What the values of a type start with.
ghost use Rattle.std.specs.Prelude.{◌≡◌, IfOk, map};
ghost use Rattle.dc_layout.specs.Cells as cells;
ghost use Rattle.dc_layout.specs.Starts as starts;

use crate::{Field, Layouts};
use dc_types::{CTree, Const, Kind, NoMemory, Place, Ty, copy_tree, copy_ty};
use sqlite_items::Items as Children;
use std::alloc::{AllocError, Global};

fn number_start(kind: Kind) -> CTree
    ensures { result ≡ starts.number_start kind }
{
    match kind {
        Kind::Char => CTree::Num(255),
        _ => CTree::Num(0),
    }
}

#[tactic(auto, using(crate::proofs::Starting::one_more))]
fn copies(alloc: Global, n: u32, tree: &CTree) -> Result<Children<CTree>, AllocError>
    ensures { IfOk result (λ trees. trees ≡ starts.copies n tree.now) }
{
    let mut trees = Children::new(alloc);
    for _ in 0..n {
        trees.push(copy_tree(alloc, tree)?)?;
    }
    Ok(trees)
}

fn field_starts(alloc: Global, fields: &[Field]) -> Result<Children<CTree>, AllocError>
    ensures { IfOk result (λ trees. trees ≡ map (λ f. f.start.tree) fields.now) }
{
    let mut trees = Children::new(alloc);
    for field in fields {
        trees.push(copy_tree(alloc, &field.start.tree)?)?;
    }
    Ok(trees)
}

fn struct_start(alloc: Global, at: &Place, layouts: &Layouts) -> Result<CTree, AllocError>
    ensures { IfOk result (λ tree. tree ≡ starts.struct_start (cells.at layouts.now.0 at.now)) }
{
    match layouts.fields_of(at) {
        Some(fields) => Ok(CTree::List(field_starts(alloc, fields.as_slice())?)),
        None => Ok(CTree::List(Children::new(alloc))),
    }
}

fn start(alloc: Global, ty: &Ty, layouts: &Layouts) -> Result<CTree, AllocError>
    ensures { IfOk result (λ tree. tree ≡ starts.start layouts.now ty.now) }
{
    match ty {
        Ty::Void => Ok(CTree::Num(0)),
        Ty::Int(kind) => Ok(number_start(*kind)),
        // Of an array without elements no element is made: it may be as large as one likes.
        Ty::Fixed(_, 0) => Ok(CTree::List(Children::new(alloc))),
        Ty::Fixed(of, n) => {
            let one = start(alloc, of.get(), layouts)?;
            Ok(CTree::List(copies(alloc, *n, &one)?))
        }
        Ty::Slice(_) | Ty::Str | Ty::NullLit | Ty::EmptyLit => Ok(CTree::List(Children::new(
            alloc,
        ))),
        Ty::Struct(at) => struct_start(alloc, at, layouts),
        Ty::Enum(at, base) => match layouts.first_of(at) {
            Some(first) => copy_tree(alloc, &first.tree),
            None => start(alloc, base.get(), layouts),
        },
    }
}

/// The value that variables of the type start with (D specification, "Declarations", "Default Initialization"): 0, `false`
/// or 0xFF for a `char`, an empty slice, an array of start values, a struct of its fields' start values, and an enum's
/// first member. A struct that isn't among the layouts has no fields, and an enum that isn't starts as its base does.
pub fn init(alloc: Global, ty: &Ty, layouts: &Layouts) -> Result<Const, NoMemory>
    ensures { IfOk result (λ value. (value.ty ≡ ty.now) × (value.tree ≡ starts.start layouts.now ty.now)) }
{
    Ok(Const {
        ty: copy_ty(alloc, ty)?,
        tree: start(alloc, ty, layouts)?,
    })
}

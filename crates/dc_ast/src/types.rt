// The trees of types.
use crate::{BasicType, Expr, Symbol};
use sqlite_items::Items;

/// A type as it is written: a base and the brackets behind it, as `int[][3]` (D specification, "Types").
#[cycle(ast)]
#[derive(Drop)]
pub struct TypeTree {
    pub at: u32,
    pub base: Base,
    pub brackets: Items<Bracket>,
}

#[cycle(ast)]
#[derive(Drop)]
pub enum Base {
    Basic(BasicType),
    /// A name of at least one part, as `a.b!int.c`.
    Named(Items<Symbol>),
    /// `typeof(e)`
    TypeOf(Expr),
    /// `immutable(char)`
    ImmutableChar,
}

#[cycle(ast)]
#[derive(Drop)]
pub enum Bracket {
    /// `[]`
    Slice,
    /// `[n]`
    Fixed(Expr),
}

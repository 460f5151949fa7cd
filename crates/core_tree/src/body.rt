// Functions with their resolved bodies.
use crate::{Stmts, Tree, Variables};
use dc_types::{Items, Place, Ty};

/// A function: where it is declared, its parameters, the other variables that its body declares, the type of its result,
/// and its body (D specification, "Functions").
#[derive(Drop)]
pub struct Body {
    pub place: Place,
    pub params: Variables,
    pub locals: Variables,
    pub result: Ty,
    pub stmts: Stmts,
}

/// A body for each function, by its place. Of two at one place the first counts.
pub type Bodies = Items<Body>;

/// The expressions with which runs begin.
pub type Starts = Items<Tree>;

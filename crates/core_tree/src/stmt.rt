// Resolved statements.
use crate::{Tree, Variable};
use dc_types::Place;
use sqlite_items::Items as Children;

/// A condition of an `if`, and the statements behind it.
#[derive(Drop)]
pub struct Branch<S> {
    pub condition: Tree,
    pub body: Children<S>,
}

/// A resolved statement (D specification, "Statements").
#[cycle(stmt)]
#[derive(Drop)]
pub enum Stmt {
    /// An expression, for what it does.
    Eval(Tree),
    /// The declaration of a variable, and the value that it starts with.
    Declare(Variable, Tree),
    Block(Children<Stmt>),
    /// `if`, with its place, the branches of an `else if` chain, and the statement of the last `else`: none where there is
    /// no such `else`. The first branch whose condition holds is taken.
    If(Place, Children<Branch<Stmt>>, Children<Stmt>),
    /// `while`, with its place, at which its turns are, the condition and the statement.
    While(Place, Tree, Children<Stmt>),
    Return(Place, Option<Tree>),
}

pub type Stmts = Children<Stmt>;

// Resolved expressions.
use dc_types::{BinOp, CmpOp, Const, Items, Kind, Place, Ty, Types};
use sqlite_items::{Boxed, Items as Children};

/// A variable of a function, a parameter among them: where it is declared, and its type.
#[derive(Drop)]
pub struct Variable {
    pub place: Place,
    pub ty: Ty,
}

pub type Variables = Items<Variable>;

/// An operator of a chain, and the operand behind it, which is a tree.
#[derive(Drop)]
pub struct Operation<T> {
    pub operator: BinOp,
    pub operand: T,
}

/// A resolved expression (D specification, "Expressions"). The first place in each form is where it begins.
#[cycle(tree)]
#[derive(Drop)]
pub enum Tree {
    /// A literal, or a name that stands for a constant.
    Constant(Place, Const),
    /// What a variable holds.
    Local(Place, Variable),
    /// `v = e`, whose value is the one that is stored.
    Assign(Place, Variable, Boxed<Tree>),
    /// Operators on numbers of the kind, from left to right: each on the value so far and on the operand behind it. The
    /// count of a shift is a `long`.
    Chain(Place, Kind, Boxed<Tree>, Children<Operation<Tree>>),
    /// A comparison of two numbers of the kind, which is a `bool`.
    Compare(Place, CmpOp, Kind, Boxed<Tree>, Boxed<Tree>),
    /// A call of the function that is declared at the second place, the type of its result, and the arguments.
    Call(Place, Place, Ty, Children<Tree>),
    /// `write` of arguments of these types, or `writeln`, which prints a line feed behind them.
    Print(Place, Types, Children<Tree>, bool),
}

pub type Trees = Items<Tree>;

impl Tree {
    ghost use Rattle.std.specs.Prelude.{◌≡◌};
    ghost use Rattle.core_tree.specs.Nodes.{place_of};

    /// Where the expression begins.
    pub fn place(&self) -> &Place
        ensures { result.now ≡ place_of self.now }
    {
        match self {
            Tree::Constant(place, _) => place,
            Tree::Local(place, _) => place,
            Tree::Assign(place, _, _) => place,
            Tree::Chain(place, _, _, _) => place,
            Tree::Compare(place, _, _, _, _) => place,
            Tree::Call(place, _, _, _) => place,
            Tree::Print(place, _, _, _) => place,
        }
    }
}

// Questions, what is known of them, and how they are judged.
use crate::{CondId, Env, Symbol};
use dc_syntax::{List, NodeId};
use dc_tree::{DeclId, PlaceId, SpotId, TreeId, TypeId, UnitId, ValueId, Where};

/// What is asked of a place, in the order in which questions at one place are begun.
#[derive(Clone, Copy, PartialEq, Eq, PartialOrd, Ord, Hash)]
pub enum Ask {
    Symbol,
    Layout,
    Signature,
    BodyOf,
    Eval,
    Settle,
}

#[derive(Clone, Copy, PartialEq, Eq, Hash)]
pub struct Question {
    pub ask: Ask,
    pub at: PlaceId,
}

/// What is known of a question.
#[derive(Clone, Copy)]
pub enum Answer {
    /// Of a name: what it stands for. Of a variable or a field: its type.
    Stands(Symbol),
    /// The layout, the signature or the body stands in its table.
    Known,
    /// Of an evaluation: the type and the value.
    Value(TypeId, ValueId),
    /// Of a `static if` whether it holds; of a `static assert` true.
    Branch(bool),
    /// Of a `static foreach`: a list of symbols in the table of rounds.
    Rounds(u32, u32),
    /// Of a mixin of declarations or statements: its nodes, and the spot of its text.
    Mixed(List, SpotId),
    /// Of a mixin that is an expression.
    MixedExpr(NodeId, SpotId),
}

/// The number of a work.
#[derive(Clone, Copy, PartialEq, Eq)]
pub struct WorkId(pub u32);

/// How a question is judged.
#[derive(Clone, Copy)]
pub enum Work {
    Symbol(DeclId),
    Layout(UnitId),
    Signature(DeclId),
    BodyOf(DeclId),
    /// The evaluation of a resolved expression, and where it stands.
    Eval(TreeId, Where),
    /// The initialiser of a variable, a field, a constant or an enum's member.
    Initial(DeclId),
    /// The instance, which is introduced, and where it is named.
    Instance(UnitId, Where),
    /// The constraint of an instance.
    Constraint(UnitId),
    /// A conditional of a unit.
    Settle(CondId),
    /// A `static assert` of a unit.
    Assert(DeclId),
    /// A `static if`, `static foreach` or `static assert` in a body.
    Local(Env, NodeId),
    /// A mixin of statements or of an expression, of the text of this value.
    Mix(Env, NodeId, ValueId),
}

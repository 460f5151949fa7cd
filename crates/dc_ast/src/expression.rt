// The trees of expressions.
use crate::{
    AssignOperator, BasicType, BinaryOperator, IsRelation, Name, Spelling, TypeTree, UnaryOperator,
};
use sqlite_items::{Boxed, Items};

/// An expression, and where it begins (D specification, "Expressions").
#[cycle(ast)]
#[derive(Drop)]
pub struct Expr {
    pub at: u32,
    pub kind: Boxed<ExprKind>,
}

/// The forms of expressions.
#[cycle(ast)]
#[derive(Drop)]
pub enum ExprKind {
    Integer(Spelling),
    Str(Spelling),
    Character(Spelling),
    Null,
    True,
    False,
    This,
    /// `$`
    Dollar,
    Symbol(Symbol),
    /// `(e)`
    Paren(Expr),
    /// `[a, b]`
    Array(Items<Expr>),
    /// `int.max`
    Property(BasicType, Name),
    /// `typeof(e).x`
    TypeOfProperty(Expr, Name),
    /// `mixin(e)`
    Mixin(Expr),
    Is(Boxed<IsTree>),
    /// `__traits(name, a, b)`
    Traits(Name, Items<Argument>),
    /// `assert(e)`, and the message where one is written.
    Assert(Expr, Option<Expr>),
    /// `new`, a base without brackets, and what follows it: any number of `[]`, then `[n]` or a call of one argument,
    /// then other suffixes. Where only brackets stand before a first call and it has one argument, they belong to the
    /// type, as in `new T[n](x)`; otherwise the first `[n]` has the length, and what follows it is done to the new array.
    New(Boxed<TypeTree>, Items<Suffix>),
    /// What follows an operand, from left to right; at least one.
    Postfix(Expr, Items<Suffix>),
    Unary(UnaryOperator, Expr),
    /// `cast(T) e`
    Cast(Boxed<TypeTree>, Expr),
    /// Operators of one level, from left to right; at least one.
    Chain(Expr, Items<Step>),
    Compare(Expr, BinaryOperator, Expr),
    /// `a ? b : c`
    Conditional(Expr, Expr, Expr),
    Assign(Expr, AssignOperator, Expr),
}

/// An operator of a chain, and the operand behind it.
#[cycle(ast)]
#[derive(Drop)]
pub struct Step {
    pub operator: BinaryOperator,
    pub operand: Expr,
}

/// What follows an operand (D specification, "Expressions", "Postfix Expressions").
#[cycle(ast)]
#[derive(Drop)]
pub enum Suffix {
    /// `.x`
    Member(Symbol),
    /// `(a, b)`
    Call(Items<Expr>),
    /// `[]`
    All,
    /// `[i]`
    Index(Expr),
    /// `[a .. b]`
    Slice(Expr, Expr),
    /// `++`
    Increment,
    /// `--`
    Decrement,
}

/// A name, and the arguments of the instance where `!` follows it. `x!a` and `x!(a)` have one argument each.
#[cycle(ast)]
#[derive(Drop)]
pub struct Symbol {
    pub name: Name,
    pub arguments: Option<Items<Argument>>,
}

/// An argument of a template or a trait. What reads as both is a value.
#[cycle(ast)]
#[derive(Drop)]
pub enum Argument {
    Value(Expr),
    OfType(TypeTree),
}

/// `is(T)`, `is(T == U, V)` (D specification, "Expressions", "Is Expressions").
#[cycle(ast)]
#[derive(Drop)]
pub struct IsTree {
    pub of: TypeTree,
    pub test: Option<IsTest>,
}

#[cycle(ast)]
#[derive(Drop)]
pub struct IsTest {
    pub relation: IsRelation,
    pub against: IsAgainst,
    /// The names of the types that the test binds.
    pub names: Items<Name>,
}

#[cycle(ast)]
#[derive(Drop)]
pub enum IsAgainst {
    OfType(TypeTree),
    /// `struct`
    Struct,
}

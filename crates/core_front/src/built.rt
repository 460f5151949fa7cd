// The trees of the forms that are built so far.
use crate::Functions;
use dc_ast::Name;
use dc_types::{BinOp, CmpOp, Items};
use sqlite_items::{Boxed, Items as Children};

/// The operators of chains of numbers (D specification, "Expressions", "Additive Expressions", "Multiplicative
/// Expressions").
#[derive(Clone, Copy)]
pub enum Arithmetic {
    Multiply,
    Divide,
    Remainder,
    Add,
    Subtract,
}

impl Arithmetic {
    ghost use Rattle.std.specs.Prelude.{◌≡◌};
    ghost use Rattle.core_front.specs.Operators.{resolved};

    /// The operator in resolved trees.
    pub fn resolved(self) -> BinOp
        ensures { result ≡ resolved self }
    {
        match self {
            Arithmetic::Multiply => BinOp::Mul,
            Arithmetic::Divide => BinOp::Div,
            Arithmetic::Remainder => BinOp::Rem,
            Arithmetic::Add => BinOp::Add,
            Arithmetic::Subtract => BinOp::Sub,
        }
    }
}

/// An expression that may have a value, and where it begins.
#[cycle(built_value)]
#[derive(Drop)]
pub enum Value {
    Number(u32, i32),
    Name(Name),
    Call(Name, Children<Value>),
    /// Operators of one level, from left to right; at least one.
    Chain(u32, Boxed<Value>, Children<Link>),
}

/// An operator of a chain, and the operand behind it.
#[cycle(built_value)]
#[derive(Drop)]
pub struct Link {
    pub operator: Arithmetic,
    pub operand: Value,
}

/// The condition of an `if` or a `while`.
#[derive(Drop)]
pub enum Test {
    /// `true`
    Always(u32),
    Compare(u32, CmpOp, Value, Value),
}

/// A statement, where it begins, and what it does.
#[cycle(built_action)]
#[derive(Drop)]
pub enum Action {
    Block(Children<Action>),
    /// `int name = value;`
    Declare(u32, Name, Value),
    /// `name = value;`
    Assign(u32, Name, Value),
    /// `name(values);`
    Call(Name, Children<Value>),
    /// `if`, with the branches of an else-if chain, and the last `else`: one statement or none.
    If(u32, Children<Branch>, Children<Action>),
    While(u32, Test, Boxed<Action>),
    Return(u32, Option<Value>),
}

/// A condition, and the statement behind it.
#[cycle(built_action)]
#[derive(Drop)]
pub struct Branch {
    pub test: Test,
    pub body: Action,
}

/// A parameter of type `int`, and where it begins.
#[derive(Drop)]
pub struct Parameter {
    pub at: u32,
    pub name: Name,
}

/// A function, and where it begins.
#[derive(Drop)]
pub struct Function {
    pub at: u32,
    pub gives_int: bool,
    pub name: Name,
    pub parameters: Items<Parameter>,
    pub body: Children<Action>,
}

/// A module: whether it imports `std.stdio`, and its functions.
#[derive(Drop)]
pub struct Program {
    pub prints: bool,
    pub functions: Functions,
}

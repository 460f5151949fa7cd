// What values are resolved to, and what is known where they are judged.
use crate::{Functions, Scope};
use core_tree::{Bodies, Branch, Operation, Stmt, Tree, Variables};
use dc_types::Text;
use sqlite_items::Items as Children;

/// What is known of a module where its functions are judged.
#[derive(Drop)]
pub struct Known {
    /// The module's name.
    pub home: Text,
    /// Whether it imports `std.stdio`.
    pub prints: bool,
    pub functions: Functions,
}

/// A resolved value, and whether it is a number of type `int`; else it is `void`.
#[derive(Drop)]
pub struct Typed {
    pub tree: Tree,
    pub gives_int: bool,
}

/// Resolved arguments, and whether all are numbers.
#[derive(Drop)]
pub struct Arguments {
    pub trees: Children<Tree>,
    pub are_int: bool,
}

/// The operators of a chain with their resolved operands, and whether all are numbers.
#[derive(Drop)]
pub struct Operands {
    pub operations: Children<Operation<Tree>>,
    pub are_int: bool,
}

/// What a call calls.
#[derive(Clone, Copy)]
pub enum Callee {
    /// The function that is declared at the offset, the number of its parameters, and whether it gives an `int`.
    Declared(u32, usize, bool),
    /// `writeln`, or else `write`.
    Print(bool),
}

/// The variables that a function has declared so far: those whose blocks are open, and all but its parameters.
#[derive(Drop)]
pub struct State {
    pub scope: Scope,
    pub declared: Variables,
}

/// A resolved statement, and the variables behind it.
#[derive(Drop)]
pub struct Moved {
    pub stmt: Stmt,
    pub state: State,
}

/// Resolved statements, and the variables behind them.
#[derive(Drop)]
pub struct Stepped {
    pub stmts: Children<Stmt>,
    pub state: State,
}

/// Resolved branches of an `if`, and the variables behind them.
#[derive(Drop)]
pub struct Chosen {
    pub branches: Children<Branch<Stmt>>,
    pub state: State,
}

/// A program that is resolved: a body for each function, and the call with which a run begins.
#[derive(Drop)]
pub struct Resolution {
    pub bodies: Bodies,
    pub start: Tree,
}

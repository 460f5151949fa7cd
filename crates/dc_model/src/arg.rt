// Arguments of templates.
use crate::Symbol;
use dc_tree::{DeclId, PlaceId, TypeId, ValueId, Where};

/// An argument of a template's instance.
#[derive(Clone, Copy)]
pub enum Arg {
    OfType(TypeId),
    OfValue(TypeId, ValueId),
    /// A declaration, a module or an instance, and its place.
    OfSymbol(Symbol, PlaceId),
    /// A module variable as it is written: its value is asked only where a parameter wants one.
    Written(DeclId, Where),
    /// Of a parameter that isn't bound yet.
    Missing,
}

impl Arg {
    /// What a parameter that is bound to it stands for.
    pub fn symbol(self) -> Option<Symbol> {
        match self {
            Arg::OfType(of) => Some(Symbol::Type(of)),
            Arg::OfValue(of, value) => Some(Symbol::Value(of, value)),
            Arg::OfSymbol(symbol, _) => Some(symbol),
            Arg::Written(decl, _) => Some(Symbol::Variable(decl)),
            Arg::Missing => None,
        }
    }
}

/// A stretch of the table of arguments.
#[derive(Clone, Copy, PartialEq, Eq)]
pub struct Args {
    pub from: u32,
    pub len: u32,
}

// All tables together.
use crate::{Bodies, Layouts, Places, Ranges, Stmts, Trees, Types, Values, Variables};
use dc_syntax::{Names, Syntax, Want};
use std::alloc::Global;

/// The number of a declaration: of a text that stands in a certain round or instance.
#[derive(Clone, Copy, PartialEq, Eq, PartialOrd, Ord, Hash)]
pub struct DeclId(pub u32);

/// The number of a unit: a module, a struct or a template's instance.
#[derive(Clone, Copy, PartialEq, Eq, PartialOrd, Ord, Hash)]
pub struct UnitId(pub u32);

/// The tables that judging adds to, and never changes what stands in them.
#[derive(Drop)]
pub struct Pool {
    pub alloc: Global,
    pub names: Names,
    pub syntax: Syntax,
    pub places: Places,
    pub types: Types,
    pub values: Values,
    pub ranges: Ranges,
    pub trees: Trees,
    pub stmts: Stmts,
    pub variables: Variables,
    pub layouts: Layouts,
    pub bodies: Bodies,
}

impl Pool {
    pub fn new(alloc: Global) -> Result<Pool, Want> {
        let mut names = Names::new(alloc);
        let mut places = Places::new(alloc);
        // the place of the whole program, which has no name and no steps
        let nothing = names.number(b"")?;
        places.module(nothing)?;
        Ok(Pool {
            alloc,
            names,
            syntax: Syntax::new(alloc),
            places,
            types: Types::new(alloc)?,
            values: Values::new(alloc),
            ranges: Ranges::new(alloc),
            trees: Trees::new(alloc),
            stmts: Stmts::new(alloc),
            variables: Variables::new(alloc),
            layouts: Layouts::new(alloc),
            bodies: Bodies::new(alloc),
        })
    }
}

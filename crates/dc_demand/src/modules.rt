// The modules of a program.
use crate::breaks::Breaks;
use crate::introduce::{Into, Introduced, NESTED, fill_unit, introduce};
use dc_model::{Decl, DeclKind, Row, Stop, Unit, UnitKind, World};
use dc_syntax::{List, NameId, NodeId, View};
use dc_text::ModuleText;
use dc_tree::{UnitId, Where};

/// Adds the unit of a module.
pub(crate) fn add_module(w: &mut World, name: NameId) -> Result<UnitId, Stop> {
    let place = w.pool.places.module(name)?;
    let spot = w.pool.places.file(place)?;
    let unit = w.add_unit(Unit {
        kind: UnitKind::Module,
        at: Where { spot, at: 0 },
        spot,
        outer: None,
        name,
        decl: None,
        args: None,
        own: None,
        pending: None,
        first: None,
        is_named: true,
        is_built: true,
    })?;
    w.modules.insert(name, unit)?;
    Ok(unit)
}

/// Introduces what a module declares.
pub(crate) fn introduce_module(
    w: &mut World,
    module: ModuleText,
    breaks: &mut Breaks,
) -> Result<(), Stop> {
    let Some(unit) = w.modules.get(&module.name).copied() else {
        return Err(Stop::NoMemory);
    };
    let spot = w.unit(unit)?.spot;
    let into = Into {
        unit,
        spot,
        view: View::Inherited,
        by: None,
    };
    let mut own = Introduced {
        items: Vec::new(w.alloc),
        conds: Vec::new(w.alloc),
    };
    introduce(w, into, module.declarations, &mut own, breaks, NESTED)?;
    fill_unit(w, unit, &own)
}

/// Adds a built-in module and its functions.
fn add_builtin(w: &mut World, name: &[u8], functions: &[&[u8]]) -> Result<(), Stop> {
    let name = w.pool.names.number(name)?;
    let unit = add_module(w, name)?;
    let spot = w.unit(unit)?.spot;
    for (k, function) in functions.iter().enumerate() {
        let own = w.pool.names.number(function)?;
        let at = Where {
            spot,
            at: u32::try_from(k).unwrap_or(u32::MAX),
        };
        let decl = w.add_decl(Decl {
            kind: DeclKind::Builtin,
            node: NodeId(u32::MAX),
            at,
            unit,
            name: Some(own),
            hidden: false,
            index: 0,
            other: None,
            owner: None,
            is_template: false,
            inner: None,
            local: None,
        })?;
        let place = w.pool.places.place(at)?;
        w.placed.insert(place, decl)?;
        let row = Row {
            unit,
            at,
            hidden: false,
            callable: true,
            decl: Some(decl),
            import: None,
            by: None,
            before: None,
        };
        w.rows.add_named(own, row)?;
    }
    Ok(())
}

/// Adds the modules that are there without a file.
pub(crate) fn add_builtins(w: &mut World) -> Result<(), Stop> {
    add_builtin(w, b"std.stdio", &[b"write", b"writeln"])?;
    add_builtin(w, b"std.conv", &[b"to", b"text"])
}

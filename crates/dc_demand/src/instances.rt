// Instances that are named: their rows are introduced, and their declarations are questions.
use crate::breaks::Breaks;
use crate::introduce::{Into, Introduced, NESTED, fill_unit, introduce, link_items};
use dc_model::{DeclKind, ItemKind, Stop, World};
use dc_syntax::{Form, View};
use dc_tree::UnitId;

/// Introduces what stands in an instance of a template or a struct.
fn build(w: &mut World, unit: UnitId, breaks: &mut Breaks) -> Result<(), Stop> {
    let known = w.unit(unit)?;
    if known.is_built {
        return Ok(());
    }
    let Some(template) = known.decl else {
        return Ok(());
    };
    let (Form::Struct(n) | Form::Template(n)) = w.pool.syntax.node(w.decl(template)?.node).form
    else {
        return own_item(w, unit);
    };
    let Some(node) = w.pool.syntax.structure(n) else {
        return Ok(());
    };
    let into = Into {
        unit,
        spot: known.spot,
        view: View::Inherited,
        by: None,
    };
    let mut own = Introduced {
        items: Vec::new(w.alloc),
        conds: Vec::new(w.alloc),
    };
    introduce(w, into, node.members, &mut own, breaks, NESTED)?;
    fill_unit(w, unit, &own)
}

/// The only item of an instance that is a declaration itself.
fn own_item(w: &mut World, unit: UnitId) -> Result<(), Stop> {
    let Some(own) = w.unit(unit)?.own else {
        return Ok(());
    };
    if w.decl(own)?.kind == DeclKind::Struct {
        return Ok(());
    }
    let first = link_items(w, &[ItemKind::Decl(own)])?;
    if let Some(slot) = w.units.get_mut(unit.0 as usize) {
        slot.first = first;
        slot.is_built = true;
    }
    Ok(())
}

/// Names an instance. Answers whether it wasn't named before.
pub(crate) fn name_unit(w: &mut World, unit: UnitId) -> Result<bool, Stop> {
    if w.unit(unit)?.is_named {
        return Ok(false);
    }
    let mut breaks = Breaks::NONE;
    build(w, unit, &mut breaks)?;
    breaks.check()?;
    if let Some(slot) = w.units.get_mut(unit.0 as usize) {
        slot.is_named = true;
    }
    Ok(true)
}

/// The units of the structs that stand in a unit so far.
pub(crate) fn inner_units(w: &World, unit: UnitId) -> Result<Vec<UnitId>, Stop> {
    let mut all = Vec::new(w.alloc);
    for id in w.declarations(unit)?.as_slice() {
        let decl = w.decl(*id)?;
        if decl.kind == DeclKind::Struct {
            if let Some(inner) = decl.inner {
                if inner != unit {
                    all.push(inner)?;
                }
            }
        }
    }
    Ok(all)
}

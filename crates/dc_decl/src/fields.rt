// The fields of structs (D specification, "Structs and Unions", "Struct Layout").
use crate::constant::start_of;
use dc_facts::{TYPE_CELLS, cells, check_cells, variable_type};
use dc_model::{DeclKind, Stop, World};
use dc_names::settled;
use dc_tree::{Field, UnitId};

/// Judges the fields of a struct in text order, and keeps its layout.
pub fn judge_layout(w: &mut World, unit: UnitId) -> Result<(), Stop> {
    settled(w, unit)?;
    let mut fields = Vec::new(w.alloc);
    let mut sum: u64 = 0;
    for id in w.declarations(unit)?.as_slice() {
        let decl = w.decl(*id)?;
        let (DeclKind::Variable, Some(name)) = (decl.kind, decl.name) else {
            continue;
        };
        let of = variable_type(w, *id)?;
        check_cells(w, of, decl.at)?;
        let start = start_of(w, *id, of)?;
        fields.push(Field {
            decl: *id,
            name,
            of,
            start,
            offset: u32::try_from(sum).unwrap_or(u32::MAX),
        })?;
        sum = sum.saturating_add(cells(w, of)?);
    }
    let at = w.unit(unit)?.at;
    if sum > TYPE_CELLS {
        return w.refuse(18, at, None);
    }
    let whole = u32::try_from(sum.max(1)).unwrap_or(u32::MAX);
    w.pool.layouts.add(unit, fields.as_slice(), whole)?;
    Ok(())
}

// What trials and tests of names ask: what was settled, what is guarded, which names a type has.
use crate::names::{Property, Sought, has_enumerator, look_within};
use dc_model::{Ask, Decl, DeclKind, Env, Question, Stop, Work, World};
use dc_syntax::NameId;
use dc_tree::{Type, TypeId, UnitId};

/// The result, or nothing where it fails by a rule that makes a guard false.
pub fn guarded<T: Drop>(found: Result<T, Stop>) -> Result<Option<T>, Stop> {
    match found {
        Ok(found) => Ok(Some(found)),
        Err(Stop::Failed(refused)) => {
            if refused.is_guarded() {
                Ok(None)
            } else {
                Err(Stop::Failed(refused))
            }
        }
        Err(stop) => Err(stop),
    }
}

/// Whether a type has a member or a property of that name.
pub fn type_has(w: &mut World, env: Env, of: TypeId, sought: Sought) -> Result<bool, Stop> {
    match w.pool.types.get(of) {
        Type::Struct(unit) => {
            if look_within(w, env, unit, sought)?.is_some() {
                return Ok(true);
            }
        }
        Type::Enum(decl, _) => {
            if has_enumerator(w, decl, sought.name)? {
                return Ok(true);
            }
        }
        _ => {}
    }
    let element = w.pool.types.element(of);
    Ok(match Property::of(w.pool.names.bytes(sought.name)) {
        Property::Init | Property::StringOf => true,
        Property::Min | Property::Max => match w.pool.types.get(of) {
            Type::Int(_) => true,
            _ => false,
        },
        Property::Length | Property::Dup => element.is_some(),
        Property::Idup => element == Some(TypeId::CHAR),
        Property::Other => false,
    })
}

/// Asks the conditionals of a unit that aren't settled.
pub fn settled(w: &mut World, unit: UnitId) -> Result<(), Stop> {
    let Some(cond) = w.unit(unit)?.pending else {
        return Ok(());
    };
    let stands = w.cond(cond)?.at;
    let at = w.pool.places.place(stands)?;
    let question = Question {
        ask: Ask::Settle,
        at,
    };
    w.ask(question, Work::Settle(cond))?;
    Ok(())
}

/// The names that a declaration of a struct gives.
pub fn push_names(w: &World, decl: Decl, names: &mut Vec<NameId>) -> Result<(), Stop> {
    if let Some(name) = decl.name {
        if !names.contains(&name) {
            names.push(name)?;
        }
        return Ok(());
    }
    if decl.kind != DeclKind::Enum {
        return Ok(());
    }
    let mut at = decl.other;
    for _ in 0..u64::MAX {
        let Some(id) = at else {
            break;
        };
        let member = w.decl(id)?;
        if let Some(name) = member.name {
            if !names.contains(&name) {
                names.push(name)?;
            }
        }
        at = member.other;
    }
    Ok(())
}

// What functions may take, and the units of trials.
use dc_ast::Storage;
use dc_facts::{Holding, decl_env, holds};
use dc_model::{Arg, Decl, Env, Stop, Unit, World};
use dc_tree::{DeclId, TypeId, UnitId, Where};

/// Refuses `const` and `immutable` where the type holds a slice but `string`.
pub fn check_storage(
    w: &mut World,
    storage: Option<Storage>,
    of: TypeId,
    at: Where,
) -> Result<(), Stop> {
    if storage.is_some() && holds(w, of, Holding::Slice)? {
        return w.refuse(10, at, None);
    }
    Ok(())
}

/// The declaration of an instance without parameters, and where its text is judged.
pub fn own_env(w: &mut World, unit: UnitId) -> Result<(Decl, Env), Stop> {
    let Some(own) = w.unit(unit)?.own else {
        return Err(Stop::NoMemory);
    };
    let decl = w.decl(own)?;
    let env = decl_env(w, decl)?;
    Ok((decl, env))
}

/// A unit in which a template's parameters are bound, and which is no instance of it.
pub fn trial_unit(w: &mut World, template: DeclId, args: &[Arg]) -> Result<UnitId, Stop> {
    let decl = w.decl(template)?;
    let args = w.add_args(args)?;
    let name = match decl.name {
        Some(name) => name,
        None => return Err(Stop::NoMemory),
    };
    Ok(w.add_unit(Unit {
        kind: dc_model::UnitKind::Instance,
        at: decl.at,
        spot: decl.at.spot,
        outer: Some(decl.unit),
        name,
        decl: Some(template),
        args: Some(args),
        own: None,
        pending: None,
        first: None,
        is_named: false,
        is_built: false,
    })?)
}

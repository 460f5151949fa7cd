// Patterns of parameters: what is open in them and what an argument binds.
use dc_form::slice_of;
use dc_model::{Arg, Stop, World};
use dc_syntax::{Form, List, NameId, NodeId};
use dc_tree::{Type, TypeId};

/// The number of the parameter of that name.
fn position(w: &World, parameters: List, name: NameId) -> Option<u32> {
    for k in 0..parameters.len {
        let found = match w.pool.syntax.node(w.pool.syntax.item(parameters, k)).form {
            Form::TypeParameter(own)
            | Form::ValueParameter(_, own)
            | Form::AliasParameter(own)
            | Form::Name(own) => own,
            _ => continue,
        };
        if found == name {
            return Some(k);
        }
    }
    None
}

/// The name for which a type stands, where it is one name alone.
fn only_name(w: &World, of: NodeId) -> Option<NameId> {
    let Form::Named(parts) = w.pool.syntax.node(of).form else {
        return None;
    };
    if parts.len != 1 {
        return None;
    }
    match w.pool.syntax.node(w.pool.syntax.item(parts, 0)).form {
        Form::Name(name) => Some(name),
        _ => None,
    }
}

/// The number of the parameter that a type names alone.
pub fn parameter_in(w: &World, parameters: List, of: NodeId) -> Option<u32> {
    position(w, parameters, only_name(w, of)?)
}

/// The number of the parameter that an expression names alone.
pub fn parameter_of_length(w: &World, parameters: List, length: NodeId) -> Option<u32> {
    match w.pool.syntax.node(length).form {
        Form::Name(name) => position(w, parameters, name),
        _ => None,
    }
}

fn is_open(bound: &[Arg], k: u32) -> bool {
    match bound.get(k as usize) {
        Some(Arg::Missing) => true,
        _ => false,
    }
}

/// Whether a type has a form from which parameters are deduced.
pub fn mentions(w: &World, parameters: List, of: NodeId) -> bool {
    match w.pool.syntax.node(of).form {
        Form::Named(_) => parameter_in(w, parameters, of).is_some(),
        Form::Brackets(base, brackets) => {
            parameter_in(w, parameters, base).is_some() || names_length(w, parameters, brackets)
        }
        _ => false,
    }
}

/// Whether a length among brackets names a parameter.
fn names_length(w: &World, parameters: List, brackets: List) -> bool {
    for k in 0..brackets.len {
        if let Form::Index(length) = w.pool.syntax.node(w.pool.syntax.item(brackets, k)).form {
            if parameter_of_length(w, parameters, length).is_some() {
                return true;
            }
        }
    }
    false
}

/// Whether a type names, in a form of deduction, a parameter that isn't bound.
pub fn has_open(w: &World, parameters: List, bound: &[Arg], of: NodeId) -> bool {
    let (base, brackets) = match w.pool.syntax.node(of).form {
        Form::Brackets(base, brackets) => (base, brackets),
        _ => (of, List { from: 0, len: 0 }),
    };
    if let Some(k) = parameter_in(w, parameters, base) {
        if is_open(bound, k) {
            return true;
        }
    }
    for k in 0..brackets.len {
        if let Form::Index(length) = w.pool.syntax.node(w.pool.syntax.item(brackets, k)).form {
            if let Some(k) = parameter_of_length(w, parameters, length) {
                if is_open(bound, k) {
                    return true;
                }
            }
        }
    }
    false
}

/// Binds an open parameter to an argument.
pub fn set(bound: &mut Vec<Arg>, k: u32, arg: Arg) {
    if let Some(slot) = bound.get_mut(k as usize) {
        *slot = arg;
    }
}

/// Binds a type parameter to a type, or compares them.
pub fn bind_type(bound: &mut Vec<Arg>, k: u32, of: TypeId) -> bool {
    match bound.get(k as usize).copied() {
        Some(Arg::OfType(known)) => known == of,
        Some(Arg::Missing) => {
            if of == TypeId::VOID {
                return false;
            }
            set(bound, k, Arg::OfType(of));
            true
        }
        _ => false,
    }
}

/// Whether a bound type is that of `null` or `[]`, or an array of these.
pub fn is_unfit(w: &World, arg: Arg) -> bool {
    let Arg::OfType(of) = arg else {
        return false;
    };
    let mut at = of;
    for _ in 0..u32::MAX {
        match w.pool.types.get(at) {
            Type::Slice(item) | Type::Fixed(item, _) => at = item,
            Type::Null | Type::Empty => return true,
            _ => return false,
        }
    }
    false
}

/// The type of a function's parameter as it is written.
pub fn parameter_type(w: &World, parameters: List, k: u32) -> Option<NodeId> {
    match w.pool.syntax.node(w.pool.syntax.item(parameters, k)).form {
        Form::Parameter(n) => w.pool.syntax.parameters.get(n as usize).map(|p| p.of),
        _ => None,
    }
}

/// The type that an `is` with `:` compares with a pattern: of a fixed array its slice, of an enum
/// its base.
pub fn softened(w: &mut World, pattern: NodeId, of: TypeId) -> Result<TypeId, Stop> {
    let Form::Brackets(_, brackets) = w.pool.syntax.node(pattern).form else {
        return Ok(of);
    };
    let last = w.pool.syntax.item(brackets, brackets.len.saturating_sub(1));
    let ends_open = match w.pool.syntax.node(last).form {
        Form::All => true,
        _ => false,
    };
    match w.pool.types.get(of) {
        Type::Fixed(_, _) if ends_open => slice_of(w, of),
        Type::Enum(_, base) => Ok(base),
        _ => Ok(of),
    }
}

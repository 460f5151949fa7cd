// What declarations stand for.
use crate::DEEP;
use crate::constant::judge_constant;
use crate::enumeration::{judge_enum, judge_member};
use dc_facts::decl_env;
use dc_model::{DeclKind, Env, Stop, Symbol, World};
use dc_names::check_storage;
use dc_syntax::{Form, NodeId, VariableNode};
use dc_tree::{DeclId, Type, TypeId, Where};
use dc_typing::{judge, judge_type, resolve};

/// What a declaration stands for; of a variable or a field its type.
pub fn judge_symbol(w: &mut World, id: DeclId) -> Result<Symbol, Stop> {
    let decl = w.decl(id)?;
    if decl.is_template {
        return Ok(Symbol::Template(id));
    }
    let env = decl_env(w, decl)?;
    match (decl.kind, w.pool.syntax.node(decl.node).form) {
        (DeclKind::Constant, Form::Constant(n)) => judge_constant(w, env, n),
        (DeclKind::Alias, Form::Alias(n)) => match w.pool.syntax.aliases.get(n as usize).copied() {
            Some(alias) => alias_target(w, env, alias.target),
            None => Err(Stop::NoMemory),
        },
        (DeclKind::Enum, _) => judge_enum(w, env, id),
        (DeclKind::Member, _) => judge_member(w, decl),
        (DeclKind::Variable, Form::Variable(n)) => {
            let Some(variable) = w.pool.syntax.variables.get(n as usize).copied() else {
                return Err(Stop::NoMemory);
            };
            let of = variable_type(w, env, variable, decl.index, decl.at)?;
            Ok(Symbol::VariableType(of))
        }
        (DeclKind::Struct, _) => match decl.inner {
            Some(unit) => Ok(Symbol::Type(w.pool.types.number(Type::Struct(unit))?)),
            None => Ok(Symbol::Template(id)),
        },
        _ => Ok(Symbol::Template(id)),
    }
}

/// What an alias stands for (D specification, "Declarations", "Alias Declaration").
pub fn alias_target(w: &mut World, env: Env, target: NodeId) -> Result<Symbol, Stop> {
    let found = resolve(w, env, target, DEEP)?;
    let symbol = dc_names::package_end(w, env, found.symbol)?;
    match symbol {
        Symbol::Tree(_) | Symbol::Package(_) | Symbol::Method(_, _) => {
            w.refuse(10, found.name_at, None)
        }
        _ => Ok(symbol),
    }
}

/// The initialiser of a variable of a declaration.
pub(crate) fn value_of(w: &World, variable: VariableNode, index: u32) -> Option<NodeId> {
    match w
        .pool
        .syntax
        .node(w.pool.syntax.item(variable.variables, index))
        .form
    {
        Form::One(_, _, value) => value,
        _ => None,
    }
}

/// The offset of a node in the text of an environment.
pub(crate) fn at_node(w: &World, env: Env, n: NodeId) -> Where {
    Where {
        spot: env.spot,
        at: w.pool.syntax.node(n).at,
    }
}

/// The type of a variable, as it is written or as that of its value.
fn variable_type(
    w: &mut World,
    env: Env,
    variable: VariableNode,
    index: u32,
    at: Where,
) -> Result<TypeId, Stop> {
    let value = value_of(w, variable, index);
    let (of, type_at) = match (variable.of, value) {
        (Some(of), _) => {
            let type_at = at_node(w, env, of);
            (judge_type(w, env, of, DEEP)?, type_at)
        }
        (None, Some(value)) => {
            let type_at = at_node(w, env, value);
            let tree = judge(w, env, value, None, DEEP)?;
            let of = w.pool.trees.get(tree).of;
            check_auto(w, of, type_at)?;
            (of, type_at)
        }
        (None, None) => return w.refuse(10, at, None),
    };
    if of == TypeId::VOID {
        return w.refuse(10, type_at, None);
    }
    check_storage(w, variable.storage, of, type_at)?;
    Ok(of)
}

/// Refuses the types of `null` and `[]`, and arrays of these, as the type of a variable or a function.
pub fn check_auto(w: &mut World, of: TypeId, at: Where) -> Result<(), Stop> {
    let mut inner = of;
    for _ in 0..u32::MAX {
        match w.pool.types.get(inner) {
            Type::Slice(item) | Type::Fixed(item, _) => inner = item,
            Type::Null | Type::Empty => return w.refuse(10, at, None),
            _ => break,
        }
    }
    Ok(())
}

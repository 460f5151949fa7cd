// Enums and their members (D specification, "Enums").
use crate::DEEP;
use crate::standing::at_node;
use dc_facts::{decl_env, start_value, symbol_of};
use dc_model::{Decl, Env, Stop, Symbol, World};
use dc_names::Want;
use dc_syntax::{EnumNode, Form, NodeId};
use dc_tree::{DeclId, Range, Type, TypeId, Where};
use dc_typing::{evaluate, judge, judge_type};

/// Where the initialisers of an enum's members are judged: its members are names there.
pub fn member_env(w: &mut World, env: Env, id: DeclId) -> Result<Env, Stop> {
    let decl = w.decl(id)?;
    if decl.name.is_none() && decl.local.is_none() {
        return Ok(env);
    }
    if let Some(block) = w.enum_blocks.get(&id).copied() {
        return Ok(Env {
            block: Some(block),
            ..env
        });
    }
    let block = w.locals.open(env.block, true)?;
    let mut at = decl.other;
    for _ in 0..u64::MAX {
        let Some(member) = at else {
            break;
        };
        let known = w.decl(member)?;
        if let Some(name) = known.name {
            w.locals.put(block, name, Symbol::Asked(member), known.at)?;
        }
        at = known.other;
    }
    w.enum_blocks.insert(id, block)?;
    Ok(Env {
        block: Some(block),
        ..env
    })
}

fn node_of(w: &World, decl: Decl) -> Result<EnumNode, Stop> {
    match w.pool.syntax.node(decl.node).form {
        Form::Enum(n) => match w.pool.syntax.enums.get(n as usize).copied() {
            Some(node) => Ok(node),
            None => Err(Stop::NoMemory),
        },
        _ => Err(Stop::NoMemory),
    }
}

/// The value of a member as it is written.
fn written(w: &World, node: EnumNode, index: u32) -> Option<NodeId> {
    match w
        .pool
        .syntax
        .node(w.pool.syntax.item(node.members, index))
        .form
    {
        Form::EnumMember(_, value) => value,
        _ => None,
    }
}

fn is_unfit(of: TypeId) -> bool {
    of == TypeId::VOID || of == TypeId::NULL || of == TypeId::EMPTY
}

/// The base of an enum: as it is stated, else that of its first member's value, else `int`.
fn base_of(w: &mut World, env: Env, id: DeclId) -> Result<TypeId, Stop> {
    let decl = w.decl(id)?;
    let node = node_of(w, decl)?;
    let (base, at) = match (node.base, written(w, node, 0)) {
        (Some(of), _) => (judge_type(w, env, of, DEEP)?, at_node(w, env, of)),
        (None, Some(value)) => {
            let inner = member_env(w, env, id)?;
            let tree = judge(w, inner, value, None, DEEP)?;
            (w.pool.trees.get(tree).of, at_node(w, env, value))
        }
        (None, None) => return Ok(TypeId::INT),
    };
    if is_unfit(base) {
        return w.refuse(10, at, None);
    }
    Ok(base)
}

/// What an enum stands for.
pub(crate) fn judge_enum(w: &mut World, env: Env, id: DeclId) -> Result<Symbol, Stop> {
    let base = base_of(w, env, id)?;
    let is_named = w.decl(id)?.name.is_some();
    if !is_named {
        return Ok(Symbol::Type(base));
    }
    Ok(Symbol::Type(w.pool.types.number(Type::Enum(id, base))?))
}

/// The type of an enum's members, and its base.
fn member_type(w: &mut World, owner: DeclId) -> Result<(TypeId, TypeId), Stop> {
    match symbol_of(w, owner)? {
        Symbol::Type(of) => match w.pool.types.get(of) {
            Type::Enum(decl, base) if decl == owner => Ok((of, base)),
            _ => Ok((of, of)),
        },
        _ => Err(Stop::NoMemory),
    }
}

/// The member before one in its enum.
fn member_before(w: &World, owner: DeclId, index: u32) -> Result<Option<DeclId>, Stop> {
    let mut at = w.decl(owner)?.other;
    for _ in 0..u64::MAX {
        let Some(id) = at else {
            break;
        };
        let known = w.decl(id)?;
        if known.index == index.saturating_sub(1) {
            return Ok(Some(id));
        }
        at = known.other;
    }
    Ok(None)
}

/// The value of a member of an enum.
pub(crate) fn judge_member(w: &mut World, decl: Decl) -> Result<Symbol, Stop> {
    let Some(owner) = decl.owner else {
        return Err(Stop::NoMemory);
    };
    let (of, base) = member_type(w, owner)?;
    let node = node_of(w, decl)?;
    if let Some(value) = written(w, node, decl.index) {
        let env = decl_env(w, decl)?;
        let inner = member_env(w, env, owner)?;
        let (_, found) = evaluate(w, inner, value, Want::To(base), DEEP)?;
        return Ok(Symbol::Value(of, found));
    }
    if decl.index == 0 {
        return Ok(Symbol::Value(of, start_value(w, base)?));
    }
    let Some(before) = member_before(w, owner, decl.index)? else {
        return Err(Stop::NoMemory);
    };
    let Symbol::Value(_, last) = symbol_of(w, before)? else {
        return Err(Stop::NoMemory);
    };
    next_value(w, of, base, last, decl.at)
}

/// The value behind another one of an enum's base, or rule 10 where there is none.
fn next_value(
    w: &mut World,
    of: TypeId,
    base: TypeId,
    last: dc_tree::ValueId,
    at: Where,
) -> Result<Symbol, Stop> {
    let Some(kind) = w.pool.types.kind(base) else {
        return w.refuse(10, at, None);
    };
    let n = w.pool.values.as_number(last);
    if n >= Range::of_kind(kind).hi {
        return w.refuse(10, at, None);
    }
    Ok(Symbol::Value(of, w.pool.values.number(n.saturating_add(1))?))
}

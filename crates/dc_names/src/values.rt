// The values for which symbols stand.
use crate::names::package_end;
use crate::wheres::Resolved;
use dc_facts::{this_unit, variable_type};
use dc_form::{add, bare, constant};
use dc_model::{Env, Stop, Symbol, World};
use dc_syntax::Form;
use dc_tree::{DeclId, Tree, TreeForm, TreeId, Type, TypeId, VarId, Where};

/// The tree of the value for which a symbol stands, or rule 10 at its name.
pub fn value(w: &mut World, env: Env, found: Resolved, at: Where) -> Result<TreeId, Stop> {
    match package_end(w, env, found.symbol)? {
        Symbol::Tree(tree) => Ok(tree),
        Symbol::Value(of, value) => constant(w, of, value, at),
        Symbol::Local(variable) => local(w, variable, at),
        Symbol::Dollar(variable) => {
            w.pool.variables.set_own(variable);
            add(w, TreeForm::Dollar(variable), TypeId::ULONG, at)
        }
        Symbol::Variable(decl) => global(w, decl, at),
        Symbol::Field(decl) => own_field(w, env, decl, at, found.name_at),
        _ => w.refuse(10, found.name_at, None),
    }
}

fn local(w: &mut World, id: VarId, at: Where) -> Result<TreeId, Stop> {
    let Some(variable) = w.pool.variables.get(id) else {
        return Err(Stop::NoMemory);
    };
    let tree = Tree {
        is_place: true,
        read_only: variable.is_const,
        root: if variable.is_ref { None } else { Some(id) },
        ..bare(TreeForm::Local(id), variable.of, at)
    };
    Ok(w.pool.trees.add(tree)?)
}

/// Whether a module variable or a field is marked `const` or `immutable`.
fn is_const_variable(w: &World, decl: DeclId) -> Result<bool, Stop> {
    let known = w.decl(decl)?;
    Ok(match w.pool.syntax.node(known.node).form {
        Form::Variable(n) => match w.pool.syntax.variables.get(n as usize) {
            Some(variable) => variable.storage.is_some(),
            None => false,
        },
        _ => false,
    })
}

fn global(w: &mut World, decl: DeclId, at: Where) -> Result<TreeId, Stop> {
    let of = variable_type(w, decl)?;
    let read_only = is_const_variable(w, decl)?;
    let tree = Tree {
        is_place: true,
        read_only,
        ..bare(TreeForm::Global(decl), of, at)
    };
    Ok(w.pool.trees.add(tree)?)
}

/// `this`
pub fn this(w: &mut World, of: TypeId, at: Where) -> Result<TreeId, Stop> {
    let tree = Tree {
        is_place: true,
        ..bare(TreeForm::This, of, at)
    };
    Ok(w.pool.trees.add(tree)?)
}

/// A field that is named alone: of `this`, or of no value where none is needed.
fn own_field(
    w: &mut World,
    env: Env,
    decl: DeclId,
    at: Where,
    name_at: Where,
) -> Result<TreeId, Stop> {
    let unit = w.decl(decl)?.unit;
    let of = w.pool.types.number(Type::Struct(unit))?;
    if env.this == Some(of) || env.in_typeof {
        let base = this(w, of, at)?;
        return field(w, base, decl, at);
    }
    w.refuse(10, name_at, None)
}

/// A field of a struct's value.
pub fn field(w: &mut World, base: TreeId, decl: DeclId, at: Where) -> Result<TreeId, Stop> {
    let of = variable_type(w, decl)?;
    let known = w.pool.trees.get(base);
    let is_const = is_const_variable(w, decl)?;
    let tree = Tree {
        is_place: known.is_place,
        read_only: known.read_only || is_const,
        root: known.root,
        ..bare(TreeForm::Field(base, decl), of, at)
    };
    Ok(w.pool.trees.add(tree)?)
}

/// The receiver of member functions that are named alone.
pub fn implicit_this(
    w: &mut World,
    env: Env,
    function: DeclId,
    at: Where,
) -> Result<Option<TreeId>, Stop> {
    let known = w.decl(function)?;
    if known.kind == dc_model::DeclKind::Builtin {
        return Ok(None);
    }
    let Some(unit) = this_unit(w, known.unit)? else {
        return Ok(None);
    };
    let of = w.pool.types.number(Type::Struct(unit))?;
    if env.this == Some(of) {
        Ok(Some(this(w, of, at)?))
    } else {
        Ok(None)
    }
}

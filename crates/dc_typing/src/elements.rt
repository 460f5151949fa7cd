// Elements and parts of arrays (D specification, "Arrays", "Indexing" and "Slicing").
use crate::expression::judge;
use dc_facts::deeper;
use dc_form::{as_kind, bare, own, slice_of, whole};
use dc_model::{Env, Stop, Symbol, World};
use dc_names::{Resolved, here, value};
use dc_syntax::NodeId;
use dc_tree::{Tree, TreeForm, TreeId, TypeId, VarId, Variable, Where};
use dc_types::Kind;

/// An environment in which `$` is a length, and the hidden variable that holds it.
fn dollar_env(w: &mut World, env: Env, at: Where) -> Result<(Env, VarId), Stop> {
    let name = w.pool.names.number(b"$")?;
    let hidden = w.pool.variables.add(Variable {
        name,
        of: TypeId::ULONG,
        at,
        is_const: true,
        is_ref: false,
        own: false,
    })?;
    let block = w.locals.open(env.block, true)?;
    w.locals.put(block, name, Symbol::Dollar(hidden), at)?;
    Ok((
        Env {
            block: Some(block),
            ..env
        },
        hidden,
    ))
}

/// An index or a bound as a `ulong`.
#[cycle(judging)]
fn bound(w: &mut World, env: Env, n: NodeId, depth: u32) -> Result<TreeId, Stop> {
    let less = deeper(depth)?;
    let tree = judge(w, env, n, None, less)?;
    if w.pool.types.kind(w.pool.trees.get(tree).of).is_none() {
        let at = here(env, w.pool.syntax.node(n).at);
        return w.refuse(10, at, None);
    }
    as_kind(w, tree, Kind::U64)
}

/// `a[i]`
#[cycle(judging)]
pub(crate) fn judge_index(
    w: &mut World,
    env: Env,
    base: Resolved,
    index: NodeId,
    at: Where,
    depth: u32,
) -> Result<TreeId, Stop> {
    let less = deeper(depth)?;
    let array = value(w, env, base, at)?;
    let known = w.pool.trees.get(array);
    let Some(element) = w.pool.types.element(known.of) else {
        return w.refuse(10, at, None);
    };
    let (inner, hidden) = dollar_env(w, env, at)?;
    let i = bound(w, inner, index, less)?;
    let tree = match w.pool.types.fixed_length(known.of) {
        Some(len) => Tree {
            is_place: known.is_place,
            read_only: known.read_only,
            root: known.root,
            ..bare(TreeForm::FixedIndex(array, i, hidden, len), element, at)
        },
        None => Tree {
            is_place: true,
            read_only: known.of == TypeId::STRING,
            ..bare(TreeForm::Index(array, i, hidden), element, at)
        },
    };
    Ok(w.pool.trees.add(tree)?)
}

/// `a[]`, `a[from .. to]`
#[cycle(judging)]
pub(crate) fn judge_part(
    w: &mut World,
    env: Env,
    base: Resolved,
    bounds: Option<(NodeId, NodeId)>,
    at: Where,
    depth: u32,
) -> Result<TreeId, Stop> {
    let less = deeper(depth)?;
    let array = value(w, env, base, at)?;
    let of = w.pool.trees.get(array).of;
    if w.pool.types.element(of).is_none() {
        return w.refuse(10, at, None);
    }
    let slice = match w.pool.types.fixed_length(of) {
        Some(_) => {
            let to = slice_of(w, of)?;
            own(w, array);
            whole(w, array, to, at)?
        }
        None => array,
    };
    let form = match bounds {
        None => TreeForm::All(slice),
        Some((from, to)) => {
            let (inner, hidden) = dollar_env(w, env, at)?;
            let first = bound(w, inner, from, less)?;
            let last = bound(w, inner, to, less)?;
            TreeForm::Part(slice, first, last, hidden)
        }
    };
    let slice_type = w.pool.trees.get(slice).of;
    let tree = Tree {
        read_only: slice_type == TypeId::STRING,
        ..bare(form, slice_type, at)
    };
    Ok(w.pool.trees.add(tree)?)
}

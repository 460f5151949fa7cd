// Manifest constants and initialisers (D specification, "Enums", "Manifest Constants").
use crate::DEEP;
use crate::standing::{at_node, value_of};
use dc_facts::{check_cells, decl_env, start_value, variable_type};
use dc_model::{Env, Stop, Symbol, World};
use dc_names::Want;
use dc_syntax::Form;
use dc_tree::{DeclId, TypeId, ValueId};
use dc_typing::{evaluate, judge_type};

/// The value of `enum T name = value;`
pub(crate) fn judge_constant(w: &mut World, env: Env, n: u32) -> Result<Symbol, Stop> {
    let Some(constant) = w.pool.syntax.constants.get(n as usize).copied() else {
        return Err(Stop::NoMemory);
    };
    let want = match constant.of {
        Some(of) => {
            let found = judge_type(w, env, of, DEEP)?;
            if found == TypeId::VOID {
                let at = at_node(w, env, of);
                return w.refuse(10, at, None);
            }
            Want::To(found)
        }
        None => Want::Any,
    };
    let (of, value) = evaluate(w, env, constant.value, want, DEEP)?;
    if of == TypeId::VOID {
        let at = at_node(w, env, constant.value);
        return w.refuse(10, at, None);
    }
    Ok(Symbol::Value(of, value))
}

/// The start value of a module variable or a field: of its initialiser, or of its type.
pub fn initial_value(w: &mut World, id: DeclId) -> Result<ValueId, Stop> {
    let of = variable_type(w, id)?;
    let decl = w.decl(id)?;
    if dc_facts::this_unit(w, decl.unit)? != Some(decl.unit) {
        check_cells(w, of, decl.at)?;
    }
    start_of(w, id, of)
}

/// The same, where the type is known and its cells were checked.
pub fn start_of(w: &mut World, id: DeclId, of: TypeId) -> Result<ValueId, Stop> {
    let decl = w.decl(id)?;
    let Form::Variable(n) = w.pool.syntax.node(decl.node).form else {
        return Err(Stop::NoMemory);
    };
    let Some(variable) = w.pool.syntax.variables.get(n as usize).copied() else {
        return Err(Stop::NoMemory);
    };
    match value_of(w, variable, decl.index) {
        Some(value) => {
            let env = decl_env(w, decl)?;
            Ok(evaluate(w, env, value, Want::To(of), DEEP)?.1)
        }
        None => start_value(w, of),
    }
}

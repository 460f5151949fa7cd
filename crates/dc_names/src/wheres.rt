// What a name in a text resolves to, and where it stands.
use crate::names::Sought;
use dc_model::{Env, Symbol, World};
use dc_syntax::{Form, List, NodeId};
use dc_tree::Where;

/// What an expression stands for, and the offset of its last name.
#[derive(Clone, Copy)]
pub struct Resolved {
    pub symbol: Symbol,
    /// Where rule 10 on the symbol is: at the last name, or at the expression.
    pub name_at: Where,
}

/// An offset in the text of an environment.
pub fn here(env: Env, at: u32) -> Where {
    Where { spot: env.spot, at }
}

/// A name or an instance as what is looked for.
pub fn sought_of(w: &World, env: Env, n: NodeId) -> Option<(Sought, Option<List>)> {
    let node = w.pool.syntax.node(n);
    match node.form {
        Form::Name(name) => Some((
            Sought {
                name,
                at: here(env, node.at),
                is_applied: false,
            },
            None,
        )),
        Form::Instance(name, args) => Some((
            Sought {
                name,
                at: here(env, node.at),
                is_applied: true,
            },
            Some(args),
        )),
        _ => None,
    }
}

// The step from the parser's trees to nodes.
use crate::flat::Flat;
use crate::{List, Names, NodeId, Syntax, Want};
use dc_ast::{Decls, Expr, ModuleTree, Stmts};

/// Writes a module's declarations to the table, and gives the list of them: nodes of the form
/// `Declared`.
///
/// Groups are inlined, and a section holds up to the end of its list or group. What is written
/// before a declaration itself comes before both.
pub fn flat_module(
    tree: &ModuleTree,
    syntax: &mut Syntax,
    names: &mut Names,
) -> Result<List, Want> {
    flat_declarations(&tree.declarations, syntax, names)
}

/// Writes declarations to the table, as `flat_module` does.
pub fn flat_declarations(
    tree: &Decls,
    syntax: &mut Syntax,
    names: &mut Names,
) -> Result<List, Want> {
    let mut flat = Flat {
        alloc: names.alloc(),
        syntax,
        names,
    };
    flat.declarations(tree.as_slice())
}

/// Writes statements to the table, and gives the list of them.
pub fn flat_statements(tree: &Stmts, syntax: &mut Syntax, names: &mut Names) -> Result<List, Want> {
    let mut flat = Flat {
        alloc: names.alloc(),
        syntax,
        names,
    };
    flat.statements(tree.as_slice())
}

/// Writes an expression to the table, and gives its number.
pub fn flat_expression(
    tree: &Expr,
    syntax: &mut Syntax,
    names: &mut Names,
) -> Result<NodeId, Want> {
    let mut flat = Flat {
        alloc: names.alloc(),
        syntax,
        names,
    };
    flat.expression(tree)
}

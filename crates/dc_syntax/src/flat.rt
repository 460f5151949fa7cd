// The tables that trees are written to, node by node.
mod conditional;
mod declaration;
mod enumeration;
mod expression;
mod function;
mod import;
mod literal;
mod loop_head;
mod new_array;
mod statement;
mod template;
mod type_tree;
mod variable;
mod whole;

use crate::{Form, List, NameId, Names, NodeId, Syntax, Want};
use dc_ast::{Name, Path};
use std::alloc::Global;
pub use whole::{flat_declarations, flat_expression, flat_module, flat_statements};

/// What a tree is written to: the table of nodes, and the names.
#[derive(Drop)]
pub(crate) struct Flat<'a> {
    pub(crate) alloc: Global,
    pub(crate) syntax: &'a mut Syntax,
    pub(crate) names: &'a mut Names,
}

impl Flat<'_> {
    pub(crate) fn add(&mut self, at: u32, form: Form) -> Result<NodeId, Want> {
        self.syntax.add(at, form)
    }

    pub(crate) fn list(&mut self, nodes: &[u32]) -> Result<List, Want> {
        self.syntax.list(nodes)
    }

    pub(crate) fn name(&mut self, name: &Name) -> Result<NameId, Want> {
        self.names.number(name.spelling.as_slice())
    }

    /// A name as a node, at its place.
    pub(crate) fn name_node(&mut self, name: &Name) -> Result<NodeId, Want> {
        let id = self.name(name)?;
        self.add(name.at, Form::Name(id))
    }

    /// Names as a list of nodes, each at its place.
    pub(crate) fn name_nodes(&mut self, names: &[Name]) -> Result<List, Want> {
        let mut nodes = Vec::new(self.alloc);
        for name in names {
            let node = self.name_node(name)?;
            nodes.push(node.0)?;
        }
        self.list(nodes.as_slice())
    }

    /// The name `a.b.c` of parts.
    pub(crate) fn dotted(&mut self, path: &Path) -> Result<NameId, Want> {
        let mut bytes = Vec::new(self.alloc);
        for part in path.as_slice() {
            if !bytes.is_empty() {
                bytes.push(b'.')?;
            }
            bytes.extend_from_slice(part.spelling.as_slice())?;
        }
        self.names.number(bytes.as_slice())
    }

    /// `of.name`, as the form of a chain at that place.
    pub(crate) fn member_of(&mut self, at: u32, of: NodeId, name: &Name) -> Result<Form, Want> {
        let node = self.name_node(name)?;
        let member = self.add(at, Form::Member(node))?;
        let suffixes = self.list(&[member.0])?;
        Ok(Form::Postfix(of, suffixes))
    }
}

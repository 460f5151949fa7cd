// Variables as nodes.
use crate::flat::Flat;
use crate::syntax::put;
use crate::{Form, NodeId, VariableNode, Want};
use dc_ast::{Variable, VariableTree};

impl Flat<'_> {
    /// A variable of a declaration.
    fn one(&mut self, at: u32, variable: &Variable) -> Result<NodeId, Want> {
        let name = self.name(&variable.name)?;
        let value = self.maybe_expression(&variable.value)?;
        self.add(at, Form::One(name, variable.name.at, value))
    }

    /// A declaration of variables that begins at `at`.
    pub(crate) fn variables(&mut self, at: u32, tree: &VariableTree) -> Result<Form, Want> {
        let of = self.maybe_type(&tree.of)?;
        let mut nodes = Vec::new(self.alloc);
        let mut one_at = Some(at);
        for variable in tree.variables.as_slice() {
            let node = self.one(one_at.unwrap_or(variable.name.at), variable)?;
            nodes.push(node.0)?;
            one_at = None;
        }
        let variables = self.list(nodes.as_slice())?;
        let node = VariableNode {
            storage: tree.storage,
            of,
            variables,
        };
        Ok(Form::Variable(put(&mut self.syntax.variables, node)?))
    }
}

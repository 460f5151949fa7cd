// Functions as nodes.
use crate::flat::Flat;
use crate::syntax::put;
use crate::{Form, FunctionNode, List, NodeId, ParameterNode, Want};
use dc_ast::{FunctionTree, Parameter};

impl Flat<'_> {
    fn parameter(&mut self, parameter: &Parameter) -> Result<NodeId, Want> {
        let of = self.type_node(&parameter.of)?;
        let name = self.name(&parameter.name)?;
        let node = ParameterNode {
            is_ref: parameter.is_ref,
            storage: parameter.storage,
            of,
            name,
        };
        let n = put(&mut self.syntax.parameters, node)?;
        self.add(parameter.at, Form::Parameter(n))
    }

    fn parameters(&mut self, parameters: &[Parameter]) -> Result<List, Want> {
        let mut nodes = Vec::new(self.alloc);
        for parameter in parameters {
            let node = self.parameter(parameter)?;
            nodes.push(node.0)?;
        }
        self.list(nodes.as_slice())
    }

    pub(crate) fn function(&mut self, tree: &FunctionTree) -> Result<Form, Want> {
        let node = FunctionNode {
            result: self.maybe_type(&tree.result)?,
            name: self.name(&tree.name)?,
            template_parameters: self.maybe_template_parameters(&tree.template_parameters)?,
            parameters: self.parameters(tree.parameters.as_slice())?,
            constraint: self.maybe_expression(&tree.constraint)?,
            body: self.statements(tree.body.as_slice())?,
        };
        Ok(Form::Function(put(&mut self.syntax.functions, node)?))
    }
}

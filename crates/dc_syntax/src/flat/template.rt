// Parameters of templates, and aliases, as nodes.
use crate::flat::Flat;
use crate::syntax::put;
use crate::{AliasNode, Form, List, NodeId, Want};
use dc_ast::{AliasTree, TemplateParameter};
use sqlite_items::Items;

impl Flat<'_> {
    /// A parameter, at its name.
    fn template_parameter(&mut self, parameter: &TemplateParameter) -> Result<NodeId, Want> {
        match parameter {
            TemplateParameter::OfType(name) => {
                let id = self.name(name)?;
                self.add(name.at, Form::TypeParameter(id))
            }
            TemplateParameter::Value(of, name) => {
                let of = self.type_node(of)?;
                let id = self.name(name)?;
                self.add(name.at, Form::ValueParameter(of, id))
            }
            TemplateParameter::Alias(name) => {
                let id = self.name(name)?;
                self.add(name.at, Form::AliasParameter(id))
            }
        }
    }

    pub(crate) fn template_parameters(
        &mut self,
        parameters: &[TemplateParameter],
    ) -> Result<List, Want> {
        let mut nodes = Vec::new(self.alloc);
        for parameter in parameters {
            let node = self.template_parameter(parameter)?;
            nodes.push(node.0)?;
        }
        self.list(nodes.as_slice())
    }

    pub(crate) fn maybe_template_parameters(
        &mut self,
        parameters: &Option<Items<TemplateParameter>>,
    ) -> Result<Option<List>, Want> {
        match parameters {
            Some(parameters) => Ok(Some(self.template_parameters(parameters.as_slice())?)),
            None => Ok(None),
        }
    }

    pub(crate) fn alias(&mut self, tree: &AliasTree) -> Result<Form, Want> {
        let name = self.name(&tree.name)?;
        let parameters = self.maybe_template_parameters(&tree.parameters)?;
        let target = self.argument(&tree.target)?;
        let node = AliasNode {
            name,
            parameters,
            target,
        };
        Ok(Form::Alias(put(&mut self.syntax.aliases, node)?))
    }
}

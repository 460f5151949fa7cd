// Enums and constants as nodes.
use crate::flat::Flat;
use crate::syntax::put;
use crate::{ConstantNode, EnumNode, Form, List, Want};
use dc_ast::{ConstantTree, EnumMember, EnumTree};

impl Flat<'_> {
    fn enum_members(&mut self, members: &[EnumMember]) -> Result<List, Want> {
        let mut nodes = Vec::new(self.alloc);
        for member in members {
            let name = self.name(&member.name)?;
            let value = self.maybe_expression(&member.value)?;
            let node = self.add(member.name.at, Form::EnumMember(name, value))?;
            nodes.push(node.0)?;
        }
        self.list(nodes.as_slice())
    }

    pub(crate) fn enumeration(&mut self, tree: &EnumTree) -> Result<Form, Want> {
        let name = match &tree.name {
            Some(name) => Some(self.name(name)?),
            None => None,
        };
        let base = self.maybe_type(&tree.base)?;
        let members = self.enum_members(tree.members.as_slice())?;
        let node = EnumNode {
            name,
            base,
            members,
        };
        Ok(Form::Enum(put(&mut self.syntax.enums, node)?))
    }

    pub(crate) fn constant(&mut self, tree: &ConstantTree) -> Result<Form, Want> {
        let of = self.maybe_type(&tree.of)?;
        let name = self.name(&tree.name)?;
        let parameters = self.maybe_template_parameters(&tree.parameters)?;
        let value = self.expression(&tree.value)?;
        let node = ConstantNode {
            of,
            name,
            parameters,
            value,
        };
        Ok(Form::Constant(put(&mut self.syntax.constants, node)?))
    }
}

// The heads of loops as nodes.
use crate::flat::Flat;
use crate::{Form, LoopNode, NodeId, Want};
use dc_ast::{ForStart, LoopName};

impl Flat<'_> {
    /// What a `for` begins with, as a statement.
    pub(crate) fn for_start(&mut self, start: &ForStart) -> Result<Option<NodeId>, Want> {
        match start {
            ForStart::Variable { at, variables } => {
                let form = self.variables(*at, variables)?;
                Ok(Some(self.add(*at, form)?))
            }
            ForStart::Expr(Some(e)) => {
                let node = self.expression(e)?;
                Ok(Some(self.add(e.at, Form::Expression(node))?))
            }
            ForStart::Expr(None) => Ok(None),
        }
    }

    fn loop_name(&mut self, name: &LoopName) -> Result<LoopNode, Want> {
        let of = self.maybe_type(&name.of)?;
        Ok(LoopNode {
            is_ref: name.is_ref,
            of,
            name: self.name(&name.name)?,
            name_at: name.name.at,
        })
    }

    /// The first of two names of a `foreach`, and its last name. The parser gives one or two.
    pub(crate) fn loop_names(
        &mut self,
        names: &[LoopName],
    ) -> Result<(Option<LoopNode>, LoopNode), Want> {
        match names {
            [element] => Ok((None, self.loop_name(element)?)),
            [index, element, ..] => {
                let index = self.loop_name(index)?;
                Ok((Some(index), self.loop_name(element)?))
            }
            [] => {
                let nameless = LoopNode {
                    is_ref: false,
                    of: None,
                    name: self.names.number(b"")?,
                    name_at: 0,
                };
                Ok((None, nameless))
            }
        }
    }
}

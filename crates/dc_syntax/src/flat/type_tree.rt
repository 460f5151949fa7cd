// Types as nodes.
use crate::flat::Flat;
use crate::{Form, List, NodeId, Want};
use dc_ast::{Base, Bracket, Symbol, TypeTree};

impl Flat<'_> {
    #[cycle(flat_expression)]
    pub(crate) fn type_node(&mut self, tree: &TypeTree) -> Result<NodeId, Want> {
        let form = self.base(&tree.base)?;
        let base = self.add(tree.at, form)?;
        let brackets = self.brackets(tree.at, tree.brackets.as_slice())?;
        if brackets.len == 0 {
            return Ok(base);
        }
        self.add(tree.at, Form::Brackets(base, brackets))
    }

    #[cycle(flat_expression)]
    fn base(&mut self, base: &Base) -> Result<Form, Want> {
        match base {
            Base::Basic(basic) => Ok(Form::Basic(*basic)),
            Base::Named(symbols) => Ok(Form::Named(self.symbols(symbols.as_slice())?)),
            Base::TypeOf(e) => Ok(Form::TypeOf(self.expression(e)?)),
            Base::ImmutableChar => Ok(Form::ImmutableChar),
        }
    }

    /// The parts of a name, each at its place.
    #[cycle(flat_expression)]
    fn symbols(&mut self, symbols: &[Symbol]) -> Result<List, Want> {
        let mut nodes = Vec::new(self.alloc);
        for symbol in symbols {
            let form = self.symbol(symbol)?;
            let node = self.add(symbol.name.at, form)?;
            nodes.push(node.0)?;
        }
        self.list(nodes.as_slice())
    }

    /// The brackets behind a base that begins at `at`.
    #[cycle(flat_expression)]
    fn brackets(&mut self, at: u32, brackets: &[Bracket]) -> Result<List, Want> {
        let mut nodes = Vec::new(self.alloc);
        for bracket in brackets {
            let form = match bracket {
                Bracket::Slice => Form::All,
                Bracket::Fixed(length) => Form::Index(self.expression(length)?),
            };
            let node = self.add(at, form)?;
            nodes.push(node.0)?;
        }
        self.list(nodes.as_slice())
    }

    pub(crate) fn maybe_type(&mut self, of: &Option<TypeTree>) -> Result<Option<NodeId>, Want> {
        match of {
            Some(of) => Ok(Some(self.type_node(of)?)),
            None => Ok(None),
        }
    }
}

// Expressions as nodes.
use crate::flat::Flat;
use crate::{Form, List, NodeId, Want};
use dc_ast::{Argument, Expr, ExprKind, IsAgainst, IsTree, Step, Suffix, Symbol};

impl Flat<'_> {
    #[cycle(flat_expression)]
    pub(crate) fn expression(&mut self, e: &Expr) -> Result<NodeId, Want> {
        let form = self.primary(e.at, e.kind.get())?;
        self.add(e.at, form)
    }

    /// The form of a primary or postfix expression, or of an operation.
    #[cycle(flat_expression)]
    fn primary(&mut self, at: u32, kind: &ExprKind) -> Result<Form, Want> {
        match kind {
            ExprKind::Symbol(symbol) => self.symbol(symbol),
            ExprKind::Paren(e) => Ok(Form::Paren(self.expression(e)?)),
            ExprKind::Array(es) => Ok(Form::Array(self.expressions(es.as_slice())?)),
            ExprKind::TypeOfProperty(e, name) => {
                let e = self.expression(e)?;
                let of = self.add(at, Form::TypeOf(e))?;
                self.member_of(at, of, name)
            }
            ExprKind::Mixin(e) => Ok(Form::Mixin(self.expression(e)?)),
            ExprKind::Is(tree) => self.is_form(tree.get()),
            ExprKind::Traits(name, arguments) => {
                let id = self.name(name)?;
                let arguments = self.arguments(arguments.as_slice())?;
                Ok(Form::Traits(id, name.at, arguments))
            }
            ExprKind::New(of, suffixes) => {
                let base = self.type_node(of.get())?;
                let suffixes = self.suffixes(at, suffixes.as_slice())?;
                self.new_form(at, base, suffixes.as_slice())
            }
            ExprKind::Postfix(first, suffixes) => {
                let first = self.expression(first)?;
                let suffixes = self.suffixes(at, suffixes.as_slice())?;
                Ok(Form::Postfix(first, self.list(suffixes.as_slice())?))
            }
            kind => self.operation(at, kind),
        }
    }

    /// The form of an operation, of an `assert`, or of an expression without parts.
    #[cycle(flat_expression)]
    fn operation(&mut self, at: u32, kind: &ExprKind) -> Result<Form, Want> {
        match kind {
            ExprKind::Assert(test, None) => Ok(Form::Assert(self.expression(test)?, None)),
            ExprKind::Assert(test, Some(message)) => {
                let test = self.expression(test)?;
                Ok(Form::Assert(test, Some(self.expression(message)?)))
            }
            ExprKind::Unary(operator, e) => Ok(Form::Unary(*operator, self.expression(e)?)),
            ExprKind::Cast(to, e) => {
                let to = self.type_node(to.get())?;
                Ok(Form::Cast(to, self.expression(e)?))
            }
            ExprKind::Chain(first, steps) => {
                let first = self.expression(first)?;
                Ok(Form::Chain(first, self.steps(at, steps.as_slice())?))
            }
            ExprKind::Compare(left, operator, right) => {
                let left = self.expression(left)?;
                Ok(Form::Compare(left, *operator, self.expression(right)?))
            }
            ExprKind::Conditional(test, yes, no) => {
                let test = self.expression(test)?;
                let yes = self.expression(yes)?;
                Ok(Form::Conditional(test, yes, self.expression(no)?))
            }
            ExprKind::Assign(left, operator, right) => {
                let left = self.expression(left)?;
                Ok(Form::Assign(left, *operator, self.expression(right)?))
            }
            kind => self.leaf(at, kind),
        }
    }

    #[cycle(flat_expression)]
    pub(crate) fn expressions(&mut self, es: &[Expr]) -> Result<List, Want> {
        let mut nodes = Vec::new(self.alloc);
        for e in es {
            let node = self.expression(e)?;
            nodes.push(node.0)?;
        }
        self.list(nodes.as_slice())
    }

    pub(crate) fn maybe_expression(&mut self, e: &Option<Expr>) -> Result<Option<NodeId>, Want> {
        match e {
            Some(e) => Ok(Some(self.expression(e)?)),
            None => Ok(None),
        }
    }

    /// The operators of a chain that begins at `at`, each with its operand.
    #[cycle(flat_expression)]
    fn steps(&mut self, at: u32, steps: &[Step]) -> Result<List, Want> {
        let mut nodes = Vec::new(self.alloc);
        for step in steps {
            let operand = self.expression(&step.operand)?;
            let node = self.add(at, Form::Step(step.operator, operand))?;
            nodes.push(node.0)?;
        }
        self.list(nodes.as_slice())
    }

    /// What follows an operand, of a chain that begins at `at`.
    #[cycle(flat_expression)]
    fn suffixes(&mut self, at: u32, suffixes: &[Suffix]) -> Result<Vec<u32>, Want> {
        let mut nodes = Vec::new(self.alloc);
        for suffix in suffixes {
            let form = self.suffix(suffix)?;
            let node = self.add(at, form)?;
            nodes.push(node.0)?;
        }
        Ok(nodes)
    }

    #[cycle(flat_expression)]
    fn suffix(&mut self, suffix: &Suffix) -> Result<Form, Want> {
        match suffix {
            Suffix::Member(symbol) => {
                let form = self.symbol(symbol)?;
                Ok(Form::Member(self.add(symbol.name.at, form)?))
            }
            Suffix::Call(arguments) => Ok(Form::Call(self.expressions(arguments.as_slice())?)),
            Suffix::All => Ok(Form::All),
            Suffix::Index(e) => Ok(Form::Index(self.expression(e)?)),
            Suffix::Slice(from, to) => {
                let from = self.expression(from)?;
                Ok(Form::Slice(from, self.expression(to)?))
            }
            Suffix::Increment => Ok(Form::PostIncrement),
            Suffix::Decrement => Ok(Form::PostDecrement),
        }
    }

    /// The form of a name or an instance, whose node stands at the name.
    #[cycle(flat_expression)]
    pub(crate) fn symbol(&mut self, symbol: &Symbol) -> Result<Form, Want> {
        let name = self.name(&symbol.name)?;
        match &symbol.arguments {
            None => Ok(Form::Name(name)),
            Some(arguments) => {
                let arguments = self.arguments(arguments.as_slice())?;
                Ok(Form::Instance(name, arguments))
            }
        }
    }

    #[cycle(flat_expression)]
    fn arguments(&mut self, arguments: &[Argument]) -> Result<List, Want> {
        let mut nodes = Vec::new(self.alloc);
        for argument in arguments {
            let node = self.argument(argument)?;
            nodes.push(node.0)?;
        }
        self.list(nodes.as_slice())
    }

    #[cycle(flat_expression)]
    pub(crate) fn argument(&mut self, argument: &Argument) -> Result<NodeId, Want> {
        match argument {
            Argument::Value(e) => self.expression(e),
            Argument::OfType(of) => self.type_node(of),
        }
    }

    #[cycle(flat_expression)]
    fn is_form(&mut self, tree: &IsTree) -> Result<Form, Want> {
        let of = self.type_node(&tree.of)?;
        let Some(test) = &tree.test else {
            return Ok(Form::Is(of));
        };
        match &test.against {
            IsAgainst::Struct => Ok(Form::IsStruct(of)),
            IsAgainst::OfType(against) => {
                let against = self.type_node(against)?;
                let names = self.name_nodes(test.names.as_slice())?;
                Ok(Form::IsType(of, test.relation, against, names))
            }
        }
    }
}

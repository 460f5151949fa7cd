// Statements as nodes.
use crate::flat::Flat;
use crate::flat::conditional::{Among, Arm};
use crate::syntax::put;
use crate::{ForNode, ForeachNode, Form, List, NodeId, SwitchNode, Want};
use dc_ast::{Branch, Group, Label, StaticStatement, Stmt, StmtBody, StmtBranch, StmtKind};

impl Flat<'_> {
    #[cycle(flat_statement)]
    pub(crate) fn statement(&mut self, s: &Stmt) -> Result<NodeId, Want> {
        let form = self.statement_form(s.at, &s.kind)?;
        self.add(s.at, form)
    }

    #[cycle(flat_statement)]
    fn statement_form(&mut self, at: u32, kind: &StmtKind) -> Result<Form, Want> {
        match kind {
            StmtKind::Block(inside) => Ok(Form::Block(self.statements(inside.as_slice())?)),
            StmtKind::Static(tree) => self.static_statement(tree),
            StmtKind::If(branches, None) => {
                Ok(Form::If(self.branches(at, branches.as_slice())?, None))
            }
            StmtKind::If(branches, Some(last)) => {
                let branches = self.branches(at, branches.as_slice())?;
                Ok(Form::If(branches, Some(self.statement(last.get())?)))
            }
            StmtKind::While(condition, body) => {
                let condition = self.expression(condition)?;
                Ok(Form::While(condition, self.statement(body.get())?))
            }
            StmtKind::Do(body, condition) => {
                let body = self.statement(body.get())?;
                Ok(Form::Do(body, self.expression(condition)?))
            }
            kind => self.wide_statement(at, kind),
        }
    }

    /// The form of a statement with many parts, or of one without statements inside.
    #[cycle(flat_statement)]
    fn wide_statement(&mut self, at: u32, kind: &StmtKind) -> Result<Form, Want> {
        match kind {
            StmtKind::For(start, condition, step, body) => {
                let node = ForNode {
                    start: self.for_start(start)?,
                    condition: self.maybe_expression(condition)?,
                    step: self.maybe_expression(step)?,
                    body: self.statement(body.get())?,
                };
                Ok(Form::For(put(&mut self.syntax.loops, node)?))
            }
            StmtKind::Foreach(names, over, end, body) => {
                let (index, element) = self.loop_names(names.as_slice())?;
                let node = ForeachNode {
                    index,
                    element,
                    over: self.expression(over)?,
                    end: self.maybe_expression(end)?,
                    body: self.statement(body.get())?,
                };
                Ok(Form::Foreach(put(&mut self.syntax.walks, node)?))
            }
            StmtKind::Switch(on, before, groups) => {
                let node = SwitchNode {
                    on: self.expression(on)?,
                    before: self.statements(before.as_slice())?,
                    groups: self.groups(groups.as_slice())?,
                };
                Ok(Form::Switch(put(&mut self.syntax.switches, node)?))
            }
            kind => self.simple_statement(at, kind),
        }
    }

    /// The form of a statement without statements inside; the others are read elsewhere.
    fn simple_statement(&mut self, at: u32, kind: &StmtKind) -> Result<Form, Want> {
        match kind {
            StmtKind::Variable(tree) => self.variables(at, tree),
            StmtKind::Enum(tree) => self.enumeration(tree),
            StmtKind::Constant(tree) => self.constant(tree),
            StmtKind::Alias(tree) => self.alias(tree),
            StmtKind::Import(tree) => self.import(tree),
            StmtKind::Expr(e) => Ok(Form::Expression(self.expression(e)?)),
            StmtKind::Mixin(e) => Ok(Form::MixinHere(self.expression(e)?)),
            StmtKind::Break => Ok(Form::Break),
            StmtKind::Continue => Ok(Form::Continue),
            StmtKind::Return(value) => Ok(Form::Return(self.maybe_expression(value)?)),
            _ => Ok(Form::Empty),
        }
    }

    #[cycle(flat_statement)]
    pub(crate) fn statements(&mut self, list: &[Stmt]) -> Result<List, Want> {
        let mut nodes = Vec::new(self.alloc);
        for s in list {
            let node = self.statement(s)?;
            nodes.push(node.0)?;
        }
        self.list(nodes.as_slice())
    }

    /// The branches of an `if` that begins at `at`.
    #[cycle(flat_statement)]
    fn branches(&mut self, at: u32, branches: &[Branch]) -> Result<List, Want> {
        let mut nodes = Vec::new(self.alloc);
        for branch in branches {
            let condition = self.expression(&branch.condition)?;
            let body = self.statement(&branch.body)?;
            let node = self.add(at, Form::IfBranch(condition, body))?;
            nodes.push(node.0)?;
        }
        self.list(nodes.as_slice())
    }

    /// The groups of a `switch`.
    #[cycle(flat_statement)]
    fn groups(&mut self, groups: &[Group]) -> Result<List, Want> {
        let mut nodes = Vec::new(self.alloc);
        for group in groups {
            let body = self.statements(group.body.as_slice())?;
            let form = match &group.label {
                Label::Case(values) => Form::Case(self.expressions(values.as_slice())?, body),
                Label::Default => Form::Default(body),
            };
            let node = self.add(group.at, form)?;
            nodes.push(node.0)?;
        }
        self.list(nodes.as_slice())
    }

    #[cycle(flat_statement)]
    fn static_statement(&mut self, tree: &StaticStatement) -> Result<Form, Want> {
        match tree {
            StaticStatement::Conditional(branches, last) => {
                let last = match last {
                    Some(body) => self.statement_body(body)?,
                    None => self.list(&[])?,
                };
                let arms = self.statement_arms(branches.as_slice())?;
                self.nested(Among::Statements, arms.as_slice(), last)
            }
            StaticStatement::Foreach(range, body) => {
                let body = self.statement_body(body)?;
                self.static_foreach(range, body)
            }
            StaticStatement::Assert(tree) => self.static_assert(tree),
        }
    }

    #[cycle(flat_statement)]
    fn statement_arms(&mut self, branches: &[StmtBranch]) -> Result<Vec<Arm>, Want> {
        let mut arms = Vec::new(self.alloc);
        for branch in branches {
            let test = self.arm_test(&branch.test)?;
            let body = self.statement_body(&branch.body)?;
            arms.push(Arm {
                at: branch.at,
                test,
                body,
            })?;
        }
        Ok(arms)
    }

    #[cycle(flat_statement)]
    fn statement_body(&mut self, body: &StmtBody) -> Result<List, Want> {
        match body {
            StmtBody::One(s) => {
                let node = self.statement(s.get())?;
                self.list(&[node.0])
            }
            StmtBody::Braces(list) => self.statements(list.as_slice()),
        }
    }
}

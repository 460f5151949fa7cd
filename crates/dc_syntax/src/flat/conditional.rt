// What is decided while a program is judged: `static if`, `version`, `static foreach` and `static
// assert`, as nodes.
use crate::flat::Flat;
use crate::syntax::put;
use crate::{Form, List, NameId, NodeId, StaticForeachNode, View, Want};
use dc_ast::{StaticAssert, StaticRange, StaticTest};

/// What a branch asks.
#[derive(Clone, Copy)]
pub(crate) enum ArmTest {
    If(NodeId),
    Version(NameId),
}

/// A branch of `static if .. else version ..`, as nodes.
#[derive(Clone, Copy)]
pub(crate) struct Arm {
    pub(crate) at: u32,
    pub(crate) test: ArmTest,
    pub(crate) body: List,
}

impl Arm {
    /// The branch, with what is taken where its test fails.
    fn form(self, otherwise: List) -> Form {
        match self.test {
            ArmTest::If(test) => Form::StaticIf(test, self.body, otherwise),
            ArmTest::Version(name) => Form::Version(name, self.body, otherwise),
        }
    }
}

/// Where a conditional stands.
#[derive(Clone, Copy, PartialEq, Eq)]
pub(crate) enum Among {
    Declarations,
    Statements,
}

impl Flat<'_> {
    pub(crate) fn arm_test(&mut self, test: &StaticTest) -> Result<ArmTest, Want> {
        match test {
            StaticTest::If(e) => Ok(ArmTest::If(self.expression(e)?)),
            StaticTest::Version(name) => Ok(ArmTest::Version(self.name(name)?)),
        }
    }

    /// A further branch as the one item of the list behind an `else`.
    fn behind_else(&mut self, among: Among, arm: Arm, otherwise: List) -> Result<List, Want> {
        let bare = self.add(arm.at, arm.form(otherwise))?;
        let node = match among {
            Among::Statements => bare,
            Among::Declarations => self.add(arm.at, Form::Declared(View::Inherited, bare))?,
        };
        self.list(&[node.0])
    }

    /// Branches, each in the `else` of the one before it, and what is taken where no test holds.
    pub(crate) fn nested(&mut self, among: Among, arms: &[Arm], last: List) -> Result<Form, Want> {
        let [first, more @ ..] = arms else {
            return Ok(Form::Empty);
        };
        let mut otherwise = last;
        for arm in more.iter().rev() {
            otherwise = self.behind_else(among, *arm, otherwise)?;
        }
        Ok(first.form(otherwise))
    }

    pub(crate) fn static_foreach(&mut self, range: &StaticRange, body: List) -> Result<Form, Want> {
        let name = self.name(&range.name)?;
        let over = self.expression(&range.over)?;
        let end = self.maybe_expression(&range.end)?;
        let node = StaticForeachNode {
            name,
            name_at: range.name.at,
            over,
            end,
            body,
        };
        Ok(Form::StaticForeach(put(&mut self.syntax.rounds, node)?))
    }

    pub(crate) fn static_assert(&mut self, tree: &StaticAssert) -> Result<Form, Want> {
        let condition = self.expression(&tree.condition)?;
        let message = self.maybe_expression(&tree.message)?;
        Ok(Form::StaticAssert(condition, message))
    }
}

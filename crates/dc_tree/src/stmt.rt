// Resolved statements.
use crate::{TreeId, ValueId, VarId, Where};
use dc_syntax::{List, Want, next_number};
use std::alloc::Global;

/// The number of a resolved statement.
#[derive(Clone, Copy, PartialEq, Eq, PartialOrd, Ord)]
pub struct StmtId(pub u32);

#[derive(Clone, Copy)]
pub struct Stmt {
    /// Its first byte; of a loop that is the place of its turns.
    pub at: Where,
    pub form: StmtForm,
}

/// The forms of resolved statements. A list holds numbers of statements.
#[derive(Clone, Copy)]
pub enum StmtForm {
    Block(List),
    /// Statements that stand in the place of one, as the contents of a `static if`.
    Sequence(List),
    Expr(TreeId),
    Declare(VarId, TreeId),
    /// A condition, what is done where it holds, and else.
    If(TreeId, StmtId, Option<StmtId>),
    While(TreeId, StmtId),
    Do(StmtId, TreeId),
    /// The condition, the step and the body; what comes before stands before it in a block.
    For(Option<TreeId>, Option<TreeId>, StmtId),
    /// `foreach (x; a .. b)`: the bounds, the name and the hidden counter.
    Count(TreeId, TreeId, VarId, VarId, StmtId),
    /// A node of the table of walks.
    Walk(u32),
    /// The value, and numbers of `CaseNode`s.
    Switch(TreeId, List),
    Break,
    Continue,
    Return(Option<TreeId>),
}

/// `foreach (i, x; array)`
#[derive(Clone, Copy)]
pub struct WalkNode {
    /// A slice or a fixed array.
    pub array: TreeId,
    pub index: Option<VarId>,
    pub element: VarId,
    /// The element converted to the name's type, as a tree over `item`.
    pub value: TreeId,
    /// The hidden variable that stands for the element in `value`.
    pub item: VarId,
    pub body: StmtId,
}

/// A group of a `switch`: the values of its labels, none where it is the default, and its
/// statements.
#[derive(Clone, Copy)]
pub struct CaseNode {
    /// Numbers of values; nothing for `default`.
    pub values: Option<List>,
    pub body: StmtId,
}

#[derive(Drop)]
pub struct Stmts {
    all: Vec<Stmt>,
    numbers: Vec<u32>,
    pub walks: Vec<WalkNode>,
    pub cases: Vec<CaseNode>,
    pub values: Vec<ValueId>,
}

impl Stmts {
    pub fn new(alloc: Global) -> Stmts {
        Stmts {
            all: Vec::new(alloc),
            numbers: Vec::new(alloc),
            walks: Vec::new(alloc),
            cases: Vec::new(alloc),
            values: Vec::new(alloc),
        }
    }

    pub fn add(&mut self, at: Where, form: StmtForm) -> Result<StmtId, Want> {
        let n = next_number(self.all.len())?;
        self.all.push(Stmt { at, form })?;
        Ok(StmtId(n))
    }

    pub fn get(&self, id: StmtId) -> Stmt {
        match self.all.get(id.0 as usize) {
            Some(stmt) => *stmt,
            None => Stmt {
                at: Where {
                    spot: crate::SpotId(0),
                    at: 0,
                },
                form: StmtForm::Break,
            },
        }
    }

    pub fn list(&mut self, items: &[u32]) -> Result<List, Want> {
        let from = next_number(self.numbers.len())?;
        let len = next_number(items.len())?;
        self.numbers.extend_from_slice(items)?;
        Ok(List { from, len })
    }

    pub fn numbers(&self, list: List) -> &[u32] {
        let from = list.from as usize;
        match self.numbers.get(from..from + list.len as usize) {
            Some(numbers) => numbers,
            None => &[],
        }
    }

    pub fn add_walk(&mut self, walk: WalkNode) -> Result<u32, Want> {
        let n = next_number(self.walks.len())?;
        self.walks.push(walk)?;
        Ok(n)
    }

    pub fn walk(&self, n: u32) -> Option<WalkNode> {
        self.walks.get(n as usize).copied()
    }

    pub fn add_case(&mut self, case: CaseNode) -> Result<u32, Want> {
        let n = next_number(self.cases.len())?;
        self.cases.push(case)?;
        Ok(n)
    }

    pub fn case(&self, n: u32) -> Option<CaseNode> {
        self.cases.get(n as usize).copied()
    }
}

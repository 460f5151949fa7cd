// What is built of statements.
ghost use Rattle.std.specs.Prelude.{◌≡◌};
ghost use Rattle.core_front.specs.Building.{Gives, basic_type};
ghost use Rattle.core_front.specs.Statements.{is_int, declare_of, return_of, stmt_of, stmts_of, branch_of, branches_of};

use crate::values::{action, test, value};
use crate::{Action, Branch, Miss};
use dc_ast::{
    Base, BasicType, Branch as Written, Expr, Stmt, StmtKind, TypeTree, VariableTree, copy_name,
};
use sqlite_items::{Boxed, Items};
use std::alloc::Global;

/// The basic type that this is, if it is one.
#[tactic(auto, using(crate::proofs::OtherStatements::no_basic))]
pub fn basic(t: &TypeTree) -> Option<BasicType>
    ensures { result ≡ basic_type t.now }
{
    if t.brackets.len() > 0 {
        return None;
    }
    match &t.base {
        Base::Basic(basic) => Some(*basic),
        _ => None,
    }
}

#[tactic(auto, unfolding(crate::specs::Statements::is_int))]
pub fn is_int(t: &Option<TypeTree>) -> bool
    ensures { result ≡ is_int t.now }
{
    match t {
        None => false,
        Some(t) => basic(t) == Some(BasicType::Int),
    }
}

/// `int name = value;`
#[tactic(auto, unfolding(crate::specs::Statements::declare_of))]
fn declare(alloc: Global, at: u32, v: &VariableTree) -> Result<Action, Miss>
    ensures { Gives (declare_of at v.now) result }
{
    if v.storage.is_some() || !is_int(&v.of) {
        return Err(Miss::Unbuilt(at));
    }
    match v.variables.as_slice() {
        [variable] => match &variable.value {
            None => Err(Miss::Unbuilt(at)),
            Some(e) => {
                let value = value(alloc, e)?;
                let name = copy_name(alloc, &variable.name)?;
                Ok(Action::Declare(at, name, value))
            }
        },
        _ => Err(Miss::Unbuilt(at)),
    }
}

#[tactic(auto, unfolding(crate::specs::Statements::return_of))]
fn returned(alloc: Global, at: u32, e: &Option<Expr>) -> Result<Action, Miss>
    ensures { Gives (return_of at e.now) result }
{
    match e {
        None => Ok(Action::Return(at, None)),
        Some(e) => Ok(Action::Return(at, Some(value(alloc, e)?))),
    }
}

/// What a statement is built as.
#[cycle(statements)]
#[tactic(auto, unfolding(crate::specs::Statements::stmt_of, crate::specs::Statements::stmts_of, crate::specs::Statements::branches_of), using(crate::proofs::OtherStatements::no_action))]
pub fn statement(alloc: Global, s: &Stmt) -> Result<Action, Miss>
    ensures { Gives (stmt_of s.now) result }
{
    match &s.kind {
        StmtKind::Block(inside) => Ok(Action::Block(statements(alloc, inside.as_slice())?)),
        StmtKind::Variable(v) => declare(alloc, s.at, v),
        StmtKind::Expr(e) => action(alloc, e),
        StmtKind::If(written, None) => {
            let branches = branches(alloc, written.as_slice())?;
            Ok(Action::If(s.at, branches, Items::new(alloc)))
        }
        StmtKind::If(written, Some(last)) => {
            let branches = branches(alloc, written.as_slice())?;
            let mut others = Items::new(alloc);
            others.push(statement(alloc, last.get())?)?;
            Ok(Action::If(s.at, branches, others))
        }
        StmtKind::While(e, body) => {
            let test = test(alloc, e)?;
            let body = statement(alloc, body.get())?;
            Ok(Action::While(s.at, test, Boxed::new(alloc, body)?))
        }
        StmtKind::Return(e) => returned(alloc, s.at, e),
        _ => Err(Miss::Unbuilt(s.at)),
    }
}

#[cycle(statements)]
#[tactic(auto, unfolding(crate::specs::Statements::stmts_of, crate::specs::Statements::stmt_of))]
pub fn statements(alloc: Global, written: &[Stmt]) -> Result<Items<Action>, Miss>
    ensures { Gives (stmts_of written.now) result }
{
    let mut all = Items::new(alloc);
    for s in written {
        let action = statement(alloc, s)?;
        all.push(action)?;
    }
    Ok(all)
}

#[cycle(statements)]
#[tactic(auto, unfolding(crate::specs::Statements::branch_of, crate::specs::Statements::stmt_of))]
fn branch(alloc: Global, written: &Written) -> Result<Branch, Miss>
    ensures { Gives (branch_of written.now) result }
{
    let test = test(alloc, &written.condition)?;
    let body = statement(alloc, &written.body)?;
    Ok(Branch { test, body })
}

#[cycle(statements)]
#[tactic(auto, unfolding(crate::specs::Statements::branches_of, crate::specs::Statements::branch_of))]
fn branches(alloc: Global, written: &[Written]) -> Result<Items<Branch>, Miss>
    ensures { Gives (branches_of written.now) result }
{
    let mut all = Items::new(alloc);
    for b in written {
        let branch = branch(alloc, b)?;
        all.push(branch)?;
    }
    Ok(all)
}

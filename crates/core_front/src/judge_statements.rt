// The statements of a function, judged.
ghost use Rattle.std.specs.Prelude.{◌≡◌, ◌∷◌, [], map, length, take, None, Ok, IfOk};
ghost use Rattle.core_front.specs.Naming.{visible};
ghost use Rattle.core_front.specs.Judging.{Answers};
ghost use Rattle.core_front.specs.JudgingStatements.{declaring, declare_of, assignment, assign_of, call_of, return_of, step_of, steps_of, scoped_of, scoped_one_of, choice_of, choices_of};

use crate::judge_values::{
    arguments, called, callee_of, condition, int, place_in, refuse, variable_in, variable_of,
};
use crate::judged::{Chosen, Known, Moved, State, Stepped};
use crate::{Action, Branch, Value};
use core_tree::{Branch as Resolved, Stmt, Tree};
use dc_ast::Name;
use dc_types::Fail;
use sqlite_items::{Boxed, Items as Children};
use std::alloc::{AllocError, Global};

/// The variables, with one more whose name stands for none of them.
#[tactic(auto, unfolding(crate::specs::JudgingStatements::declaring))]
fn declaring(
    alloc: Global,
    known: &Known,
    state: State,
    at: u32,
    name: &Name,
) -> Result<State, Fail>
    requires { visible name.now.spelling state.scope ≡ None }
    ensures { Answers (Ok (declaring known.now state at name.now)) result }
{
    let State {
        scope,
        mut declared,
    } = state;
    declared.push(variable_in(alloc, known, at)?)?;
    let scope = scope.with(alloc, name, at)?;
    Ok(State { scope, declared })
}

/// `int name = value;`
#[tactic(auto, unfolding(crate::specs::JudgingStatements::declare_of))]
fn declare(
    alloc: Global,
    known: &Known,
    state: State,
    at: u32,
    name: &Name,
    value: &Value,
) -> Result<Moved, Fail>
    ensures { Answers (declare_of known.now state at name.now value.now) result }
{
    if state.scope.visible(&name.spelling).is_some() {
        return refuse(alloc, known, 7, at, name.spelling.as_slice());
    }
    let variable = variable_in(alloc, known, at)?;
    let value = Boxed::new(alloc, int(alloc, known, &state.scope, value)?)?;
    let more = declaring(alloc, known, state, at, name)?;
    let stmt = Stmt::Declare(variable, value.into_inner());
    Ok(Moved { stmt, state: more })
}

#[tactic(auto, unfolding(crate::specs::JudgingStatements::assignment))]
fn assignment(
    alloc: Global,
    known: &Known,
    at: u32,
    to: u32,
    value: Tree,
) -> Result<Stmt, AllocError>
    ensures { IfOk result (λ s. s ≡ assignment known.now at to value) }
{
    let value = Boxed::new(alloc, value)?;
    let place = place_in(alloc, known, at)?;
    let variable = variable_in(alloc, known, to)?;
    Ok(Stmt::Eval(Tree::Assign(place, variable, value)))
}

/// `name = value;`
#[tactic(auto, unfolding(crate::specs::JudgingStatements::assign_of))]
fn assign(
    alloc: Global,
    known: &Known,
    state: State,
    at: u32,
    name: &Name,
    value: &Value,
) -> Result<Moved, Fail>
    ensures { Answers (assign_of known.now state at name.now value.now) result }
{
    let to = variable_of(alloc, known, &state.scope, name)?;
    let value = int(alloc, known, &state.scope, value)?;
    let stmt = assignment(alloc, known, at, to, value)?;
    Ok(Moved { stmt: stmt, state })
}

/// `name(values);`
#[tactic(auto, unfolding(crate::specs::JudgingStatements::call_of))]
fn call(
    alloc: Global,
    known: &Known,
    state: State,
    name: &Name,
    values: &[Value],
) -> Result<Moved, Fail>
    ensures { Answers (call_of known.now state name.now values.now) result }
{
    let callee = callee_of(alloc, known, &state.scope, name)?;
    let args = arguments(alloc, known, &state.scope, values)?;
    let called = called(alloc, known, name, args, callee)?;
    Ok(Moved {
        stmt: Stmt::Eval(called.tree),
        state,
    })
}

/// `return`, with a value exactly in a function that gives an `int`.
#[tactic(auto, unfolding(crate::specs::JudgingStatements::return_of))]
fn returned(
    alloc: Global,
    known: &Known,
    gives_int: bool,
    state: State,
    at: u32,
    value: &Option<Value>,
) -> Result<Moved, Fail>
    ensures { Answers (return_of known.now gives_int state at value.now) result }
{
    match (gives_int, value) {
        (true, Some(value)) => {
            let place = place_in(alloc, known, at)?;
            let value = int(alloc, known, &state.scope, value)?;
            let stmt = Stmt::Return(place, Some(value));
            Ok(Moved { stmt, state })
        }
        (false, Some(_)) | (true, None) => refuse(alloc, known, 10, at, &[]),
        (false, None) => {
            let stmt = Stmt::Return(place_in(alloc, known, at)?, None);
            Ok(Moved { stmt, state })
        }
    }
}

/// What a statement of a function that gives an `int`, or nothing, is resolved to.
#[cycle(stepping)]
#[tactic(auto, unfolding(crate::specs::JudgingStatements::step_of, crate::specs::JudgingStatements::scoped_of, crate::specs::JudgingStatements::choices_of))]
fn statement(
    alloc: Global,
    known: &Known,
    gives_int: bool,
    state: State,
    action: &Action,
) -> Result<Moved, Fail>
    ensures { Answers (step_of known.now gives_int state action.now) result }
{
    match action {
        Action::Block(inside) => {
            let inside = scoped(alloc, known, gives_int, state, inside.as_slice())?;
            let Stepped { stmts, state } = inside;
            let stmt = Stmt::Block(stmts);
            Ok(Moved { stmt, state })
        }
        Action::Declare(at, name, value) => declare(alloc, known, state, *at, name, value),
        Action::Assign(at, name, value) => assign(alloc, known, state, *at, name, value),
        Action::Call(name, values) => call(alloc, known, state, name, values.as_slice()),
        Action::If(at, branches, last) => {
            let place = place_in(alloc, known, *at)?;
            let chosen = choices(alloc, known, gives_int, state, branches.as_slice())?;
            let Chosen { branches, state } = chosen;
            let last = scoped(alloc, known, gives_int, state, last.as_slice())?;
            let Stepped { stmts, state } = last;
            let stmt = Stmt::If(place, branches, stmts);
            Ok(Moved { stmt, state })
        }
        Action::While(at, test, body) => {
            let place = place_in(alloc, known, *at)?;
            let condition = Boxed::new(alloc, condition(alloc, known, &state.scope, test)?)?;
            let body = scoped_one(alloc, known, gives_int, state, body.get())?;
            let Stepped { stmts, state } = body;
            let stmt = Stmt::While(place, condition.into_inner(), stmts);
            Ok(Moved { stmt, state })
        }
        Action::Return(at, value) => returned(alloc, known, gives_int, state, *at, value),
    }
}

/// Statements one behind the other.
#[cycle(stepping)]
#[tactic(auto, unfolding(crate::specs::JudgingStatements::steps_of, crate::specs::JudgingStatements::step_of))]
pub fn steps(
    alloc: Global,
    known: &Known,
    gives_int: bool,
    state: State,
    actions: &[Action],
) -> Result<Stepped, Fail>
    ensures { Answers (steps_of known.now gives_int state actions.now) result }
{
    let mut stmts = Children::new(alloc);
    let mut state = state;
    for action in actions {
        let next = statement(alloc, known, gives_int, state, action)?;
        let Moved { stmt, state: more } = next;
        state = more;
        stmts.push(stmt)?;
    }
    Ok(Stepped { stmts, state })
}

/// Statements whose declarations end with them.
#[cycle(stepping)]
#[tactic(auto, unfolding(crate::specs::JudgingStatements::scoped_of, crate::specs::JudgingStatements::steps_of))]
fn scoped(
    alloc: Global,
    known: &Known,
    gives_int: bool,
    state: State,
    actions: &[Action],
) -> Result<Stepped, Fail>
    ensures { Answers (scoped_of known.now gives_int state actions.now) result }
{
    let start = state.scope.len();
    let inside = steps(alloc, known, gives_int, state, actions)?;
    let Stepped { stmts, mut state } = inside;
    state.scope.leave(start);
    Ok(Stepped { stmts, state })
}

/// One statement, as that of a branch or loop, whose declaration ends with it.
#[cycle(stepping)]
#[tactic(auto, unfolding(crate::specs::JudgingStatements::one_scoped, crate::specs::JudgingStatements::step_of))]
fn scoped_one(
    alloc: Global,
    known: &Known,
    gives_int: bool,
    state: State,
    action: &Action,
) -> Result<Stepped, Fail>
    ensures { Answers (scoped_one_of known.now gives_int state action.now) result }
{
    let start = state.scope.len();
    let inside = statement(alloc, known, gives_int, state, action)?;
    let Moved { stmt, mut state } = inside;
    state.scope.leave(start);
    let mut stmts = Children::new(alloc);
    stmts.push(stmt)?;
    Ok(Stepped { stmts, state })
}

/// The branches of an `if` so far, with one more.
#[cycle(stepping)]
fn choice(
    alloc: Global,
    known: &Known,
    gives_int: bool,
    from: Chosen,
    branch: &Branch,
) -> Result<Chosen, Fail>
    ensures { Answers (choice_of known.now gives_int from branch.now) result }
{
    let Chosen {
        mut branches,
        state,
    } = from;
    let test = condition(alloc, known, &state.scope, &branch.test)?;
    let condition = Boxed::new(alloc, test)?;
    let inside = scoped_one(alloc, known, gives_int, state, &branch.body)?;
    let Stepped { stmts, state } = inside;
    branches.push(Resolved {
        condition: condition.into_inner(),
        body: stmts,
    })?;
    Ok(Chosen { branches, state })
}

/// The branches of an `if`.
#[cycle(stepping)]
#[tactic(auto, unfolding(crate::specs::JudgingStatements::choices_of, crate::specs::JudgingStatements::choice_of))]
fn choices(
    alloc: Global,
    known: &Known,
    gives_int: bool,
    state: State,
    branches: &[Branch],
) -> Result<Chosen, Fail>
    ensures { Answers (choices_of known.now gives_int state branches.now) result }
{
    let mut chosen = Chosen {
        branches: Children::new(alloc),
        state,
    };
    for branch in branches {
        chosen = choice(alloc, known, gives_int, chosen, branch)?;
    }
    Ok(chosen)
}

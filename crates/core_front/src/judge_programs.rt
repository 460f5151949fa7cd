// The functions of a module, judged, and its `main`.
ghost use Rattle.std.specs.Prelude.{◌≡◌, [], ◌∷◌, map, length, Err, IfOk};
ghost use Rattle.core_tree.specs.Typed.{AreTyped};
ghost use Rattle.core_front.specs.Judging.{Answers, variable_in};
ghost use Rattle.core_front.specs.JudgingStatements.{each_parameter, finished, body_with, body_of, bodies_of, no_main, main_call, main_of, resolved_of};

use crate::judge_statements::steps;
use crate::judge_values::{place_in, refuse, result_of, variable_in};
use crate::judged::{Known, Resolution, State, Stepped};
use crate::{Function, Local, Parameter, Scope};
use core_tree::{Bodies, Body, TOO_HEAVY, Tree, Variables, body_weight, complete};
use dc_ast::Spelling;
use dc_types::{Fail, Items, Place, Refusal, Text};
use sqlite_items::Items as Children;
use std::alloc::{AllocError, Global};

/// The parameters of a function, whose names differ.
fn parameters(alloc: Global, known: &Known, written: &[Parameter]) -> Result<Scope, Fail>
    ensures { Answers (each_parameter [] written.now known.now) result }
{
    let mut all = Scope::new(alloc);
    for parameter in written {
        let name = &parameter.name;
        if all.visible(&name.spelling).is_some() {
            return refuse(alloc, known, 7, parameter.at, name.spelling.as_slice());
        }
        all = all.with(alloc, name, parameter.at)?;
    }
    Ok(all)
}

fn variables(alloc: Global, known: &Known, locals: &[Local]) -> Result<Variables, AllocError>
    ensures { IfOk result (λ all. all ≡ map (λ l. variable_in known.now l.at) locals.now) }
{
    let mut all = Items::new(alloc);
    for local in locals {
        all.push(variable_in(alloc, known, local.at)?)?;
    }
    Ok(all)
}

/// The body of a function with these parameters and statements.
#[tactic(auto, unfolding(crate::specs::JudgingStatements::body_with))]
fn body_with(
    alloc: Global,
    known: &Known,
    f: &Function,
    params: Variables,
    resolved: Stepped,
) -> Result<Body, AllocError>
    ensures { IfOk result (λ body. body ≡ body_with known.now f.now params resolved) }
{
    let Stepped { stmts, state } = resolved;
    let State { scope: _, declared } = state;
    Ok(Body {
        place: place_in(alloc, known, f.at)?,
        params,
        locals: declared,
        result: result_of(f.gives_int),
        stmts,
    })
}

/// The body, where it doesn't come to its end without the `int` that it gives, and isn't too heavy.
#[tactic(auto, unfolding(crate::specs::JudgingStatements::finished))]
fn finished(alloc: Global, known: &Known, f: &Function, body: Body) -> Result<Body, Fail>
    ensures { Answers (finished known.now f.now body) result }
{
    if f.gives_int && complete(body.stmts.as_slice()) {
        return refuse(alloc, known, 25, f.at, &[]);
    }
    if body_weight(&body) == TOO_HEAVY {
        return refuse(alloc, known, 18, f.at, &[]);
    }
    Ok(body)
}

/// The body that a function is resolved to.
#[tactic(auto, unfolding(crate::specs::JudgingStatements::body_of))]
fn body(alloc: Global, known: &Known, f: &Function) -> Result<Body, Fail>
    ensures { Answers (body_of known.now f.now) result }
{
    let scope = parameters(alloc, known, f.parameters.as_slice())?;
    let params = variables(alloc, known, scope.as_slice())?;
    let state = State {
        scope,
        declared: Items::new(alloc),
    };
    let resolved = steps(alloc, known, f.gives_int, state, f.body.as_slice())?;
    let body = body_with(alloc, known, f, params, resolved)?;
    finished(alloc, known, f, body)
}

/// The bodies of all functions, in the order of the text.
#[tactic(auto, unfolding(crate::specs::JudgingStatements::bodies_of))]
fn bodies(alloc: Global, known: &Known) -> Result<Bodies, Fail>
    ensures { Answers (bodies_of known.now) result }
{
    let mut all = Items::new(alloc);
    for f in known.functions.as_slice() {
        let body = body(alloc, known, f)?;
        all.push(body)?;
    }
    Ok(all)
}

/// The refusal of a program without one `main` that takes no arguments. It has no place.
fn no_main<T>(alloc: Global) -> Result<T, Fail>
    ensures { Answers (Err no_main) result }
{
    Err(Fail::Refused(Refusal {
        rule: 20,
        place: Place {
            module: Text::new(alloc),
            steps: Items::new(alloc),
        },
        detail: Text::new(alloc),
    }))
}

#[tactic(auto, unfolding(crate::specs::JudgingStatements::main_call))]
fn main_call(alloc: Global, known: &Known, f: &Function) -> Result<Tree, AllocError>
    ensures { IfOk result (λ call. call ≡ main_call known.now f.now) }
{
    let place = place_in(alloc, known, f.at)?;
    let function = place_in(alloc, known, f.at)?;
    let result = result_of(f.gives_int);
    Ok(Tree::Call(place, function, result, Children::new(alloc)))
}

/// The call of `main` (D specification, "Functions", "main() Function").
#[tactic(auto, unfolding(crate::specs::JudgingStatements::main_of))]
fn main(alloc: Global, known: &Known) -> Result<Tree, Fail>
    ensures { Answers (main_of known.now) result }
{
    let name = Spelling::copy_of(alloc, b"main")?;
    match known.functions.named(&name) {
        None => no_main(alloc),
        Some(f) => {
            if f.parameters.len() == 0 {
                Ok(main_call(alloc, known, f)?)
            } else {
                no_main(alloc)
            }
        }
    }
}

#[tactic(auto, unfolding(crate::specs::JudgingStatements::resolved_of))]
fn bodies_and_start(alloc: Global, known: &Known) -> Result<Resolution, Fail>
    ensures { Answers (resolved_of known.now) result }
{
    let bodies = bodies(alloc, known)?;
    let start = main(alloc, known)?;
    Ok(Resolution { bodies, start })
}

/// What a module's functions are resolved to, and the call with which a run begins: typed, closed, and within the limit
/// on weights.
pub fn resolved(alloc: Global, known: &Known) -> Result<Resolution, Fail>
    ensures answers { Answers (resolved_of known.now) result }
    ensures typed { IfOk result (λ r. AreTyped r.bodies (r.start ∷ [])) }
{
    known.functions.places_differ();
    bodies_and_start(alloc, known)
}

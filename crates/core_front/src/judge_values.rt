// The values and conditions of a function, judged.
ghost use Rattle.std.specs.Prelude.{◌≡◌, map, Err, IfOk};
ghost use Rattle.core_tree.specs.Values.{int};
ghost use Rattle.core_tree.specs.declared.tree.Tree.TheVariants as tree;
ghost use Rattle.dc_types.specs.declared.kind.Kind.TheVariants as kind;
ghost use Rattle.core_front.specs.Judging.{Answers, local_of, constant_of, literal_of, place_in, refuse, number_in, truth, variable_in, result_of, print_of, is_other, no_such, no_value, variable_of, callee_of, function_call, print_call, called, chain_of, chained, typed_of, arguments_of, operands_of, begins_at, int_of, compared, condition_of};

use crate::judged::{Arguments, Callee, Known, Operands, Typed};
use crate::{Link, Scope, Test, Value};
use core_tree::{Operation, Tree, Variable};
use dc_ast::{Name, Spelling};
use dc_types::{CTree, CmpOp, Const, Fail, Items, Kind, Place, Refusal, Step, Text, Ty, Types};
use sqlite_items::{Boxed, Items as Children};
use std::alloc::{AllocError, Global};

#[tactic(auto, unfolding(crate::specs::Judging::place_in))]
pub fn place_in(alloc: Global, known: &Known, at: u32) -> Result<Place, AllocError>
    ensures { IfOk result (λ place. place ≡ place_in known.now at) }
{
    // with room for one step alone, since each tree holds places
    let mut steps = Vec::with_capacity(alloc, 1)?;
    steps.push(Step::At(at))?;
    Ok(Place {
        module: Text::copy_of(alloc, known.home.as_slice())?,
        steps: Items::from_vec(steps),
    })
}

/// The refusal by a rule at an offset, with a detail or none.
#[tactic(auto, unfolding(crate::specs::Judging::refuse))]
pub fn refuse<T>(alloc: Global, known: &Known, rule: u8, at: u32, detail: &[u8]) -> Result<T, Fail>
    ensures { Answers (Err (refuse known.now rule at detail.now)) result }
{
    let place = place_in(alloc, known, at)?;
    let detail = Text::copy_of(alloc, detail)?;
    Err(Fail::Refused(Refusal {
        rule,
        place,
        detail,
    }))
}

#[tactic(auto, unfolding(crate::specs::Judging::variable_in))]
pub fn variable_in(alloc: Global, known: &Known, at: u32) -> Result<Variable, AllocError>
    ensures { IfOk result (λ v. v ≡ variable_in known.now at) }
{
    Ok(Variable {
        place: place_in(alloc, known, at)?,
        ty: Ty::Int(Kind::I32),
    })
}

pub fn result_of(gives_int: bool) -> Ty
    ensures { result ≡ result_of gives_int }
{
    if gives_int {
        Ty::Int(Kind::I32)
    } else {
        Ty::Void
    }
}

/// Whether the name is a function of `std.stdio` that prints, and whether it ends the line.
#[tactic(auto, unfolding(crate::specs::Judging::print_of))]
fn print_of(known: &Known, name: &Spelling) -> Option<bool>
    ensures { result ≡ print_of known.now name.now }
{
    if known.prints && name.as_slice() == b"writeln".as_slice() {
        Some(true)
    } else if known.prints && name.as_slice() == b"write".as_slice() {
        Some(false)
    } else {
        None
    }
}

/// Whether the name stands for a type of the language, or begins the name of the module that is imported (D specification,
/// "Types", "Modules").
#[tactic(auto, unfolding(crate::specs::Judging::is_other))]
fn is_other(known: &Known, name: &Spelling) -> bool
    ensures { result ≡ is_other known.now name.now }
{
    let name = name.as_slice();
    name == b"string".as_slice()
        || name == b"size_t".as_slice()
        || (known.prints && name == b"std".as_slice())
}

/// The refusal of a name that stands for something else than what is wanted, or for nothing.
#[tactic(auto, unfolding(crate::specs::Judging::no_such))]
fn no_such<T>(alloc: Global, known: &Known, name: &Name) -> Result<T, Fail>
    ensures { Answers (Err (no_such known.now name.now)) result }
{
    if is_other(known, &name.spelling) {
        refuse(alloc, known, 10, name.at, &[])
    } else {
        refuse(alloc, known, 5, name.at, name.spelling.as_slice())
    }
}

#[tactic(auto, unfolding(crate::specs::Judging::no_value))]
fn no_value<T>(alloc: Global, known: &Known, name: &Name) -> Result<T, Fail>
    ensures { Answers (Err (no_value known.now name.now)) result }
{
    let is_function = known.functions.named(&name.spelling).is_some();
    if is_function || print_of(known, &name.spelling).is_some() {
        refuse(alloc, known, 10, name.at, &[])
    } else {
        no_such(alloc, known, name)
    }
}

/// Where the variable is declared that the name stands for.
#[tactic(auto, unfolding(crate::specs::Judging::variable_of))]
pub fn variable_of(alloc: Global, known: &Known, scope: &Scope, name: &Name) -> Result<u32, Fail>
    ensures { Answers (variable_of known.now scope.now name.now) result }
{
    match scope.visible(&name.spelling) {
        Some(at) => Ok(at),
        None => no_value(alloc, known, name),
    }
}

/// What a call of the name calls.
#[tactic(auto, unfolding(crate::specs::Judging::callee_of))]
pub fn callee_of(alloc: Global, known: &Known, scope: &Scope, name: &Name) -> Result<Callee, Fail>
    ensures { Answers (callee_of known.now scope.now name.now) result }
{
    if scope.visible(&name.spelling).is_some() {
        return refuse(alloc, known, 10, name.at, &[]);
    }
    if let Some(f) = known.functions.named(&name.spelling) {
        return Ok(Callee::Declared(f.at, f.parameters.len(), f.gives_int));
    }
    match print_of(known, &name.spelling) {
        Some(line) => Ok(Callee::Print(line)),
        None => no_such(alloc, known, name),
    }
}

/// As many times the type `int` as there are trees.
fn int_types(alloc: Global, trees: &[Tree]) -> Result<Types, AllocError>
    ensures { IfOk result (λ types. types ≡ map (λ t. int kind.I32) trees.now) }
{
    let mut types = Items::new(alloc);
    for _ in trees {
        types.push(Ty::Int(Kind::I32))?;
    }
    Ok(types)
}

/// The call of the function that is declared at the offset, with these arguments.
#[tactic(auto, unfolding(crate::specs::Judging::function_call))]
fn function_call(
    alloc: Global,
    known: &Known,
    name: &Name,
    at: u32,
    gives_int: bool,
    args: Children<Tree>,
) -> Result<Typed, AllocError>
    ensures { IfOk result (λ x. x ≡ function_call known.now name.now at gives_int args) }
{
    let place = place_in(alloc, known, name.at)?;
    let function = place_in(alloc, known, at)?;
    Ok(Typed {
        tree: Tree::Call(place, function, result_of(gives_int), args),
        gives_int,
    })
}

#[tactic(auto, unfolding(crate::specs::Judging::print_call))]
fn print_call(
    alloc: Global,
    known: &Known,
    name: &Name,
    line: bool,
    args: Children<Tree>,
) -> Result<Typed, AllocError>
    ensures { IfOk result (λ x. x ≡ print_call known.now name.now line args) }
{
    let place = place_in(alloc, known, name.at)?;
    let types = int_types(alloc, args.as_slice())?;
    Ok(Typed {
        tree: Tree::Print(place, types, args, line),
        gives_int: false,
    })
}

/// The call of a callee with these arguments.
#[tactic(auto, unfolding(crate::specs::Judging::called))]
pub fn called(
    alloc: Global,
    known: &Known,
    name: &Name,
    args: Arguments,
    callee: Callee,
) -> Result<Typed, Fail>
    ensures { Answers (called known.now name.now args callee) result }
{
    let Arguments { trees, are_int } = args;
    match callee {
        Callee::Declared(at, arity, gives_int) => {
            if are_int && trees.len() == arity {
                Ok(function_call(alloc, known, name, at, gives_int, trees)?)
            } else {
                refuse(alloc, known, 11, name.at, name.spelling.as_slice())
            }
        }
        Callee::Print(line) => {
            if are_int {
                Ok(print_call(alloc, known, name, line, trees)?)
            } else {
                refuse(alloc, known, 11, name.at, name.spelling.as_slice())
            }
        }
    }
}

#[tactic(auto, unfolding(crate::specs::Judging::chain_of))]
fn chain(
    alloc: Global,
    known: &Known,
    at: u32,
    first: Tree,
    rest: Children<Operation<Tree>>,
) -> Result<Typed, AllocError>
    ensures { IfOk result (λ x. x ≡ chain_of known.now at first rest) }
{
    let first = Boxed::new(alloc, first)?;
    let place = place_in(alloc, known, at)?;
    Ok(Typed {
        tree: Tree::Chain(place, Kind::I32, first, rest),
        gives_int: true,
    })
}

#[tactic(auto, unfolding(crate::specs::Judging::chained))]
fn chained(
    alloc: Global,
    known: &Known,
    at: u32,
    first: Typed,
    rest: Operands,
) -> Result<Typed, Fail>
    ensures { Answers (chained known.now at first rest) result }
{
    let Typed { tree, gives_int } = first;
    let Operands {
        operations,
        are_int,
    } = rest;
    if gives_int && are_int {
        Ok(chain(alloc, known, at, tree, operations)?)
    } else {
        refuse(alloc, known, 10, at, &[])
    }
}

#[tactic(auto, unfolding(crate::specs::Judging::local_of))]
fn local_of(alloc: Global, known: &Known, name: &Name, at: u32) -> Result<Typed, AllocError>
    ensures { IfOk result (λ x. x ≡ local_of known.now name.now at) }
{
    let place = place_in(alloc, known, name.at)?;
    Ok(Typed {
        tree: Tree::Local(place, variable_in(alloc, known, at)?),
        gives_int: true,
    })
}

#[tactic(auto, unfolding(crate::specs::Judging::constant_of, crate::specs::Judging::number_in))]
fn constant_of(alloc: Global, known: &Known, at: u32, n: i32) -> Result<Typed, AllocError>
    ensures { IfOk result (λ x. x ≡ constant_of known.now at n) }
{
    let value = Const {
        ty: Ty::Int(Kind::I32),
        tree: CTree::Num(i128::from(n)),
    };
    Ok(Typed {
        tree: Tree::Constant(place_in(alloc, known, at)?, value),
        gives_int: true,
    })
}

/// A number of type `int`.
#[tactic(auto, unfolding(crate::specs::Judging::literal_of))]
fn literal(alloc: Global, known: &Known, at: u32, n: i32) -> Result<Typed, Fail>
    ensures { Answers (literal_of known.now at n) result }
{
    Ok(constant_of(alloc, known, at, n)?)
}

/// What a value is resolved to.
#[cycle(judging)]
#[tactic(auto, unfolding(crate::specs::Judging::typed_of, crate::specs::Judging::arguments_of, crate::specs::Judging::operands_of))]
pub fn typed(alloc: Global, known: &Known, scope: &Scope, value: &Value) -> Result<Typed, Fail>
    ensures { Answers (typed_of known.now scope.now value.now) result }
{
    match value {
        Value::Number(at, n) => literal(alloc, known, *at, *n),
        Value::Name(name) => {
            let at = variable_of(alloc, known, scope, name)?;
            Ok(local_of(alloc, known, name, at)?)
        }
        Value::Call(name, args) => {
            let callee = callee_of(alloc, known, scope, name)?;
            let args = arguments(alloc, known, scope, args.as_slice())?;
            called(alloc, known, name, args, callee)
        }
        Value::Chain(at, first, rest) => {
            let first = typed(alloc, known, scope, first.get())?;
            let rest = operands(alloc, known, scope, rest.as_slice())?;
            chained(alloc, known, *at, first, rest)
        }
    }
}

#[cycle(judging)]
#[tactic(auto, unfolding(crate::specs::Judging::typed_of, crate::specs::Judging::arguments_of))]
pub fn arguments(
    alloc: Global,
    known: &Known,
    scope: &Scope,
    values: &[Value],
) -> Result<Arguments, Fail>
    ensures { Answers (arguments_of known.now scope.now values.now) result }
{
    let mut all = Arguments {
        trees: Children::new(alloc),
        are_int: true,
    };
    for value in values {
        let argument = typed(alloc, known, scope, value)?;
        all.trees.push(argument.tree)?;
        all.are_int = all.are_int && argument.gives_int;
    }
    Ok(all)
}

#[cycle(judging)]
#[tactic(auto, unfolding(crate::specs::Judging::typed_of, crate::specs::Judging::operands_of))]
fn operands(alloc: Global, known: &Known, scope: &Scope, links: &[Link]) -> Result<Operands, Fail>
    ensures { Answers (operands_of known.now scope.now links.now) result }
{
    let mut all = Operands {
        operations: Children::new(alloc),
        are_int: true,
    };
    for link in links {
        let operand = typed(alloc, known, scope, &link.operand)?;
        all.operations.push(Operation {
            operator: link.operator.resolved(),
            operand: operand.tree,
        })?;
        all.are_int = all.are_int && operand.gives_int;
    }
    Ok(all)
}

/// Where a value begins.
#[tactic(auto, unfolding(crate::specs::Judging::begins_at))]
fn begins_at(value: &Value) -> u32
    ensures { result ≡ begins_at value.now }
{
    match value {
        Value::Number(at, _) => *at,
        Value::Name(name) => name.at,
        Value::Call(name, _) => name.at,
        Value::Chain(at, _, _) => *at,
    }
}

/// What a value is resolved to that has to be a number.
#[tactic(auto, unfolding(crate::specs::Judging::int_of))]
pub fn int(alloc: Global, known: &Known, scope: &Scope, value: &Value) -> Result<Tree, Fail>
    ensures { Answers (int_of known.now scope.now value.now) result }
{
    let typed = typed(alloc, known, scope, value)?;
    if typed.gives_int {
        Ok(typed.tree)
    } else {
        refuse(alloc, known, 10, begins_at(value), &[])
    }
}

fn compare(
    alloc: Global,
    known: &Known,
    at: u32,
    operator: CmpOp,
    a: Tree,
    b: Tree,
) -> Result<Tree, AllocError>
    ensures { IfOk result (λ x. x ≡ tree.Compare (place_in known.now at) operator kind.I32 a b) }
{
    let left = Boxed::new(alloc, a)?;
    let right = Boxed::new(alloc, b)?;
    let place = place_in(alloc, known, at)?;
    Ok(Tree::Compare(place, operator, Kind::I32, left, right))
}

#[tactic(auto, unfolding(crate::specs::Judging::compared))]
fn compared(
    alloc: Global,
    known: &Known,
    at: u32,
    operator: CmpOp,
    a: Typed,
    b: Typed,
) -> Result<Tree, Fail>
    ensures { Answers (compared known.now at operator a b) result }
{
    let Typed {
        tree: left,
        gives_int: is_left,
    } = a;
    let Typed {
        tree: right,
        gives_int: is_right,
    } = b;
    if is_left && is_right {
        Ok(compare(alloc, known, at, operator, left, right)?)
    } else {
        refuse(alloc, known, 10, at, &[])
    }
}

/// What a condition is resolved to.
#[tactic(auto, unfolding(crate::specs::Judging::condition_of, crate::specs::Judging::truth))]
pub fn condition(alloc: Global, known: &Known, scope: &Scope, test: &Test) -> Result<Tree, Fail>
    ensures { Answers (condition_of known.now scope.now test.now) result }
{
    match test {
        Test::Always(at) => {
            let value = Const {
                ty: Ty::Int(Kind::Bool),
                tree: CTree::Num(1),
            };
            Ok(Tree::Constant(place_in(alloc, known, *at)?, value))
        }
        Test::Compare(at, operator, a, b) => {
            let a = typed(alloc, known, scope, a)?;
            let b = typed(alloc, known, scope, b)?;
            compared(alloc, known, *at, *operator, a, b)
        }
    }
}

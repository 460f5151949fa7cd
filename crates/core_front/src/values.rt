// What is built of expressions.
ghost use Rattle.std.specs.Prelude.{◌≡◌, ◌≤◌, ◌∷◌, ℕ, List, IfSome, option_map, option_and_then, pos};
ghost use Rattle.core_front.specs.Building.{Gives, arithmetic, comparison, number, digits_from, steps_are_arithmetic, name_of, value_of, values_of, links_of, call_values_of, call_of, compare_of, assign_of, test_of, action_of};

use crate::{Action, Arithmetic, Link, Miss, Test, Value};
use dc_ast::{AssignOperator, BinaryOperator, Expr, ExprKind, Name, Step, Suffix, copy_name};
use dc_types::CmpOp;
use sqlite_items::{Boxed, Items};
use std::alloc::Global;

fn arithmetic(operator: BinaryOperator) -> Option<Arithmetic>
    ensures { result ≡ arithmetic operator }
{
    match operator {
        BinaryOperator::Multiply => Some(Arithmetic::Multiply),
        BinaryOperator::Divide => Some(Arithmetic::Divide),
        BinaryOperator::Remainder => Some(Arithmetic::Remainder),
        BinaryOperator::Add => Some(Arithmetic::Add),
        BinaryOperator::Subtract => Some(Arithmetic::Subtract),
        _ => None,
    }
}

fn comparison(operator: BinaryOperator) -> Option<CmpOp>
    ensures { result ≡ comparison operator }
{
    match operator {
        BinaryOperator::Equal => Some(CmpOp::Equal),
        BinaryOperator::NotEqual => Some(CmpOp::Differs),
        BinaryOperator::Less => Some(CmpOp::Less),
        BinaryOperator::LessOrEqual => Some(CmpOp::LessEq),
        BinaryOperator::Greater => Some(CmpOp::Greater),
        BinaryOperator::GreaterOrEqual => Some(CmpOp::GreaterEq),
        _ => None,
    }
}

/// The value with one more digit, where it is one and the value stays in range.
fn with_digit(value: u32, digit: u8) -> Option<u32>
    requires { value ≤ 2147483647 }
    ensures value { (rest : List ℕ) → digits_from value (digit ∷ rest) ≡ option_and_then (λ v. digits_from v rest) result }
    ensures within { IfSome result (λ v. v ≤ 2147483647) }
{
    if !digit.is_ascii_digit() {
        return None;
    }
    let next = u64::from(value) * 10 + u64::from(digit - b'0');
    if next <= 2147483647 {
        Some(next as u32)
    } else {
        None
    }
}

/// The number of a decimal literal, where it is one of type `int`.
fn digits(token: &[u8]) -> Option<i32>
    ensures { result ≡ option_map pos (digits_from 0 token.now) }
{
    let mut value = 0;
    for digit in token {
        match with_digit(value, *digit) {
            Some(next) => value = next,
            None => return None,
        }
    }
    Some(value as i32)
}

#[tactic(auto, unfolding(crate::specs::Building::name_of), using(crate::proofs::Others::no_name))]
fn bare(e: &Expr) -> Option<&Name>
    ensures { option_map (λ n. n.now) result ≡ name_of e.now }
{
    match e.kind.get() {
        ExprKind::Symbol(symbol) => match &symbol.arguments {
            None => Some(&symbol.name),
            Some(_) => None,
        },
        _ => None,
    }
}

/// The value that a decimal literal is built as.
fn number(at: u32, spelling: &[u8]) -> Result<Value, Miss>
    ensures { Gives (number at (digits_from 0 spelling.now)) result }
{
    match digits(spelling) {
        Some(number) => Ok(Value::Number(at, number)),
        None => Err(Miss::Unbuilt(at)),
    }
}

/// Whether all operators of a chain are those of numbers.
#[tactic(auto, unfolding(crate::specs::Building::steps_are_arithmetic))]
fn are_arithmetic(steps: &[Step]) -> bool
    ensures { result ≡ steps_are_arithmetic steps.now }
{
    for step in steps {
        if arithmetic(step.operator).is_none() {
            return false;
        }
    }
    true
}

#[cycle(values)]
#[tactic(auto, unfolding(crate::specs::Building::value_of, crate::specs::Building::links_of, crate::specs::Building::steps_are_arithmetic, crate::specs::Building::call_of), using(crate::proofs::Others::no_value))]
pub fn value(alloc: Global, e: &Expr) -> Result<Value, Miss>
    ensures { Gives (value_of e.now) result }
{
    match e.kind.get() {
        ExprKind::Integer(spelling) => number(e.at, spelling.as_slice()),
        ExprKind::Symbol(symbol) => match &symbol.arguments {
            None => Ok(Value::Name(copy_name(alloc, &symbol.name)?)),
            Some(_) => Err(Miss::Unbuilt(e.at)),
        },
        ExprKind::Paren(inside) => value(alloc, inside),
        ExprKind::Chain(first, steps) => {
            if !are_arithmetic(steps.as_slice()) {
                return Err(Miss::Unbuilt(e.at));
            }
            let first = value(alloc, first)?;
            let links = links(alloc, steps.as_slice())?;
            Ok(Value::Chain(e.at, Boxed::new(alloc, first)?, links))
        }
        ExprKind::Postfix(callee, suffixes) => {
            let (name, values) = call(alloc, e.at, suffixes.as_slice(), callee)?;
            Ok(Value::Call(name, values))
        }
        _ => Err(Miss::Unbuilt(e.at)),
    }
}

#[cycle(values)]
#[tactic(auto, unfolding(crate::specs::Building::links_of, crate::specs::Building::value_of))]
fn links(alloc: Global, steps: &[Step]) -> Result<Items<Link>, Miss>
    ensures { Gives (links_of steps.now) result }
{
    let mut all = Items::new(alloc);
    for step in steps {
        let Some(operator) = arithmetic(step.operator) else {
            return Err(Miss::Unbuilt(0));
        };
        let operand = value(alloc, &step.operand)?;
        all.push(Link { operator, operand })?;
    }
    Ok(all)
}

#[cycle(values)]
#[tactic(auto, unfolding(crate::specs::Building::values_of, crate::specs::Building::value_of))]
fn values(alloc: Global, es: &[Expr]) -> Result<Items<Value>, Miss>
    ensures { Gives (values_of es.now) result }
{
    let mut all = Items::new(alloc);
    for e in es {
        let value = value(alloc, e)?;
        all.push(value)?;
    }
    Ok(all)
}

/// The values of a call's arguments, where this is a call.
#[cycle(values)]
#[tactic(auto, unfolding(crate::specs::Building::call_values_of, crate::specs::Building::values_of, crate::specs::Building::value_of), using(crate::proofs::Calls::no_call))]
fn call_values(alloc: Global, suffix: &Suffix) -> Result<Option<Items<Value>>, Miss>
    ensures { Gives (call_values_of suffix.now) result }
{
    match suffix {
        Suffix::Call(args) => Ok(Some(values(alloc, args.as_slice())?)),
        _ => Ok(None),
    }
}

/// A call by name, with the values of its arguments.
#[cycle(values)]
#[tactic(auto, unfolding(crate::specs::Building::call_of, crate::specs::Building::call_values_of, crate::specs::Building::name_of))]
fn call(
    alloc: Global,
    at: u32,
    suffixes: &[Suffix],
    callee: &Expr,
) -> Result<(Name, Items<Value>), Miss>
    ensures { Gives (call_of at callee.now suffixes.now) result }
{
    let Some(name) = bare(callee) else {
        return Err(Miss::Unbuilt(at));
    };
    let [suffix] = suffixes else {
        return Err(Miss::Unbuilt(at));
    };
    match call_values(alloc, suffix)? {
        Some(values) => Ok((copy_name(alloc, name)?, values)),
        None => Err(Miss::Unbuilt(at)),
    }
}

#[tactic(auto, unfolding(crate::specs::Building::compare_of, crate::specs::Building::value_of))]
fn compare(
    alloc: Global,
    at: u32,
    operator: BinaryOperator,
    left: &Expr,
    right: &Expr,
) -> Result<Test, Miss>
    ensures { Gives (compare_of at (comparison operator) left.now right.now) result }
{
    let Some(operator) = comparison(operator) else {
        return Err(Miss::Unbuilt(at));
    };
    let left = value(alloc, left)?;
    let right = value(alloc, right)?;
    Ok(Test::Compare(at, operator, left, right))
}

/// The condition that an expression is built as.
#[tactic(auto, unfolding(crate::specs::Building::test_of, crate::specs::Building::compare_of, crate::specs::Building::value_of), using(crate::proofs::Others::no_test))]
pub fn test(alloc: Global, e: &Expr) -> Result<Test, Miss>
    ensures { Gives (test_of e.now) result }
{
    match e.kind.get() {
        ExprKind::True => Ok(Test::Always(e.at)),
        ExprKind::Compare(left, operator, right) => { compare(alloc, e.at, *operator, left, right) }
        _ => Err(Miss::Unbuilt(e.at)),
    }
}

#[tactic(auto, unfolding(crate::specs::Building::assign_of, crate::specs::Building::value_of))]
fn assign(
    alloc: Global,
    at: u32,
    operator: AssignOperator,
    left: &Expr,
    right: &Expr,
) -> Result<Action, Miss>
    ensures { Gives (assign_of at operator (name_of left.now) right.now) result }
{
    match (operator, bare(left)) {
        (AssignOperator::Assign, Some(name)) => {
            let value = value(alloc, right)?;
            Ok(Action::Assign(at, copy_name(alloc, name)?, value))
        }
        _ => Err(Miss::Unbuilt(at)),
    }
}

/// The statement that an expression is built as.
#[tactic(auto, unfolding(crate::specs::Building::action_of, crate::specs::Building::assign_of, crate::specs::Building::call_of, crate::specs::Building::value_of, crate::specs::Building::name_of), using(crate::proofs::Others::no_action))]
pub fn action(alloc: Global, e: &Expr) -> Result<Action, Miss>
    ensures { Gives (action_of e.now) result }
{
    match e.kind.get() {
        ExprKind::Assign(left, operator, right) => { assign(alloc, e.at, *operator, left, right) }
        ExprKind::Postfix(callee, suffixes) => {
            let (name, values) = call(alloc, e.at, suffixes.as_slice(), callee)?;
            Ok(Action::Call(name, values))
        }
        _ => Err(Miss::Unbuilt(e.at)),
    }
}

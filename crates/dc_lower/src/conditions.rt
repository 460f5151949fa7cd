// Conditions that are jumped by.
use crate::lowering::{Lowering, Pending};
use crate::values::operand;
use dc_code::Op;
use dc_syntax::Want;
use dc_tree::{Pool, TreeForm, TreeId};

/// The jumps of a condition that lead elsewhere than others.
fn other(to: Pending) -> Pending {
    match to {
        Pending::Branch => Pending::Other,
        _ => Pending::Branch,
    }
}

/// Jumps where a condition comes to a truth, and goes on behind where it doesn't. Where the jumps
/// lead is settled later.
#[cycle(value)]
pub(crate) fn decide(
    l: &mut Lowering,
    pool: &Pool,
    c: TreeId,
    when: bool,
    to: Pending,
    depth: u32,
) -> Result<(), Want> {
    if depth == 0 {
        return Err(Want);
    }
    let mut at = c;
    let mut truth = when;
    for _ in 0..u64::MAX {
        let TreeForm::Not(a) = pool.trees.get(at).form else {
            break;
        };
        at = a;
        truth = !truth;
    }
    match pool.trees.get(at).form {
        TreeForm::And(_, _) | TreeForm::Or(_, _) => decide_all(l, pool, at, truth, to, depth - 1),
        _ => {
            let top = l.top;
            let s = operand(l, pool, at, depth - 1)?;
            l.top = top;
            let jump = l.emit(if truth {
                Op::JumpOther(s, 0)
            } else {
                Op::JumpZero(s, 0)
            })?;
            l.wait(to, jump)
        }
    }
}

/// `&&` and `||` that stand one in the left operand of the other. What decides one leads to the
/// next that it doesn't decide.
#[cycle(value)]
fn decide_all(
    l: &mut Lowering,
    pool: &Pool,
    id: TreeId,
    when: bool,
    to: Pending,
    depth: u32,
) -> Result<(), Want> {
    if depth == 0 {
        return Err(Want);
    }
    let mut spine = Vec::new(l.alloc);
    let mut at = id;
    for _ in 0..u64::MAX {
        let (decides, left, right) = match pool.trees.get(at).form {
            TreeForm::And(a, b) => (false, a, b),
            TreeForm::Or(a, b) => (true, a, b),
            _ => break,
        };
        spine.push((decides, right))?;
        at = left;
    }
    let past = other(to);
    let (jumping, passing) = (l.waiting(to), l.waiting(past));
    for _ in 0..u64::MAX {
        let Some((decides, right)) = spine.pop() else {
            break;
        };
        if decides == when {
            decide(l, pool, at, decides, to, depth - 1)?;
            l.settle(past, passing)?;
        } else {
            decide(l, pool, at, decides, past, depth - 1)?;
            l.settle(to, jumping)?;
        }
        at = right;
    }
    decide(l, pool, at, when, to, depth - 1)?;
    l.settle(past, passing)
}

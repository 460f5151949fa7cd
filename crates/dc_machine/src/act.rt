// One instruction.
ghost use Rattle.std.specs.Prelude.{◌≡◌, ◌+◌, ◌-◌, ◌≤◌, ◌<◌, ◌^◌, length, reverse, vec_capacity, IfOk, OnErr};
ghost use Rattle.dc_code.specs.Slots.{NumberSlots};
ghost use Rattle.dc_code.specs.Sound.{CallsFit, NamesFit};
ghost use Rattle.dc_machine.specs.After.{IsSimple, ReturnsFitBack, Leads, Wants, KeepsRoom};

use crate::frames::{enter, leave};
use crate::locals::{
    binary, cast, check, compare, constant, copy, flush, jump, jump_other, jump_zero, turn, unary,
};
use crate::prints::{put_data, put_int};
use crate::state::{Next, State};
use dc_code::{Code, Op};
use dc_types::{Limits, NoMemory};
use std::alloc::Global;

#[inline(always)]
pub fn act(
    m: &mut State,
    alloc: Global,
    code: &Code,
    limits: Limits,
    op: Op,
) -> Result<Next, NoMemory>
    requires simple { IsSimple op }
    requires here { m.old.base ≤ length m.old.words.items }
    requires slots { NumberSlots (length m.old.words.items - m.old.base) op }
    requires callee { CallsFit code.now.functions (length m.old.words.items - m.old.base) op }
    requires back { ReturnsFitBack op (reverse m.old.callers.items) m.old.base }
    requires names { NamesFit code.now op }
    requires room { length m.old.words.items + (limits.stack - m.old.nest.weight) ≤ vec_capacity m.old.words }
    requires calls { length m.old.callers.items + (limits.depth - m.old.nest.depth) ≤ vec_capacity m.old.callers }
    requires fits { length m.old.words.items < 2 ^ 63 }
    requires small { m.old.pc + 1 < 2 ^ 64 }
    ensures does { IfOk result (λ next. Leads code.now limits op m.old next m.new) }
    ensures wants { OnErr result (Wants code.now limits op m.old) }
    ensures room { KeepsRoom m.old m.new }
{
    match op {
        Op::Const(d, w) => Ok(constant(m, d, w)),
        Op::Copy(d, s, n) => Ok(copy(m, d, s, n)),
        Op::Binary(o, k, d, a, b) => Ok(binary(m, o, k, d, a, b)),
        Op::Unary(o, k, d, a) => Ok(unary(m, o, k, d, a)),
        Op::Compare(o, k, d, a, b) => Ok(compare(m, o, k, d, a, b)),
        Op::Cast(k, d, a) => Ok(cast(m, k, d, a)),
        Op::Jump(t) => Ok(jump(m, t)),
        Op::JumpZero(s, t) => Ok(jump_zero(m, s, t)),
        Op::JumpOther(s, t) => Ok(jump_other(m, s, t)),
        Op::Turn => Ok(turn(m)),
        Op::Call(f, a, d) => Ok(enter(m, code, limits, f, a, d)),
        Op::Return(s, n) => Ok(leave(m, s, n)),
        Op::PutInt(k, s) => put_int(m, alloc, k, s),
        Op::PutData(g) => put_data(m, code, g),
        Op::Flush => Ok(flush(m)),
        Op::Check(s, trap) => Ok(check(m, s, trap)),
        _ => unreachable!(),
    }
}

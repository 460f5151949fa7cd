// The instructions that stay in their frame, one by one.
ghost use Rattle.std.specs.Prelude.{◌≡◌, ◌+◌, ◌-◌, ◌≤◌, ◌<◌, ◌^◌, ◌++◌, map, length, OnOk};
ghost use Rattle.dc_code.specs.Numbers.{byte_of};
ghost use Rattle.dc_code.specs.declared.instr.Op.TheVariants as op;
ghost use Rattle.dc_machine.specs.After.{Does, KeepsRoom};

use crate::numbers::{binary_word, cast_word, compare_word, put_number, unary_word};
use crate::state::{Next, State, Stop};
use crate::words::{copy_words, set_word, word_at};
use dc_types::{BinOp, CmpOp, Kind, NoMemory, TrapKind, UnOp};
use std::alloc::Global;

#[inline(always)]
pub fn constant(m: &mut State, d: u32, w: u64) -> Next
    requires there { m.old.base + d < length m.old.words.items }
    requires small { m.old.pc + 1 < 2 ^ 64 }
    ensures does { Does (op.Const d w) m.old result m.new }
    ensures room { KeepsRoom m.old m.new }
{
    set_word(&mut m.words, m.base, d, w);
    m.pc += 1;
    Next::Goes
}

#[inline(always)]
pub fn copy(m: &mut State, d: u32, s: u32, n: u32) -> Next
    requires from_there { m.old.base + s + n ≤ length m.old.words.items }
    requires to_there { m.old.base + d + n ≤ length m.old.words.items }
    requires small { m.old.pc + 1 < 2 ^ 64 }
    requires fits { length m.old.words.items < 2 ^ 63 }
    ensures does { Does (op.Copy d s n) m.old result m.new }
    ensures room { KeepsRoom m.old m.new }
{
    let from = m.base + s as usize;
    let to = m.base + d as usize;
    copy_words(&mut m.words, from, to, n);
    m.pc += 1;
    Next::Goes
}

#[inline(always)]
pub fn binary(m: &mut State, o: BinOp, k: Kind, d: u32, a: u32, b: u32) -> Next
    requires there { m.old.base + d < length m.old.words.items }
    requires left { m.old.base + a < length m.old.words.items }
    requires right { m.old.base + b < length m.old.words.items }
    requires small { m.old.pc + 1 < 2 ^ 64 }
    ensures does { Does (op.Binary o k d a b) m.old result m.new }
    ensures room { KeepsRoom m.old m.new }
{
    let x = word_at(m.words.as_slice(), m.base, a);
    let y = word_at(m.words.as_slice(), m.base, b);
    match binary_word(o, k, x, y) {
        Ok(w) => {
            set_word(&mut m.words, m.base, d, w);
            m.pc += 1;
            Next::Goes
        }
        Err(trap) => Next::Stops(Stop::Trapped(trap)),
    }
}

#[inline(always)]
pub fn unary(m: &mut State, o: UnOp, k: Kind, d: u32, a: u32) -> Next
    requires there { m.old.base + d < length m.old.words.items }
    requires operand { m.old.base + a < length m.old.words.items }
    requires small { m.old.pc + 1 < 2 ^ 64 }
    ensures does { Does (op.Unary o k d a) m.old result m.new }
    ensures room { KeepsRoom m.old m.new }
{
    let x = word_at(m.words.as_slice(), m.base, a);
    set_word(&mut m.words, m.base, d, unary_word(o, k, x));
    m.pc += 1;
    Next::Goes
}

#[inline(always)]
pub fn compare(m: &mut State, o: CmpOp, k: Kind, d: u32, a: u32, b: u32) -> Next
    requires there { m.old.base + d < length m.old.words.items }
    requires left { m.old.base + a < length m.old.words.items }
    requires right { m.old.base + b < length m.old.words.items }
    requires small { m.old.pc + 1 < 2 ^ 64 }
    ensures does { Does (op.Compare o k d a b) m.old result m.new }
    ensures room { KeepsRoom m.old m.new }
{
    let x = word_at(m.words.as_slice(), m.base, a);
    let y = word_at(m.words.as_slice(), m.base, b);
    set_word(&mut m.words, m.base, d, compare_word(o, k, x, y));
    m.pc += 1;
    Next::Goes
}

#[inline(always)]
pub fn cast(m: &mut State, k: Kind, d: u32, a: u32) -> Next
    requires there { m.old.base + d < length m.old.words.items }
    requires operand { m.old.base + a < length m.old.words.items }
    requires small { m.old.pc + 1 < 2 ^ 64 }
    ensures does { Does (op.Cast k d a) m.old result m.new }
    ensures room { KeepsRoom m.old m.new }
{
    let x = word_at(m.words.as_slice(), m.base, a);
    set_word(&mut m.words, m.base, d, cast_word(k, x));
    m.pc += 1;
    Next::Goes
}

#[inline(always)]
pub fn jump(m: &mut State, t: u32) -> Next
    ensures does { Does (op.Jump t) m.old result m.new }
    ensures room { KeepsRoom m.old m.new }
{
    m.pc = t as usize;
    Next::Goes
}

#[inline(always)]
pub fn jump_zero(m: &mut State, s: u32, t: u32) -> Next
    requires there { m.old.base + s < length m.old.words.items }
    requires small { m.old.pc + 1 < 2 ^ 64 }
    ensures does { Does (op.JumpZero s t) m.old result m.new }
    ensures room { KeepsRoom m.old m.new }
{
    let zero = word_at(m.words.as_slice(), m.base, s) == 0;
    m.pc = if zero { t as usize } else { m.pc + 1 };
    Next::Goes
}

#[inline(always)]
pub fn jump_other(m: &mut State, s: u32, t: u32) -> Next
    requires there { m.old.base + s < length m.old.words.items }
    requires small { m.old.pc + 1 < 2 ^ 64 }
    ensures does { Does (op.JumpOther s t) m.old result m.new }
    ensures room { KeepsRoom m.old m.new }
{
    let zero = word_at(m.words.as_slice(), m.base, s) == 0;
    m.pc = if zero { m.pc + 1 } else { t as usize };
    Next::Goes
}

#[inline(always)]
pub fn turn(m: &mut State) -> Next
    requires { m.old.pc + 1 < 2 ^ 64 }
    ensures does { Does op.Turn m.old result m.new }
    ensures room { KeepsRoom m.old m.new }
{
    if m.left == 0 {
        return Next::Stops(Stop::Bound);
    }
    m.left -= 1;
    m.pc += 1;
    Next::Turns
}

#[inline(always)]
pub fn check(m: &mut State, s: u32, trap: TrapKind) -> Next
    requires there { m.old.base + s < length m.old.words.items }
    requires small { m.old.pc + 1 < 2 ^ 64 }
    ensures does { Does (op.Check s trap) m.old result m.new }
    ensures room { KeepsRoom m.old m.new }
{
    if word_at(m.words.as_slice(), m.base, s) == 0 {
        return Next::Stops(Stop::Trapped(trap));
    }
    m.pc += 1;
    Next::Goes
}

#[inline(always)]
pub fn flush(m: &mut State) -> Next
    requires { m.old.pc + 1 < 2 ^ 64 }
    ensures does { Does op.Flush m.old result m.new }
    ensures room { KeepsRoom m.old m.new }
{
    m.pc += 1;
    Next::Prints
}

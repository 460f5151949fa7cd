// Calls and returns.
ghost use Rattle.std.specs.Prelude.{◌≡◌, ℕ, ◌+◌, ◌-◌, ◌≤◌, ◌<◌, ◌^◌, Some, None, ◌∷◌, List, length, reverse, slice_get, vec_capacity, if◌then◌else◌};
ghost use Rattle.dc_code.specs.Perform.{is_too_deep, within, entered};
ghost use Rattle.dc_code.specs.Sound.{IsThere, CalleeFits};
ghost use Rattle.dc_code.specs.declared.instr.Op.TheVariants as op;
ghost use Rattle.dc_code.specs.declared.run.Caller.{Caller as Frame};
ghost use Rattle.dc_code.specs.declared.code.Draft.{Draft as Plan};
ghost use Rattle.dc_types.specs.declared.event.Event.{Event as Shown};
ghost use Rattle.dc_machine.specs.After.{machine_of, Leads, Does, KeepsRoom};

use crate::state::{Next, State, Stop};
use crate::words::{pop_frame, push_frame};
use dc_code::{Caller, Code, Function, Nest};
use dc_types::Limits;

/// The open calls with one more of this weight, unless it passes a limit.
#[inline(always)]
fn one_more(nest: Nest, limits: Limits, weight: u32) -> Option<Nest>
    ensures { result ≡ (if is_too_deep limits nest weight then None else Some (within nest weight)) }
{
    if limits.depth as u64 <= nest.depth {
        return None;
    }
    match nest.weight.checked_add(weight as u64) {
        None => None,
        Some(sum) => {
            if limits.stack < sum {
                None
            } else {
                Some(Nest {
                    depth: nest.depth + 1,
                    weight: sum,
                })
            }
        }
    }
}

/// A new frame for a function, whose first words are those from slot `a` on.
#[inline(always)]
fn open_frame(m: &mut State, f: &Function, nest: Nest, a: u32, d: u32)
    requires params { f.now.params ≤ f.now.weight }
    requires there { m.old.base + a + f.now.params ≤ length m.old.words.items }
    requires nest { nest ≡ within m.old.nest f.now.weight }
    requires room { length m.old.words.items + f.now.weight ≤ vec_capacity m.old.words }
    requires calls { length m.old.callers.items < vec_capacity m.old.callers }
    requires small { m.old.pc + 1 < 2 ^ 64 }
    ensures entered { (code : Plan) (taken : ℕ) (events : List Shown) → machine_of code m.new taken events ≡ entered f.now a d (machine_of code m.old taken events) }
    ensures room { KeepsRoom m.old m.new }
{
    let base = m.words.len();
    let from = m.base + a as usize;
    let caller = Caller {
        pc: m.pc + 1,
        base: m.base,
        slot: d,
        nest: m.nest,
    };
    let Ok(()) = push_frame(&mut m.words, from, f.params, f.weight) else {
        unreachable!()
    };
    let Ok(()) = m.callers.push(caller) else {
        unreachable!()
    };
    m.pc = f.first as usize;
    m.base = base;
    m.nest = nest;
}

/// A call of the function number `f` with the words from slot `a` on.
#[inline(always)]
pub fn enter(m: &mut State, code: &Code, limits: Limits, f: u32, a: u32, d: u32) -> Next
    requires callee { IsThere (slice_get code.now.functions f) (CalleeFits (length m.old.words.items - m.old.base) a d) }
    requires here { m.old.base ≤ length m.old.words.items }
    requires room { length m.old.words.items + (limits.stack - m.old.nest.weight) ≤ vec_capacity m.old.words }
    requires calls { length m.old.callers.items + (limits.depth - m.old.nest.depth) ≤ vec_capacity m.old.callers }
    requires small { m.old.pc + 1 < 2 ^ 64 }
    ensures does { Leads code.now limits (op.Call f a d) m.old result m.new }
    ensures room { KeepsRoom m.old m.new }
{
    let Some(function) = code.functions().get(f as usize) else {
        unreachable!()
    };
    if m.left == 0 {
        return Next::Stops(Stop::Bound);
    }
    m.left -= 1;
    let Some(nest) = one_more(m.nest, limits, function.weight) else {
        return Next::TooDeep(f);
    };
    open_frame(m, function, nest, a, d);
    Next::Enters(f)
}

/// A return of `n` words from slot `s` on.
#[inline(always)]
pub fn leave(m: &mut State, s: u32, n: u32) -> Next
    requires there { m.old.base + s + n ≤ length m.old.words.items }
    requires back { (c : Frame) (cs : List Frame) → reverse m.old.callers.items ≡ c ∷ cs → c.base + c.slot + n ≤ m.old.base }
    ensures does { Does (op.Return s n) m.old result m.new }
    ensures room { KeepsRoom m.old m.new }
{
    let Some(caller) = m.callers.pop() else {
        return Next::Stops(Stop::Returned(s, n));
    };
    let from = m.base + s as usize;
    let to = caller.base + caller.slot as usize;
    pop_frame(&mut m.words, m.base, from, to, n);
    m.pc = caller.pc;
    m.base = caller.base;
    m.nest = caller.nest;
    Next::Goes
}

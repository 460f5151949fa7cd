// The loop over instructions.
ghost use Rattle.std.specs.Prelude.{◌≡◌, ◌<◌, ◌^◌, [], length, map, IfOk, OnOk, OnErr, All};
ghost use Rattle.std.specs.Result.{IsErrOf};
ghost use Rattle.dc_edge.specs.Causes.{CountsFaults};
ghost use Rattle.dc_edge.specs.Sink.{Takes};
ghost use Rattle.dc_code.specs.State.{On};
ghost use Rattle.dc_code.specs.Sound.{IsSound};
ghost use Rattle.dc_machine.specs.After.{IsSimple, KeepsRoom, machine_of};
ghost use Rattle.dc_machine.specs.Running.{Ready, Begins, Stepped, IsTaking, Advances, Runs};

use crate::act::act;
use crate::state::{Fault, Halt, Next, State, Stop};
use dc_code::{Code, Op, keeps_standing};
use dc_edge::{Sink, SinkFault};
use dc_types::{Limits, NoMemory, TrapKind};
use std::alloc::Global;

/// One instruction, which is fetched from a copy of the code's without their places.
#[inline(always)]
fn step(
    m: &mut State,
    alloc: Global,
    code: &Code,
    ops: &[Op],
    limits: Limits,
) -> Result<Next, NoMemory>
    requires sound { IsSound code.now }
    requires simple { All (λ i. IsSimple i.op) code.now.instrs }
    requires ops { ops.now ≡ map (λ i. i.op) code.now.instrs }
    requires ready { Ready code.now limits m.old }
    ensures ok { IfOk result (λ next. Stepped code.now limits m.old next m.new) }
    ensures err { OnErr result (IsTaking code.now limits m.old) }
    ensures room { KeepsRoom m.old m.new }
{
    act(m, alloc, code, limits, ops[m.pc])
}

/// The pending text goes to the sink. An empty text is no put.
fn print<S: Sink>(pending: &mut Vec<u8>, out: &mut S) -> Result<(), SinkFault>
    ensures empty { OnOk result (pending.new.items ≡ []) }
    ensures some { OnErr result (0 < length pending.old.items) }
    ensures content { Takes (S.taken out.old) (S.taken out.new) pending.old.items result }
    ensures cause { CountsFaults (S.faults out.old) (S.faults out.new) (IsErrOf result SinkFault.Failed) }
{
    if pending.is_empty() {
        return Ok(());
    }
    match out.put(pending.as_slice()) {
        Ok(()) => {
            pending.clear();
            Ok(())
        }
        Err(fault) => Err(fault),
    }
}

/// One instruction, with what it prints put into the sink.
#[inline(always)]
fn advance<S: Sink>(
    m: &mut State,
    alloc: Global,
    code: &Code,
    ops: &[Op],
    limits: Limits,
    out: &mut S,
) -> Result<Option<Halt>, Fault>
    requires sound { IsSound code.now }
    requires simple { All (λ i. IsSimple i.op) code.now.instrs }
    requires ops { ops.now ≡ map (λ i. i.op) code.now.instrs }
    requires ready { Ready code.now limits m.old }
    ensures advances { Advances code.now limits m.old m.new (S.taken out.old) (S.taken out.new) result }
    ensures cause { CountsFaults (S.faults out.old) (S.faults out.new) (IsErrOf result Fault.Failed) }
    ensures room { KeepsRoom m.old m.new }
{
    let pc = m.pc;
    let Ok(next) = step(m, alloc, code, ops, limits) else {
        return Err(Fault::NoMemory);
    };
    match next {
        Next::Goes => Ok(None),
        Next::Turns => Ok(None),
        Next::Enters(_) => Ok(None),
        Next::Takes => Ok(None),
        Next::Prints => match print(&mut m.pending, out) {
            Ok(()) => Ok(None),
            Err(SinkFault::Failed) => Err(Fault::Failed),
            Err(SinkFault::NoMemory) => Err(Fault::NoMemory),
        },
        Next::Stops(stop) => Ok(Some(Halt { pc, stop })),
        Next::TooDeep(_) => Ok(Some(Halt {
            pc,
            stop: Stop::Trapped(TrapKind::Depth),
        })),
    }
}

/// The whole run from the machine's state.
pub fn run_on<S: Sink>(
    m: &mut State,
    alloc: Global,
    code: &Code,
    ops: &[Op],
    limits: Limits,
    out: &mut S,
) -> Result<Halt, Fault>
    requires sound { IsSound code.now }
    requires simple { All (λ i. IsSimple i.op) code.now.instrs }
    requires ops { ops.now ≡ map (λ i. i.op) code.now.instrs }
    requires begins { Begins code.now limits m.old }
    ensures runs { Runs code.now limits (On (machine_of code.now m.old 0 [])) m.new (S.taken out.old) (S.taken out.new) result }
    ensures cause { CountsFaults (S.faults out.old) (S.faults out.new) (IsErrOf result Fault.Failed) }
{
    keeps_standing(code);
    loop {
        match advance(m, alloc, code, ops, limits, out) {
            Ok(None) => {}
            Ok(Some(halt)) => return Ok(halt),
            Err(fault) => return Err(fault),
        }
    }
}

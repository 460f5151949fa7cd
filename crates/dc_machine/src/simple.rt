// Which code the machine runs.
ghost use Rattle.std.specs.Prelude.{IsTrue, ◌↔◌, All};
ghost use Rattle.dc_machine.specs.After.{IsSimple};

use dc_code::{Code, Instr, Op};

fn is_simple(op: Op) -> bool
    ensures { IsTrue result ↔ IsSimple op }
{
    match op {
        Op::Const(_, _) | Op::Copy(_, _, _) => true,
        Op::Binary(_, _, _, _, _) | Op::Unary(_, _, _, _) => true,
        Op::Compare(_, _, _, _, _) | Op::Cast(_, _, _) => true,
        Op::Jump(_) | Op::JumpZero(_, _) | Op::JumpOther(_, _) => true,
        Op::Turn | Op::Call(_, _, _) | Op::Return(_, _) => true,
        Op::PutInt(_, _) | Op::PutData(_) | Op::Flush | Op::Check(_, _) => true,
        _ => false,
    }
}

fn are_simple(instrs: &[Instr]) -> bool
    ensures { IsTrue result ↔ All (λ i. IsSimple i.op) instrs.now }
{
    instrs.iter().all(|i| is_simple(i.op))
}

/// Whether the code holds no other instruction than the machine runs.
pub fn is_simple_code(code: &Code) -> bool
    ensures { IsTrue result ↔ All (λ i. IsSimple i.op) code.now.instrs }
{
    are_simple(code.instrs())
}

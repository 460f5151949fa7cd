// Whether the slots of an instruction lie in its function's frame.
ghost use Rattle.std.specs.Prelude.{IsTrue, ◌↔◌, ◌+◌, ◌≤◌};
ghost use Rattle.dc_code.specs.Slots.{NumberSlots, AddressSlots, BlockSlots};

use crate::Op;

/// Whether the `n` slots from `s` on lie in a frame of that weight.
fn fit(weight: u32, s: u32, n: u64) -> bool
    ensures { IsTrue result ↔ (s + n ≤ weight) }
{
    n <= weight as u64 && s as u64 <= weight as u64 - n
}

/// The slots of numbers, copies, tests and returns.
pub fn number_slots_fit(weight: u32, op: Op) -> bool
    ensures { IsTrue result ↔ NumberSlots weight op }
{
    match op {
        Op::Const(d, _) => d < weight,
        Op::Copy(d, s, n) => fit(weight, d, n as u64) && fit(weight, s, n as u64),
        Op::Binary(_, _, d, a, b) => d < weight && a < weight && b < weight,
        Op::Unary(_, _, d, a) => d < weight && a < weight,
        Op::Compare(_, _, d, a, b) => d < weight && a < weight && b < weight,
        Op::Cast(_, d, a) => d < weight && a < weight,
        Op::JumpZero(s, _) => s < weight,
        Op::JumpOther(s, _) => s < weight,
        Op::Return(s, n) => fit(weight, s, n as u64),
        Op::PutInt(_, s) => s < weight,
        Op::Check(s, _) => s < weight,
        _ => true,
    }
}

/// The slots of addresses and slices.
pub fn address_slots_fit(weight: u32, op: Op) -> bool
    ensures { IsTrue result ↔ AddressSlots weight op }
{
    match op {
        Op::FrameAt(d, s) => fit(weight, d, 2) && s < weight,
        Op::GlobalAt(d, _) => fit(weight, d, 2),
        Op::Data(d, _) => fit(weight, d, 3),
        Op::Load(d, p, n) => fit(weight, d, n as u64) && fit(weight, p, 2),
        Op::Store(p, s, n) => fit(weight, p, 2) && fit(weight, s, n as u64),
        Op::Item(d, v, s, _) => fit(weight, d, 2) && fit(weight, v, 3) && s < weight,
        Op::FixedItem(d, p, s, _, _) => fit(weight, d, 2) && fit(weight, p, 2) && s < weight,
        Op::Part(d, v, a, b, _) => {
            fit(weight, d, 3) && fit(weight, v, 3) && a < weight && b < weight
        }
        Op::FixedPart(d, p, a, b, _, _) => {
            fit(weight, d, 3) && fit(weight, p, 2) && a < weight && b < weight
        }
        _ => true,
    }
}

/// The slots of instructions on blocks.
pub fn block_slots_fit(weight: u32, op: Op) -> bool
    ensures { IsTrue result ↔ BlockSlots weight op }
{
    match op {
        Op::Own(d, _) => fit(weight, d, 2),
        Op::Make(d, s, _, _, _) => fit(weight, d, 3) && s < weight,
        Op::List(d, s, n, c, _) => fit(weight, d, 3) && fit(weight, s, n as u64 * c as u64),
        Op::Join(d, a, b, _, _) => fit(weight, d, 3) && fit(weight, a, 3) && fit(weight, b, 3),
        Op::Append(d, a, b, _, _) => fit(weight, d, 3) && fit(weight, a, 3) && fit(weight, b, 3),
        Op::CopyPart(a, b, _) => fit(weight, a, 3) && fit(weight, b, 3),
        Op::Fill(a, s, c) => fit(weight, a, 3) && fit(weight, s, c as u64),
        Op::Same(d, a, b, _) => d < weight && fit(weight, a, 3) && fit(weight, b, 3),
        Op::Number(d, _, s) => fit(weight, d, 3) && s < weight,
        Op::PutText(v) => fit(weight, v, 3),
        Op::PutList(_, v) => fit(weight, v, 3),
        _ => true,
    }
}

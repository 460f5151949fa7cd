// A whole number is reduced to a kind.
ghost use Rattle.std.specs.Prelude.{◌≡◌, ◌^◌, ◌<◌, ◌≤◌, pos};
ghost use Rattle.dc_types.specs.Integers.{bits_of, residue, signed_residue, wrap};

use dc_types::Kind;

/// How many bits a number of the kind has.
#[tactic(auto, unfolding(dc_types::specs::Integers::bits_of))]
pub(crate) fn bits_of(k: Kind) -> u32
    ensures value { result ≡ bits_of k }
    ensures bound { result ≤ 64 }
{
    match k {
        Kind::Bool | Kind::I8 | Kind::U8 | Kind::Char => 8,
        Kind::I16 | Kind::U16 => 16,
        Kind::I32 | Kind::U32 => 32,
        Kind::I64 | Kind::U64 => 64,
    }
}

/// Two to the power of `exponent`.
fn power_of_two(exponent: u32) -> u128
    requires { exponent ≤ 64 }
    ensures { result ≡ 2 ^ exponent }
{
    1 << exponent
}

/// The lowest `bits` bits of the two's complement of `v`.
pub(crate) fn residue(bits: u32, v: i128) -> u64
    requires { bits ≤ 64 }
    ensures { result ≡ residue bits v }
{
    (v.cast_unsigned() & (power_of_two(bits) - 1)) as u64
}

/// The number from `-(2^(bits - 1))` to `2^(bits - 1) - 1` with the same lowest `bits` bits as `v`.
fn signed_residue(bits: u32, v: i128) -> i128
    requires some { 1 ≤ bits }
    requires room { bits ≤ 64 }
    ensures { result ≡ signed_residue bits v }
{
    let rest = i128::from(residue(bits, v));
    if rest < power_of_two(bits - 1) as i128 {
        rest
    } else {
        rest - power_of_two(bits) as i128
    }
}

/// What a whole number becomes in a kind: the number of the kind that differs from it by a multiple of two to the
/// power of the number of bits, and for `bool` 0 for 0, and else 1 (D specification, "Types", "Basic Data Types", and
/// "Expressions", "Cast Expressions").
#[tactic(auto, unfolding(dc_types::specs::Integers::bits_of, dc_types::specs::Integers::wrap))]
pub fn wrap(k: Kind, v: i128) -> i128
    ensures { result ≡ wrap k v }
{
    match k {
        Kind::Bool => { if v == 0 { 0 } else { 1 } }
        Kind::I8 | Kind::I16 | Kind::I32 | Kind::I64 => signed_residue(bits_of(k), v),
        Kind::U8 | Kind::U16 | Kind::U32 | Kind::U64 | Kind::Char => {
            i128::from(residue(bits_of(k), v))
        }
    }
}

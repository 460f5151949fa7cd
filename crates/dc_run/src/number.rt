// Numbers as words: a number is stored modulo 2 to the power of 64.
use dc_types::{BinOp, CmpOp, Kind, TrapKind, UnOp};

#[inline(always)]
pub(crate) fn int(w: u64) -> i32 {
    ((w % 4294967296) as u32).cast_signed()
}

#[inline(always)]
pub(crate) fn word(x: i32) -> u64 {
    i64::from(x).cast_unsigned()
}

#[inline(always)]
pub(crate) fn bit(x: bool) -> u64 {
    if x { 1 } else { 0 }
}

/// A word as a number of a kind.
#[inline(always)]
pub fn wrap_word(kind: Kind, w: u64) -> u64 {
    match kind {
        Kind::Bool => bit(w != 0),
        Kind::I8 => i64::from(((w % 256) as u8).cast_signed()).cast_unsigned(),
        Kind::U8 | Kind::Char => w % 256,
        Kind::I16 => i64::from(((w % 65536) as u16).cast_signed()).cast_unsigned(),
        Kind::U16 => w % 65536,
        Kind::I32 => word(int(w)),
        Kind::U32 => w % 4294967296,
        Kind::I64 | Kind::U64 => w,
    }
}

#[inline(always)]
fn is_signed(kind: Kind) -> bool {
    match kind {
        Kind::I8 | Kind::I16 | Kind::I32 | Kind::I64 => true,
        Kind::Bool | Kind::U8 | Kind::U16 | Kind::U32 | Kind::U64 | Kind::Char => false,
    }
}

fn bits(kind: Kind) -> u64 {
    match kind {
        Kind::Bool | Kind::I8 | Kind::U8 | Kind::Char => 8,
        Kind::I16 | Kind::U16 => 16,
        Kind::I32 | Kind::U32 => 32,
        Kind::I64 | Kind::U64 => 64,
    }
}

/// The least number of a signed kind.
fn least(kind: Kind) -> i64 {
    match kind {
        Kind::I8 => -128,
        Kind::I16 => -32768,
        Kind::I32 => -2147483648,
        _ => i64::MIN,
    }
}

/// `x / y`, or `x % y` where the flag is set.
fn divided(kind: Kind, x: u64, y: u64, rest: bool) -> Result<u64, TrapKind> {
    let value = if is_signed(kind) {
        let a = x.cast_signed();
        let b = y.cast_signed();
        if b == -1 && a == least(kind) {
            None
        } else if rest {
            a.checked_rem(b).map(|v| v.cast_unsigned())
        } else {
            a.checked_div(b).map(|v| v.cast_unsigned())
        }
    } else if rest {
        x.checked_rem(y)
    } else {
        x.checked_div(y)
    };
    match value {
        Some(v) => Ok(v),
        None => Err(TrapKind::Divide),
    }
}

/// `x` shifted by `y`, which is read as a `long`: one below 0 is above all widths.
fn shifted(op: BinOp, kind: Kind, x: u64, y: u64) -> Result<u64, TrapKind> {
    if y >= bits(kind) || y >= 64 {
        return Err(TrapKind::Shift);
    }
    let count = y as u32;
    Ok(match op {
        BinOp::Shl => wrap_word(kind, x << count),
        BinOp::Shr => {
            if is_signed(kind) {
                (x.cast_signed() >> count).cast_unsigned()
            } else {
                x >> count
            }
        }
        _ => {
            let pattern = match kind {
                Kind::I8 => x % 256,
                Kind::I16 => x % 65536,
                Kind::I32 => x % 4294967296,
                _ => x,
            };
            wrap_word(kind, pattern >> count)
        }
    })
}

/// What an operator gives on the words of two numbers of a kind.
pub(crate) fn binary_words(op: BinOp, kind: Kind, x: u64, y: u64) -> Result<u64, TrapKind> {
    match op {
        BinOp::Add => Ok(wrap_word(kind, x.wrapping_add(y))),
        BinOp::Sub => Ok(wrap_word(kind, x.wrapping_sub(y))),
        BinOp::Mul => Ok(wrap_word(kind, x.wrapping_mul(y))),
        BinOp::Div => divided(kind, x, y, false),
        BinOp::Rem => divided(kind, x, y, true),
        BinOp::BitAnd => Ok(x & y),
        BinOp::BitOr => Ok(x | y),
        BinOp::BitXor => Ok(x ^ y),
        BinOp::Shl | BinOp::Shr | BinOp::Ushr => shifted(op, kind, x, y),
    }
}

/// What an operator gives on the word of a number of a kind.
#[inline(always)]
pub fn unary_words(op: UnOp, kind: Kind, x: u64) -> u64 {
    match op {
        UnOp::Negate => wrap_word(kind, 0u64.wrapping_sub(x)),
        UnOp::Flip => wrap_word(kind, u64::MAX - x),
        UnOp::Not => bit(x == 0),
    }
}

/// Whether a comparison holds of the words of two numbers of a kind.
pub fn compare_words(op: CmpOp, kind: Kind, x: u64, y: u64) -> bool {
    let less = if is_signed(kind) {
        x.cast_signed() < y.cast_signed()
    } else {
        x < y
    };
    match op {
        CmpOp::Equal => x == y,
        CmpOp::Differs => x != y,
        CmpOp::Less => less,
        CmpOp::LessEq => less || x == y,
        CmpOp::Greater => !less && x != y,
        CmpOp::GreaterEq => !less,
    }
}

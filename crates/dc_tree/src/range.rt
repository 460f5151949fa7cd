// The ranges of numbers that an expression may have.
use dc_syntax::Want;
use dc_types::Kind;
use std::alloc::Global;

/// The least and the greatest value of an expression.
#[derive(Clone, Copy, PartialEq, Eq)]
pub struct Range {
    pub lo: i128,
    pub hi: i128,
}

impl Range {
    /// All numbers of a kind (D specification, "Types", "Basic Data Types").
    pub fn of_kind(kind: Kind) -> Range {
        let (lo, hi) = match kind {
            Kind::Bool => (0, 1),
            Kind::I8 => (-128, 127),
            Kind::U8 | Kind::Char => (0, 255),
            Kind::I16 => (-32768, 32767),
            Kind::U16 => (0, 65535),
            Kind::I32 => (-2147483648, 2147483647),
            Kind::U32 => (0, 4294967295),
            Kind::I64 => (-9223372036854775808, 9223372036854775807),
            Kind::U64 => (0, 18446744073709551615),
        };
        Range { lo, hi }
    }

    pub fn alone(value: i128) -> Range {
        Range {
            lo: value,
            hi: value,
        }
    }

    /// Whether this range lies in another.
    pub fn fits(self, other: Range) -> bool {
        other.lo <= self.lo && self.hi <= other.hi
    }
}

/// The number of a range.
#[derive(Clone, Copy, PartialEq, Eq)]
pub struct RangeId(pub u32);

#[derive(Drop)]
pub struct Ranges {
    all: Vec<Range>,
}

impl Ranges {
    /// The range of what is no number.
    pub const NONE: RangeId = RangeId(u32::MAX);

    pub fn new(alloc: Global) -> Ranges {
        Ranges {
            all: Vec::new(alloc),
        }
    }

    pub fn add(&mut self, range: Range) -> Result<RangeId, Want> {
        match u32::try_from(self.all.len()) {
            Ok(n) => {
                self.all.push(range)?;
                Ok(RangeId(n))
            }
            Err(_) => Err(Want),
        }
    }

    pub fn get(&self, id: RangeId) -> Option<Range> {
        self.all.get(id.0 as usize).copied()
    }
}

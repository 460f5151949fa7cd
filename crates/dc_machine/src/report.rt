// What a run comes to.
use dc_types::{Text, Trap};

/// How a run ended.
#[derive(Drop)]
pub enum RunEnd {
    /// With a value, whose first word as a `long` this is, or 0 where it has none.
    Value(i64),
    Trapped(Trap),
    /// Before an event for which there was no tick.
    Bound,
    /// A put into the sink failed.
    WriteFault,
    NoMemory,
}

/// How a run ended, and the lines of the probes that were dropped.
#[derive(Drop)]
pub struct RunReport {
    pub end: RunEnd,
    pub lines: Text,
}

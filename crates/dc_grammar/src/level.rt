/// Where an expression stands: which operators it may have outside of brackets.
#[derive(Clone, Copy)]
pub enum Level {
    /// Any.
    Whole,
    /// All but those that assign.
    Conditional,
    /// Those before and behind an operand alone.
    Unary,
}

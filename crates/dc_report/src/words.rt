// The names of rules and traps.
use dc_types::TrapKind;

/// The name of a rule, by its number from 1 to 25.
pub fn rule_name(rule: u8) -> &'static [u8] {
    match rule {
        1 => b"text",
        2 => b"grammar",
        3 => b"module twice",
        4 => b"no such module",
        5 => b"not found",
        6 => b"name conflict",
        7 => b"declared twice",
        8 => b"circular",
        9 => b"late declaration",
        10 => b"types",
        11 => b"no match",
        12 => b"ambiguous",
        13 => b"template",
        14 => b"static assert",
        15 => b"not constant",
        16 => b"compile-time trap",
        17 => b"compile-time ticks",
        18 => b"count",
        19 => b"mixin bytes",
        20 => b"no main",
        21 => b"mixin text",
        22 => b"not assignable",
        23 => b"outside profile",
        24 => b"size",
        25 => b"flow",
        _ => b"",
    }
}

/// The name of a trap.
pub fn trap_name(kind: TrapKind) -> &'static [u8] {
    match kind {
        TrapKind::Divide => b"Divide",
        TrapKind::Shift => b"Shift",
        TrapKind::Bounds => b"Bounds",
        TrapKind::Length => b"Length",
        TrapKind::Overlap => b"Overlap",
        TrapKind::Assert => b"Assert",
        TrapKind::Heap => b"Heap",
        TrapKind::Depth => b"Depth",
    }
}

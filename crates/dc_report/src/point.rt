// Lines and columns.
use crate::number::append_number;
use dc_syntax::Want;
use dc_types::Text;
use std::alloc::Global;

/// The line and the column of an offset: 1 and the line feeds before it, 1 and the bytes behind
/// the last of these.
fn point(text: &[u8], offset: u32) -> (u64, u64) {
    let mut line: u64 = 1;
    let mut column: u64 = 1;
    let mut left = offset;
    for byte in text {
        if left == 0 {
            break;
        }
        left = left.saturating_sub(1);
        if *byte == b'\n' {
            line = line.saturating_add(1);
            column = 1;
        } else {
            column = column.saturating_add(1);
        }
    }
    (line, column)
}

/// Appends `LINE:COLUMN` of an offset in a text.
pub(crate) fn append_point(
    shown: &mut Text,
    alloc: Global,
    text: &[u8],
    offset: u32,
) -> Result<(), Want> {
    let (line, column) = point(text, offset);
    append_number(shown, alloc, line)?;
    shown.append(b":")?;
    append_number(shown, alloc, column)
}

// Numbers in decimal.
use dc_syntax::Want;
use dc_types::Text;
use std::alloc::Global;

/// Appends a number in decimal.
pub(crate) fn append_number(line: &mut Text, alloc: Global, number: u64) -> Result<(), Want> {
    let digits = format!(in alloc; "{number}")?;
    line.append(digits.as_bytes())?;
    Ok(())
}

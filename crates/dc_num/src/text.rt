// Numbers as text.
ghost use Rattle.std.specs.Prelude.{◌≡◌, IfOk};
ghost use Rattle.std.specs.Fmt.{signed_decimal};

use dc_types::{NoMemory, Text};
use std::alloc::Global;

/// A number in decimal, with `-` before a number below 0 and no leading zeros (as `std.conv.to` writes it).
pub fn decimal(alloc: Global, v: i128) -> Result<Text, NoMemory>
    ensures { IfOk result (λ text. text ≡ signed_decimal v) }
{
    Ok(Text::from_vec(v.to_string(alloc)?.into_bytes()))
}

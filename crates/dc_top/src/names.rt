// Names of modules.
ghost use Rattle.std.specs.Prelude.{◌≡◌, ◌≤◌, length};
ghost use Rattle.dc_top.specs.Names.{behind_last, before_last, default_name};

/// What stands behind the last byte of this value, or all where there is none.
#[tactic(auto, using(crate::proofs::LastByte::last_start))]
pub fn behind_last(mark: u8, bytes: &[u8]) -> &[u8]
    ensures value { result.now ≡ behind_last mark bytes.now }
    ensures within { length result.now ≤ length bytes.now }
{
    let mut from = 0;
    for (at, byte) in bytes.iter().enumerate() {
        if *byte == mark {
            from = at + 1;
        }
    }
    &bytes[from..]
}

/// What stands before the last byte of this value, or all where there is none.
#[tactic(auto, using(crate::proofs::LastByte::shorter_behind))]
fn before_last(mark: u8, bytes: &[u8]) -> &[u8]
    ensures { result.now ≡ before_last mark bytes.now }
{
    let behind = behind_last(mark, bytes).len();
    if behind < bytes.len() {
        &bytes[..bytes.len() - (behind + 1)]
    } else {
        bytes
    }
}

/// A file's name without its folder and its last extension: the name of its module
/// (D specification, "Modules", "Module Declaration").
pub fn default_name(path: &[u8]) -> &[u8]
    ensures { result.now ≡ default_name path.now }
{
    before_last(b'.', behind_last(b'/', path))
}

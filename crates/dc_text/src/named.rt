// The names of modules.
use dc_ast::{ModuleLine, Name};
use dc_lexer::is_name;
use dc_model::{Stop, World};
use dc_syntax::NameId;

/// What stands behind the last byte of this value, or all where there is none.
fn behind_last(mark: u8, bytes: &[u8]) -> &[u8] {
    let mut from: usize = 0;
    for (at, byte) in bytes.iter().enumerate() {
        if *byte == mark {
            from = at.saturating_add(1);
        }
    }
    match bytes.get(from..) {
        Some(behind) => behind,
        None => b"",
    }
}

/// What stands before the last byte of this value, or all where there is none.
fn before_last(mark: u8, bytes: &[u8]) -> &[u8] {
    let mut end = bytes.len();
    for (at, byte) in bytes.iter().enumerate() {
        if *byte == mark {
            end = at;
        }
    }
    match bytes.get(..end) {
        Some(before) => before,
        None => bytes,
    }
}

/// A file's name without its folder and its last extension: the name of its module (D
/// specification, "Modules", "Module Declaration").
pub fn default_name(path: &[u8]) -> &[u8] {
    before_last(b'.', behind_last(b'/', path))
}

/// The parts of a name with points between them, as one name.
fn dotted(w: &mut World, path: &[Name]) -> Result<NameId, Stop> {
    let mut bytes = Vec::new(w.alloc);
    for part in path {
        if !bytes.is_empty() {
            bytes.push(b'.')?;
        }
        bytes.extend_from_slice(part.spelling.as_slice())?;
    }
    let name = w.pool.names.number(bytes.as_slice())?;
    Ok(name)
}

/// The name of the module with this line, in the file at this path; nothing where the line is
/// missing and the file's default name is no identifier.
pub(crate) fn name_of(
    w: &mut World,
    path: &[u8],
    line: &Option<ModuleLine>,
) -> Result<Option<NameId>, Stop> {
    if let Some(line) = line {
        let name = dotted(w, line.name.as_slice())?;
        return Ok(Some(name));
    }
    let own = default_name(path);
    if !is_name(own) {
        return Ok(None);
    }
    let name = w.pool.names.number(own)?;
    Ok(Some(name))
}

// Lists of version names, as `a,b`.
use dc_lexer::is_name;

/// The offset of the first comma, or the end.
fn first_end(names: &[u8]) -> usize {
    for (at, byte) in names.iter().enumerate() {
        if *byte == b',' {
            return at;
        }
    }
    names.len()
}

/// The first name of a list.
pub fn first_version(names: &[u8]) -> &[u8] {
    match names.get(..first_end(names)) {
        Some(first) => first,
        None => names,
    }
}

/// The list behind the first name and its comma; nothing where there is no comma.
pub fn later_versions(names: &[u8]) -> Option<&[u8]> {
    names.get(first_end(names).saturating_add(1)..)
}

/// Whether a word is a list of names: at least one, with commas between them.
pub(crate) fn are_names(word: &[u8]) -> bool {
    let mut names = word;
    for _ in 0..u64::MAX {
        if !is_name(first_version(names)) {
            return false;
        }
        match later_versions(names) {
            Some(later) => names = later,
            None => return true,
        }
    }
    false
}

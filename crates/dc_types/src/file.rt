// A file in memory.
use crate::Text;

/// A file: its path, as the words of the command name it, and its bytes.
#[derive(Drop)]
pub struct File {
    pub path: Text,
    pub bytes: Text,
}

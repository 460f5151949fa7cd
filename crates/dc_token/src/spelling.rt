// A list of bytes.
ghost use Rattle.std.specs.Prelude.{◌≡◌, [], length, IfOk};

use std::alloc::{AllocError, Global};
use std::marker::Model;

/// The bytes of a token or of a string's value, which contracts see as a list.
#[derive(Drop)]
pub struct Spelling {
    bytes: Vec<u8>,
}

impl Model for Spelling {
    ghost use Rattle.std.specs.Prelude.{List, ℕ};

    ghost Value = { List ℕ };

    ghost view = { λ s. s.bytes.items };
}

impl Spelling {
    pub fn from_vec(bytes: Vec<u8>) -> Spelling
        ensures { result ≡ bytes.items }
    {
        Spelling { bytes }
    }

    pub fn into_vec(self) -> Vec<u8>
        ensures { result.items ≡ self }
    {
        let Spelling { bytes } = self;
        bytes
    }

    /// A copy of the bytes.
    pub fn copy_of(alloc: Global, bytes: &[u8]) -> Result<Spelling, AllocError>
        ensures { IfOk result (λ spelling. spelling ≡ bytes.now) }
    {
        let bytes = Vec::from_slice(alloc, bytes)?;
        Ok(Spelling { bytes })
    }

    pub fn as_slice(&self) -> &[u8]
        ensures { result.now ≡ self.now }
    {
        self.bytes.as_slice()
    }
}

// Names and the spellings of literals.
ghost use Rattle.std.specs.Prelude.{◌≡◌, IfOk};

use sqlite_items::Items;
use std::alloc::{AllocError, Global};
use std::cmp::Ordering;
use std::marker::Model;

/// The bytes of a name or of a literal as they are written, which contracts see as a list.
#[derive(Drop)]
pub struct Spelling {
    bytes: Vec<u8>,
}

impl Model for Spelling {
    ghost use Rattle.std.specs.Prelude.{List, ℕ};

    ghost Value = { List ℕ };

    ghost view = { λ s. s.bytes.items };
}

impl Spelling {
    pub fn from_vec(bytes: Vec<u8>) -> Spelling
        ensures { result ≡ bytes.items }
    {
        Spelling { bytes }
    }

    pub fn into_vec(self) -> Vec<u8>
        ensures { result.items ≡ self }
    {
        let Spelling { bytes } = self;
        bytes
    }

    /// A copy of the bytes.
    pub fn copy_of(alloc: Global, bytes: &[u8]) -> Result<Spelling, AllocError>
        ensures { IfOk result (λ spelling. spelling ≡ bytes.now) }
    {
        let bytes = Vec::from_slice(alloc, bytes)?;
        Ok(Spelling { bytes })
    }

    pub fn as_slice(&self) -> &[u8]
        ensures { result.now ≡ self.now }
    {
        self.bytes.as_slice()
    }
}

impl PartialEq for Spelling {
    ghost use Rattle.std.specs.Str.{bytes_eq};
    ghost use Rattle.std.specs.Cmp.{partial_equiv_from_equiv};
    ghost use Rattle.std.specs.Cmp.Lexicographic.{nat_list_eq_equiv};

    ghost eq = { bytes_eq };

    ghost laws = { partial_equiv_from_equiv nat_list_eq_equiv };

    fn eq(&self, other: &Spelling) -> bool {
        self.bytes.as_slice() == other.bytes.as_slice()
    }
}

impl Eq for Spelling {
    ghost use Rattle.std.specs.Cmp.Lexicographic.{nat_list_eq_equiv};

    ghost laws = { nat_list_eq_equiv };
}

impl PartialOrd for Spelling {
    ghost use Rattle.std.specs.Prelude.{Some};
    ghost use Rattle.std.specs.Ordering.{nat_cmp};
    ghost use Rattle.std.specs.Cmp.Lexicographic.{slice_cmp, texts_po};

    ghost partial_cmp = { λ x y. Some (slice_cmp nat_cmp x y) };

    ghost laws = { texts_po };

    fn partial_cmp(&self, other: &Spelling) -> Option<Ordering> {
        Some(self.cmp(other))
    }
}

impl Ord for Spelling {
    ghost use Rattle.std.specs.Prelude.{refl};
    ghost use Rattle.std.specs.Ordering.{nat_cmp};
    ghost use Rattle.std.specs.Cmp.Lexicographic.{slice_cmp, nat_list_cmp_total, texts_ties};

    ghost cmp = { slice_cmp nat_cmp };

    ghost total = { nat_list_cmp_total };

    ghost matches_partial_cmp = { λ x y. refl };

    ghost matches_eq = { texts_ties };

    fn cmp(&self, other: &Spelling) -> Ordering {
        self.bytes.as_slice().cmp(other.bytes.as_slice())
    }
}

/// A name that is written in the text.
#[derive(Drop)]
pub struct Name {
    pub spelling: Spelling,
    pub at: u32,
}

/// A name of parts, as `a.b.c`. It has at least one part.
pub type Path = Items<Name>;

/// A copy that is equal.
pub fn copy_name(alloc: Global, name: &Name) -> Result<Name, AllocError>
    ensures { IfOk result (λ copy. copy ≡ name.now) }
{
    Ok(Name {
        spelling: Spelling::copy_of(alloc, name.spelling.as_slice())?,
        at: name.at,
    })
}

// Names and other short texts, each kept once and known by its number.
use crate::Want;
use indexmap::IndexSet;
use std::alloc::Global;

/// The number of a name: an identifier, a module's dotted name, a key text, or the bytes of a
/// string.
#[derive(Clone, Copy, PartialEq, Eq, PartialOrd, Ord, Hash)]
pub struct NameId(pub u32);

/// All names of a program, in the order in which they were met.
#[derive(Drop)]
pub struct Names {
    alloc: Global,
    known: IndexSet<Vec<u8>>,
}

impl Names {
    pub fn new(alloc: Global) -> Names {
        Names {
            alloc,
            known: IndexSet::new(alloc),
        }
    }

    pub(crate) fn alloc(&self) -> Global {
        self.alloc
    }

    /// The number of the name, which is added where it is new.
    pub fn number(&mut self, bytes: &[u8]) -> Result<NameId, Want> {
        if let Some(known) = self.find(bytes) {
            return Ok(known);
        }
        let own = Vec::from_slice(self.alloc, bytes)?;
        let (index, _) = self.known.insert_full(own)?;
        match u32::try_from(index) {
            Ok(index) => Ok(NameId(index)),
            Err(_) => Err(Want),
        }
    }

    /// The number of a name that is known.
    pub fn find(&self, bytes: &[u8]) -> Option<NameId> {
        let index = self.known.get_index_of(bytes)?;
        match u32::try_from(index) {
            Ok(index) => Some(NameId(index)),
            Err(_) => None,
        }
    }

    /// The bytes of a name; none for a number that no name has.
    pub fn bytes(&self, name: NameId) -> &[u8] {
        match self.known.get_index(name.0 as usize) {
            Some(bytes) => bytes.as_slice(),
            None => b"",
        }
    }
}

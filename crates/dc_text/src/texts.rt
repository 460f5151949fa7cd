// The texts of a program.
use dc_syntax::{NameId, Names, Want};
use dc_tree::PlaceId;
use indexmap::IndexMap;
use std::alloc::Global;

/// The texts of a program, which the offsets of its places count in: its files, and the texts of
/// its mixins.
#[derive(Drop)]
pub struct Texts {
    /// A text as a name, by the place of its module or of its `mixin` word.
    kept: IndexMap<PlaceId, NameId>,
}

impl Texts {
    pub fn new(alloc: Global) -> Texts {
        Texts {
            kept: IndexMap::new(alloc),
        }
    }

    /// Keeps the text of a module, or of the mixin at a place. It takes the place of one that was
    /// kept there.
    pub fn keep(&mut self, names: &mut Names, place: PlaceId, text: &[u8]) -> Result<(), Want> {
        let name = names.number(text)?;
        self.kept.insert(place, name)?;
        Ok(())
    }

    /// The text of the module or mixin at that place; nothing where none is kept.
    pub fn text<'a>(&self, names: &'a Names, place: PlaceId) -> &'a [u8] {
        match self.kept.get(&place) {
            Some(name) => names.bytes(*name),
            None => b"",
        }
    }
}

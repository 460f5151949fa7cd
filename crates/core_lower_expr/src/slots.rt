// What the names of an expression stand for.
ghost use Rattle.std.specs.Prelude.{◌≡◌};
ghost use Rattle.core_lower_expr.specs.Slots.{names_of};

use core_tree::Table;
use dc_types::Place;

/// What names stand for: the slot of each parameter and other variable, and the number of each function, by the places of
/// their declarations; and the first slot that is free for temporaries.
#[derive(Drop)]
pub struct Slots {
    pub named: Table<Place>,
    pub functions: Table<Place>,
    pub spare: u32,
}

impl Slots {
    /// The slot of the variable that is declared at the place.
    pub fn slot(&self, place: &Place) -> u32
        ensures { result ≡ (names_of self.now).slot place.now }
    {
        self.named.get(place).unwrap_or(0)
    }

    /// The number of the function that is declared at the place.
    pub(crate) fn function(&self, place: &Place) -> u32
        ensures { result ≡ (names_of self.now).function place.now }
    {
        self.functions.get(place).unwrap_or(0)
    }
}

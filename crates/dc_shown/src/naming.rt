// What the texts of types and values need to know of a program.
ghost use Rattle.std.specs.Prelude.{◌≡◌};
ghost use Rattle.dc_shown.specs.Told.{Told};

use dc_layout::Field;
use dc_types::Place;

/// The declarations of a program, as far as their names are shown.
pub trait Naming {
    /// All that is told.
    ghost told: { Self → Told };

    /// The name of the declaration at the place.
    fn name(&self, place: &Place) -> &[u8]
        ensures { result.now ≡ (told self.now).name place.now };

    /// Whether the declaration is an instance of a template, whose arguments have the key text in the last step of the
    /// place. What stands inside an instance is none.
    fn is_instance(&self, place: &Place) -> bool
        ensures { result ≡ (told self.now).is_instance place.now };

    /// The fields of the struct that is declared at the place, or none.
    fn fields(&self, place: &Place) -> &[Field]
        ensures { result.now ≡ (told self.now).fields place.now };
}

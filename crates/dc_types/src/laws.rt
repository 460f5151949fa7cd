// Laws of the plain data.
ghost use Rattle.std.specs.Cmp.Lexicographic.{pointwise};
ghost use Rattle.dc_types.specs.Equal.{IsExact};
ghost use Rattle.dc_types.specs.Ordered.{StepOrder, PlaceOrder};
ghost use Rattle.dc_types.specs.contracts.kind.KindPartialEq.TheImpl as kind_eq;
ghost use Rattle.dc_types.specs.contracts.place.PlacePartialEq.TheImpl as place_eq;
ghost use Rattle.dc_types.specs.contracts.place.StepPartialEq.TheImpl as step_eq;
ghost use Rattle.dc_types.specs.contracts.text.TextPartialEq.TheImpl as text_eq;
ghost use Rattle.dc_types.specs.contracts.ty.TyPartialEq.TheImpl as ty_eq;

/// The comparisons are exact: `==` holds of equal values and of no others.
pub fn comparison_laws()
    ensures kinds { IsExact ((kind_eq.ghosts).eq) }
    ensures texts { IsExact ((text_eq.ghosts).eq) }
    ensures steps { IsExact ((step_eq.ghosts).eq) }
    ensures places { IsExact ((place_eq.ghosts).eq) }
    ensures types { IsExact ((ty_eq.ghosts).eq) }
{}

/// The comparison of two lists is exact where that of their items is.
pub fn list_law<T: PartialEq>()
    ensures { IsExact T.eq → IsExact (pointwise T.eq) }
{}

/// The order of places: by the name of the module, in the order of bytes, and then step by step, where a place comes before
/// those inside it. Offsets come before rounds and rounds before instances, each sort by what it holds.
pub fn order_laws()
    ensures steps { StepOrder }
    ensures places { PlaceOrder }
{}

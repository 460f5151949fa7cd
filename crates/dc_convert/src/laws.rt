// Laws of the definitions.
ghost use Rattle.std.specs.Prelude.{ℤ};
ghost use Rattle.dc_types.specs.declared.kind.Kind.{Kind};
ghost use Rattle.dc_candidate.specs.declared.range.Range.{Range};
ghost use Rattle.dc_types.specs.Integers.{wrap};
ghost use Rattle.dc_convert.specs.Ranges.{Within, fitted};
ghost use Rattle.dc_convert.specs.CommonKinds.{InAnyOrder};
ghost use Rattle.dc_convert.specs.Levels.{LosesThere};
ghost use Rattle.dc_convert.specs.Best.{Numbers, OneBeats, OneBest, OneOutcome, Causes};

/// The common kind is the same for two numbers either way round, and for three whichever two are taken first
/// (D specification, "Types", "Usual Arithmetic Conversions").
pub fn common_law()
    ensures { InAnyOrder }
{}

/// A number that is converted to a kind lies in the range that its own becomes there.
pub fn conversion_law()
    ensures { (k : Kind) → (r : Range) → (z : ℤ) → Within r z → Within (fitted k r) (wrap k z) }
{}

/// Where the contracts of `converts` and `number_goes` allow that a number is lost, the kind goes to the other and the
/// number does change: so nothing is allowed without need (D specification, "Types", "Implicit Conversions").
pub fn loss_law()
    ensures { LosesThere }
{}

/// Of two candidates of a call at most one beats the other, and at most one is the best. The candidates of all sets have
/// different numbers (D specification, "Functions", "Function Overloading").
pub fn choice_laws()
    ensures beats { OneBeats }
    ensures best { OneBest }
    ensures numbers { Numbers }
{}

/// A call has one outcome: some candidate is the best, none matches, or the call is ambiguous. It is so exactly where a
/// candidate matches, and none beats all others or candidates of two sets match.
pub fn outcome_laws()
    ensures one { OneOutcome }
    ensures causes { Causes }
{}

// White space between items. The function does nothing: what it ensures are the laws.
ghost use Rattle.dc_lexer.specs.Cuts.{SpaceMoves, RoomNeeded};

/// White space that is added between two items of a text changes no token before it, and of those behind it the offsets
/// alone, at exactly those places of which `has_room` holds.
pub fn space_moves()
    ensures moves { SpaceMoves }
    ensures needed { RoomNeeded }
{}

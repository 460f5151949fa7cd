// The texts of mixins.
use crate::breach::refuse_mixin;
use crate::cut::{origin, tokens_of};
use crate::texts::Texts;
use dc_model::{Stop, World};
use dc_parse::{parse_declarations, parse_statements};
use dc_parse_expr::{ExprReader, parse_expression};
use dc_syntax::{List, NodeId, flat_declarations, flat_expression, flat_statements};
use dc_token::Tokens;
use dc_tree::{SpotId, Where};

/// How many mixins a text may stand in.
const MOST_DEPTH: u32 = 64;

/// A mixin's text as tokens, and its spot.
#[derive(Drop)]
struct Mixin {
    tokens: Tokens,
    spot: SpotId,
}

/// The spot of a mixin's text, which is kept for reports.
fn spot_of(w: &mut World, texts: &mut Texts, text: &[u8], at: Where) -> Result<SpotId, Stop> {
    let outer = w.pool.places.spot(at.spot);
    if MOST_DEPTH <= outer.depth {
        return w.refuse(18, at, None);
    }
    let place = w.pool.places.place(at)?;
    texts.keep(&mut w.pool.names, place, text)?;
    let spot = w.pool.places.mixed(at)?;
    Ok(spot)
}

/// The tokens of a mixin's text. A text that is too long for any is too long for the program's
/// mixins as well.
fn read_mixin(w: &mut World, texts: &mut Texts, text: &[u8], at: Where) -> Result<Mixin, Stop> {
    let spot = spot_of(w, texts, text, at)?;
    match tokens_of(w.alloc, text) {
        Ok(Some(tokens)) => Ok(Mixin { tokens, spot }),
        Ok(None) => w.refuse(19, at, None),
        Err(fail) => refuse_mixin(w, spot, &fail),
    }
}

/// Reads the text of the mixin at a place as declarations (D specification, "Declarations", "Mixin
/// Declarations"), and gives the list of them, as `flat_declarations` does, with the spot of the
/// text. The first that holds refuses it:
///
/// - rule 18 at the mixin where it stands in 64 others;
/// - rule 21 in its text at the first offset at which no token, comment or white space begins;
/// - rule 23 at the first token that the compiler leaves out, with its text;
/// - rule 24 at the first token that nests deeper than 256;
/// - rule 21 at the first token behind the longest list of declarations that begins the text.
pub fn mixed_declarations(
    w: &mut World,
    texts: &mut Texts,
    text: &[u8],
    at: Where,
) -> Result<(List, SpotId), Stop> {
    let read = read_mixin(w, texts, text, at)?;
    let alloc = w.alloc;
    let start = origin(alloc);
    match parse_declarations(alloc, &ExprReader { alloc }, &read.tokens, &start) {
        Ok(tree) => {
            let list = flat_declarations(&tree, &mut w.pool.syntax, &mut w.pool.names)?;
            Ok((list, read.spot))
        }
        Err(fail) => refuse_mixin(w, read.spot, &fail),
    }
}

/// Reads the text of the mixin at a place as statements (D specification, "Statements", "Mixin
/// Statement"). It is refused as by `mixed_declarations`, with a list of statements in place of
/// one of declarations.
pub fn mixed_statements(
    w: &mut World,
    texts: &mut Texts,
    text: &[u8],
    at: Where,
) -> Result<(List, SpotId), Stop> {
    let read = read_mixin(w, texts, text, at)?;
    let alloc = w.alloc;
    let start = origin(alloc);
    match parse_statements(alloc, &ExprReader { alloc }, &read.tokens, &start) {
        Ok(tree) => {
            let list = flat_statements(&tree, &mut w.pool.syntax, &mut w.pool.names)?;
            Ok((list, read.spot))
        }
        Err(fail) => refuse_mixin(w, read.spot, &fail),
    }
}

/// Reads the text of the mixin at a place as an expression (D specification, "Expressions", "Mixin
/// Expressions"). It is refused as by `mixed_declarations`, but that the last rule 21 is at the
/// first token, or at offset 0 where there is none.
pub fn mixed_expression(
    w: &mut World,
    texts: &mut Texts,
    text: &[u8],
    at: Where,
) -> Result<(NodeId, SpotId), Stop> {
    let read = read_mixin(w, texts, text, at)?;
    let alloc = w.alloc;
    let start = origin(alloc);
    match parse_expression(alloc, &read.tokens, &start) {
        Ok(tree) => {
            let node = flat_expression(&tree, &mut w.pool.syntax, &mut w.pool.names)?;
            Ok((node, read.spot))
        }
        Err(fail) => refuse_mixin(w, read.spot, &fail),
    }
}

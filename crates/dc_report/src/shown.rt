// Places in print.
use crate::number::append_number;
use crate::point::append_point;
use dc_model::World;
use dc_syntax::Want;
use dc_text::Texts;
use dc_tree::{PlaceId, PlaceStep};
use dc_types::Text;

/// A place and all places before it, from the module on.
fn chain(w: &World, place: PlaceId) -> Result<Vec<PlaceId>, Want> {
    let mut all = Vec::new(w.alloc);
    let mut at = place;
    for _ in 0..u64::MAX {
        all.push(at)?;
        if let PlaceStep::Module(_) = w.pool.places.step(at) {
            break;
        }
        at = w.pool.places.before(at);
    }
    all.reverse();
    Ok(all)
}

/// Appends an offset as line and column in the text at the place before: of a module, or of a
/// mixin.
fn append_offset(
    line: &mut Text,
    w: &World,
    texts: &Texts,
    before: PlaceId,
    offset: u32,
) -> Result<(), Want> {
    match w.pool.places.step(before) {
        PlaceStep::Module(_) => line.append(b":")?,
        _ => line.append(b", mixin ")?,
    }
    let text = texts.text(&w.pool.names, before);
    append_point(line, w.alloc, text, offset)
}

/// Appends the last step of a place.
fn append_step(line: &mut Text, w: &World, texts: &Texts, place: PlaceId) -> Result<(), Want> {
    match w.pool.places.step(place) {
        PlaceStep::Module(name) => {
            line.append(w.pool.names.bytes(name))?;
            Ok(())
        }
        PlaceStep::At(offset) => {
            let before = w.pool.places.before(place);
            append_offset(line, w, texts, before, offset)
        }
        PlaceStep::Round(round) => {
            line.append(b", round ")?;
            append_number(line, w.alloc, u64::from(round))
        }
        PlaceStep::With(key) => {
            line.append(b", with ")?;
            line.append(w.pool.names.bytes(key))?;
            Ok(())
        }
    }
}

/// Appends `MODULE:LINE:COLUMN` and the further steps of a place, or `-` for the whole program.
pub fn append_place(line: &mut Text, w: &World, texts: &Texts, place: PlaceId) -> Result<(), Want> {
    if place == PlaceId::NOWHERE {
        line.append(b"-")?;
        return Ok(());
    }
    let steps = chain(w, place)?;
    for at in steps.as_slice() {
        append_step(line, w, texts, *at)?;
    }
    Ok(())
}

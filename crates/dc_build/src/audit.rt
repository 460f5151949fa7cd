// The values of evaluations, as lines.
use dc_demand::Engine;
use dc_model::{Answer, Ask, Question, Stop};
use dc_names::value_text;
use dc_report::append_place;
use dc_syntax::Want;
use dc_tree::{PlaceId, TypeId, ValueId};
use dc_types::Text;

/// An evaluation with its value.
#[derive(Clone, Copy)]
struct Evaluated {
    at: PlaceId,
    of: TypeId,
    value: ValueId,
}

/// The evaluation that a question asks for.
fn evaluation_of(question: Question, answer: Answer) -> Option<Evaluated> {
    match (question.ask, answer) {
        (Ask::Eval, Answer::Value(of, value)) => Some(Evaluated {
            at: question.at,
            of,
            value,
        }),
        _ => None,
    }
}

/// The line of an evaluation: its place, and the text of its value.
fn line(engine: &mut Engine, one: Evaluated) -> Result<Vec<u8>, Want> {
    let value = match value_text(&mut engine.world, one.of, one.value) {
        Ok(value) => value,
        Err(Stop::Failed(_) | Stop::Need(_, _) | Stop::NoMemory) => return Err(Want),
    };
    let mut text = Text::new(engine.world.alloc);
    append_place(&mut text, &engine.world, &engine.mixed.texts, one.at)?;
    text.append(b": ")?;
    text.append(value.as_slice())?;
    text.append(b"\n")?;
    Ok(text.into_vec())
}

/// A line for each evaluation of an elaborated program, in the order of their bytes.
pub(crate) fn audit(engine: &mut Engine) -> Result<Text, Want> {
    let alloc = engine.world.alloc;
    let mut all = Vec::new(alloc);
    for (question, answer) in &engine.world.answers {
        // what is declared without a value has the start value of its type at its own place
        if engine.world.placed.contains_key(&question.at) {
            continue;
        }
        if let Some(one) = evaluation_of(*question, *answer) {
            all.push(one)?;
        }
    }
    let mut lines = Vec::new(alloc);
    for one in all.as_slice() {
        lines.push(line(engine, *one)?)?;
    }
    lines.sort()?;
    let mut text = Text::new(alloc);
    for line in lines.as_slice() {
        text.append(line.as_slice())?;
    }
    Ok(text)
}

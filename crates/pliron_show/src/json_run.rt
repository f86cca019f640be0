//! Runs as objects of JSON.
use crate::shown::Runnable;
use pliron_evaluator::evaluator::{Datum, NotedMove, Sight};
use pliron_show_places::{JsonObject, Source, TextPart, push_bytes, push_json_string};
use std::alloc::{AllocError, Global};

// Writes a datum: a number, a string, `null` for the empty one, or an array of two.
fn write_plain(text: &mut String, datum: &Datum) -> Result<(), AllocError> {
    match datum {
        Datum::Empty => text.push_str("null"),
        Datum::Number(number) => {
            let number = *number;
            write!(text, "{number}")
        }
        Datum::Text(word) => push_json_string(text, word.as_str()),
        Datum::Join(first, others) => {
            text.push_str("[")?;
            write_plain(text, first)?;
            text.push_str(",")?;
            write_plain(text, others)?;
            text.push_str("]")
        }
    }
}

// Writes a datum as the notation has it in JSON.
fn write_datum<N: Runnable>(
    alloc: Global,
    text: &mut String,
    sheet: &N::Sheet,
    datum: &Datum,
) -> Result<(), AllocError> {
    if !N::has_worded_data() {
        return write_plain(text, datum);
    }
    let mut words = String::new(alloc);
    N::write_datum(alloc, &mut words, sheet, datum)?;
    push_json_string(text, words.as_str())
}

// Writes an effect as the notation has it in JSON.
fn write_effect<N: Runnable>(
    alloc: Global,
    text: &mut String,
    sheet: &N::Sheet,
    effect: &Datum,
) -> Result<(), AllocError> {
    if !N::has_worded_data() {
        return write_plain(text, effect);
    }
    let mut words = String::new(alloc);
    N::write_effect(alloc, &mut words, sheet, effect)?;
    push_json_string(text, words.as_str())
}

// An array of data.
fn array_of<N: Runnable>(
    alloc: Global,
    sheet: &N::Sheet,
    data: &[Datum],
) -> Result<String, AllocError> {
    let mut text = String::from_str(alloc, "[")?;
    for i in 0..data.len() {
        text.push_str(if i > 0 { "," } else { "" })?;
        write_datum::<N>(alloc, &mut text, sheet, &data[i])?;
    }
    text.push_str("]")?;
    Ok(text)
}

/// Writes an object for each effect, of which the latest is first, as they came. Errors: allocation failure. Cost:
/// linear in them.
pub(crate) fn write_effect_objects<N: Runnable>(
    alloc: Global,
    text: &mut String,
    sheet: &N::Sheet,
    effects: &[Datum],
) -> Result<(), AllocError> {
    for effect in effects.iter().rev() {
        let mut datum = String::new(alloc);
        write_effect::<N>(alloc, &mut datum, sheet, effect)?;
        let mut object = JsonObject::new(alloc);
        object.value("effect", datum.as_str())?;
        object.write_line(text)?;
    }
    Ok(())
}

/// An object of a move: where its operation is, how it is written, and the data that it takes. Errors: allocation
/// failure. Cost: linear in what is written.
pub(crate) fn move_object<N: Runnable>(
    alloc: Global,
    source: &Source,
    sheet: &N::Sheet,
    place: Option<TextPart>,
    noted: &NotedMove,
) -> Result<JsonObject, AllocError> {
    let mut object = JsonObject::new(alloc);
    if let Some(place) = place {
        let mut words = String::new(alloc);
        push_bytes(&mut words, source.text, place.start, place.len)?;
        object.part(source.text, place)?;
        object.words("operation", words.as_str())?;
    }
    if let Some(input) = &noted.input {
        object.value("takes", array_of::<N>(alloc, sheet, input)?.as_str())?;
    }
    Ok(object)
}

/// What is seen of a run that made so many moves: an object for each effect, as they came, and one that says how it
/// ended. Errors: allocation failure. Cost: linear in what is seen.
pub(crate) fn json_text<N: Runnable>(
    alloc: Global,
    sheet: &N::Sheet,
    sight: &Sight,
    moves: usize,
) -> Result<String, AllocError> {
    let mut text = String::new(alloc);
    let mut object = JsonObject::new(alloc);
    match sight {
        Sight::Ended(values, effects) => {
            write_effect_objects::<N>(alloc, &mut text, sheet, effects)?;
            object.words("end", "ended")?;
            object.value("values", array_of::<N>(alloc, sheet, values)?.as_str())?;
        }
        Sight::Trapped(effects) => {
            write_effect_objects::<N>(alloc, &mut text, sheet, effects)?;
            object.words("end", "trapped")?;
        }
        Sight::Reached(effects) => {
            write_effect_objects::<N>(alloc, &mut text, sheet, effects)?;
            object.words("end", "cut off")?;
        }
    }
    object.number("transitions", moves)?;
    object.write_line(&mut text)?;
    Ok(text)
}

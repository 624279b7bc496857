// The leaves over texts and cells.
use crate::answers::Answer;
use crate::arguments::Arguments;
use fields::Malformed;
use readings::key::{conditional_value_key, same_key};
use readings::number::numeric_cell_value;
use readings::text::{is_ascii, text_at};

pub(crate) fn answer_split(arguments: &mut Arguments) -> Result<Answer<'static>, Malformed> {
    let span = arguments.text(b'\n')?;
    let text = text_at(arguments.pool(), span);
    if !is_ascii(text) {
        return Err(arguments.malformed());
    }
    match split::split(text) {
        Some(place) => Ok(Answer::Place(place)),
        None => Ok(Answer::Nothing),
    }
}

pub(crate) fn answer_number(arguments: &mut Arguments) -> Result<Answer<'static>, Malformed> {
    let cell = arguments.cell(b'\n')?;
    match numeric_cell_value(cell) {
        Some(x) => Ok(Answer::Float(x)),
        None => Ok(Answer::Nothing),
    }
}

pub(crate) fn answer_key(arguments: &mut Arguments) -> Result<Answer<'static>, Malformed> {
    let first = arguments.cell(b' ')?;
    let second = arguments.cell(b'\n')?;
    let pool = arguments.pool();
    let a = conditional_value_key(first, pool);
    let b = conditional_value_key(second, pool);
    if a.is_none() || b.is_none() {
        return Ok(Answer::Nothing);
    }
    Ok(Answer::from(same_key(a, b, pool)))
}

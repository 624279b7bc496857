// The leaves over numbers.
use crate::answers::Answer;
use crate::arguments::Arguments;
use fields::Malformed;

// ---- ratio, channel, axis

pub(crate) fn answer_ratio(arguments: &mut Arguments) -> Result<Answer<'static>, Malformed> {
    let value = arguments.float(b' ')?;
    let minimum = arguments.float(b' ')?;
    let maximum = arguments.float(b'\n')?;
    let ppm = ratio::normalized_ppm(value, minimum, maximum);
    Ok(Answer::Number(u64::from(ppm)))
}

pub(crate) fn answer_normalized(arguments: &mut Arguments) -> Result<Answer<'static>, Malformed> {
    let value = arguments.float(b' ')?;
    let minimum = arguments.float(b' ')?;
    let maximum = arguments.float(b'\n')?;
    Ok(Answer::Ratio(ratio::normalized_ratio(value, minimum, maximum)))
}

pub(crate) fn answer_channel(arguments: &mut Arguments) -> Result<Answer<'static>, Malformed> {
    let start = arguments.number(b' ')?;
    let end = arguments.number(b' ')?;
    let ppm = arguments.number(b'\n')?;
    Ok(Answer::Number(u64::from(ratio::channel(start, end, ppm))))
}

pub(crate) fn answer_axis(arguments: &mut Arguments) -> Result<Answer<'static>, Malformed> {
    let target = arguments.number(b' ')?;
    let reference = arguments.number(b' ')?;
    let origin = arguments.number(b' ')?;
    let maximum = arguments.number(b'\n')?;
    match references::offset_a1_axis(target, reference, origin, maximum) {
        Some(place) => Ok(Answer::Number(u64::from(place))),
        None => Ok(Answer::Nothing),
    }
}

// ---- comparisons

// `-` for a second number that is missing.
fn second_number(arguments: &mut Arguments) -> Result<Option<f64>, Malformed> {
    if let Ok(()) = arguments.word(b"-\n") {
        return Ok(None);
    }
    Ok(Some(arguments.float(b'\n')?))
}

pub(crate) fn answer_cell_is(arguments: &mut Arguments) -> Result<Answer<'static>, Malformed> {
    let op = arguments.number(b' ')?;
    let value = arguments.float(b' ')?;
    let first = arguments.float(b' ')?;
    let second = second_number(arguments)?;
    let holds = comparison::compare_conditional(value, op, first, second);
    Ok(Answer::from(holds))
}

pub(crate) fn answer_expression(arguments: &mut Arguments) -> Result<Answer<'static>, Malformed> {
    let op = arguments.number(b' ')?;
    let left = arguments.float(b' ')?;
    let right = arguments.float(b'\n')?;
    Ok(Answer::from(comparison::compare(op, left, right)))
}

// ---- midpoint

pub(crate) fn answer_midpoint(
    arguments: &mut Arguments,
    values: &mut [f64],
) -> Result<Answer<'static>, Malformed> {
    Ok(Answer::Float(values::midpoint(arguments.list(values)?)))
}

// References as they are typed, read and written. What is lent for a name or a text is filled first, so that it shows what is left there.
use crate::answers::{Answer, Reference};
use crate::arguments::Arguments;
use a1reader::{ReadError, parse_a1_reference};
use a1writer::{WriteError, write_a1_reference};
use fields::Malformed;
use model::A1Reference;
use put::Cursor;
use readings::text::text_at;

const FILLED: u8 = 165;

// ---- what is lent

// The first so many bytes; all where there are fewer.
fn front(lent: &mut [u8], length: usize) -> &mut [u8] {
    let length = length.min(lent.len());
    &mut lent[..length]
}

fn is_zero_from(lent: &[u8], from: usize) -> bool {
    let from = from.min(lent.len());
    lent[from..].iter().all(|b| *b == 0)
}

fn name_length(reference: A1Reference) -> usize {
    reference.sheet.map_or(0, |name| name.len as usize)
}

// ---- reading and writing

// The reference of an operand's bytes, unless a lent byte behind its name is not 0.
fn read_into<'a>(typed: &[u8], lent: &'a mut [u8]) -> Answer<'a> {
    lent.fill(FILLED);
    let read = parse_a1_reference(typed, lent);
    if !is_zero_from(lent, read.map_or(0, name_length)) {
        return Answer::NotZero;
    }
    match read {
        Ok(reference) => Answer::Reference(Reference {
            reference,
            names: lent,
        }),
        Err(ReadError::NoReference) => Answer::Number(14),
        Err(ReadError::NameTooLong) => Answer::Number(15),
    }
}

// The text of a reference, unless a lent byte behind it is not 0.
fn write_into<'a>(reference: A1Reference, names: &[u8], lent: &'a mut [u8]) -> Answer<'a> {
    lent.fill(FILLED);
    let written = write_a1_reference(reference, names, lent);
    if !is_zero_from(lent, written.unwrap_or(0)) {
        return Answer::NotZero;
    }
    match written {
        Ok(length) => Answer::Text(front(lent, length)),
        Err(WriteError::NoReference) => Answer::Number(14),
        Err(WriteError::TextTooLong) => Answer::Number(15),
    }
}

pub(crate) fn answer_reads<'a>(
    arguments: &mut Arguments,
    lent: &'a mut [u8],
) -> Result<Answer<'a>, Malformed> {
    let space: u16 = arguments.number(b' ')?;
    let span = arguments.text(b'\n')?;
    let typed = text_at(arguments.pool(), span);
    let lent = front(lent, usize::from(space));
    Ok(read_into(typed, lent))
}

pub(crate) fn answer_writes<'a>(
    arguments: &mut Arguments,
    lent: &'a mut [u8],
) -> Result<Answer<'a>, Malformed> {
    let space: u16 = arguments.number(b' ')?;
    let reference = arguments.reference(b'\n')?;
    let lent = front(lent, usize::from(space));
    Ok(write_into(reference, arguments.pool(), lent))
}

// ---- both

// The reference and its text, or a number, as a line says them: how many bytes. A name has at most 255 bytes, a text at most 525.
fn put_forms(forms: &mut [u8], typed: &[u8]) -> usize {
    let mut name = [FILLED; 255];
    let mut text = [FILLED; 525];
    let mut out = Cursor {
        bytes: forms,
        at: 0,
    };
    let read = read_into(typed, &mut name);
    let Answer::Reference(reference) = read else {
        read.put(&mut out);
        return out.at;
    };
    reference.put(&mut out, b' ');
    let written = write_into(reference.reference, reference.names, &mut text);
    written.put(&mut out);
    out.at
}

// Whether the rest of the line is the forms and their end.
pub(crate) fn answer_typed(
    arguments: &mut Arguments,
    lent: &mut [u8],
) -> Result<Answer<'static>, Malformed> {
    let span = arguments.text(b' ')?;
    let length = put_forms(lent, text_at(arguments.pool(), span));
    if let Ok(()) = arguments.word(front(lent, length)) {
        return Ok(Answer::from(true));
    }
    arguments.pass_line();
    Ok(Answer::from(false))
}

// Writes a cell reference as a person types it (document 02, T-04).
#![tactic(auto)]

ghost use Rattle.std.specs.Prelude.{◌≡◌, not, ◌&&◌, length};
ghost use Rattle.std.proofs.Math.Option.{some};
ghost use Rattle.model.specs.Job.{bad_name};
ghost use Rattle.model.specs.Readings.{every};
ghost use Rattle.put.specs.Put.{Puts, Ready};
ghost use Rattle.jobtext.specs.Said.{name_said, reference_said};
ghost use Rattle.a1text.specs.Bytes.{is_printable, is_word_byte};
ghost use Rattle.a1text.specs.Names.{is_name, is_bare, doubled, name_text};
ghost use Rattle.a1text.specs.Columns.{mark_text, column_text};
ghost use Rattle.a1text.specs.A1.{name_spelled, is_named, a1, writable, operand_written};
ghost use Rattle.a1writer.specs.Answers.{write_answer, write_bytes};

use a1text::{is_letter, is_printable, is_word_byte};
use checks::names::outside;
use model::{A1Reference, Span};
use put::Cursor;
use readings::text::text_at;

const MAX_WORKSHEET_ROW: u32 = 1_048_575;

const MAX_WORKSHEET_COLUMN: u16 = 16_383;

// Why a reference is not written.
#[derive(Clone, Copy)]
pub enum WriteError {
    // 14
    NoReference,
    // 15
    TextTooLong,
}

// ---- names

fn all_printable(name: &[u8]) -> bool
    ensures { result ≡ every is_printable name.now }
{
    name.iter().all(|b| is_printable(*b))
}

fn all_word_bytes(name: &[u8]) -> bool
    ensures { result ≡ every is_word_byte name.now }
{
    name.iter().all(|b| is_word_byte(*b))
}

// 1 to 255 bytes, none of them a control byte.
#[tactic(auto, unfolding(a1text::specs::Names::is_name))]
fn is_name(name: &[u8]) -> bool
    ensures { result ≡ is_name name.now }
{
    !name.is_empty() && name.len() <= 255 && all_printable(name)
}

// Whether a name needs no quotes.
#[tactic(auto, unfolding(a1text::specs::Names::is_bare, a1text::specs::Bytes::begins_with))]
fn is_bare(name: &[u8]) -> bool
    ensures { result ≡ is_bare name.now }
{
    match name {
        [first, ..] => is_letter(*first) && all_word_bytes(name),
        [] => false,
    }
}

// Each quote twice.
fn put_doubled(text: &mut Cursor<'_>, name: &[u8])
    requires { Ready text.old.bytes.now text.old.at }
    ensures { Puts text.old (doubled name.now) text.new }
{
    for &b in name {
        let quote = b == b'\'';
        if quote {
            text.put_byte(b);
        }
        text.put_byte(b);
    }
}

// A name and the exclamation mark behind it.
fn put_name(text: &mut Cursor<'_>, name: &[u8])
    ensures { Puts text.old (name_text (name_spelled (some name.now))) text.new }
{
    if is_bare(name) {
        text.put_bytes(name);
        text.put_byte(b'!')
    } else {
        text.put_byte(b'\'');
        put_doubled(text, name);
        text.put_bytes(b"'!")
    }
}

// ---- the cell

#[tactic(auto, unfolding(grammar::specs::Parts::bytes, a1text::specs::Columns::mark_text))]
fn put_mark(text: &mut Cursor<'_>, absolute: bool)
    ensures { Puts text.old (mark_text absolute) text.new }
{
    if absolute {
        text.put_byte(b'$')
    } else {
        text.put_bytes(b"")
    }
}

// One to three capital letters.
fn put_column(text: &mut Cursor<'_>, col: u16)
    ensures { Puts text.old (column_text col) text.new }
{
    if col < 26 {
        text.put_byte(b'A' + col as u8);
        return;
    }
    let last = b'A' + (col % 26) as u8;
    let ahead = col / 26 - 1;
    if ahead < 26 {
        text.put_byte(b'A' + ahead as u8);
        text.put_byte(last);
        return;
    }
    text.put_byte(b'A' - 1 + (ahead / 26) as u8);
    text.put_byte(b'A' + (ahead % 26) as u8);
    text.put_byte(last);
}

// ---- the reference

#[tactic(auto, unfolding(a1text::specs::Names::name_text, a1text::specs::A1::name_spelled, jobtext::specs::Said::name_said))]
fn put_sheet(text: &mut Cursor<'_>, pool: &[u8], sheet: Option<Span>)
    ensures { Puts text.old (name_text (name_spelled (name_said pool.now sheet))) text.new }
{
    match sheet {
        None => text.put_bytes(b""),
        Some(span) => put_name(text, text_at(pool, span)),
    }
}

fn put_reference(text: &mut Cursor<'_>, pool: &[u8], reference: A1Reference)
    ensures { Puts text.old (a1.text (reference_said pool.now reference)) text.new }
{
    put_sheet(text, pool, reference.sheet);
    put_mark(text, reference.col_absolute);
    put_column(text, reference.col);
    put_mark(text, reference.row_absolute);
    text.put_decimal(reference.row as u64 + 1);
}

// No name, or one that lies in the pool and can be typed.
#[tactic(auto, unfolding(model::specs::Job::bad_name, a1text::specs::A1::is_named, jobtext::specs::Said::name_said))]
fn can_name(pool: &[u8], sheet: Option<Span>) -> bool
    ensures { result ≡ (not (bad_name pool.now sheet) && is_named (name_said pool.now sheet)) }
{
    match sheet {
        None => true,
        Some(span) => !outside(pool, span) && is_name(text_at(pool, span)),
    }
}

#[tactic(auto, unfolding(a1text::specs::A1::writable, a1text::specs::A1::has_text, jobtext::specs::Said::reference_said))]
fn can_write(pool: &[u8], reference: A1Reference) -> bool
    ensures { result ≡ writable pool.now reference }
{
    reference.row <= MAX_WORKSHEET_ROW
        && reference.col <= MAX_WORKSHEET_COLUMN
        && can_name(pool, reference.sheet)
}

// The text of a reference whose name, if it has one, lies in a pool.
pub fn write_a1_reference(
    reference: A1Reference,
    pool: &[u8],
    text: &mut [u8],
) -> Result<usize, WriteError>
    ensures answer { result ≡ write_answer (operand_written pool.now reference) (length text.old) }
    ensures text { text.new ≡ write_bytes (operand_written pool.now reference) (length text.old) }
{
    if !can_write(pool, reference) {
        text.fill(0);
        return Err(WriteError::NoReference);
    }
    let mut cursor = Cursor { bytes: text, at: 0 };
    put_reference(&mut cursor, pool, reference);
    let fits = cursor.at <= cursor.bytes.len();
    let length = cursor.keep();
    if fits {
        Ok(length)
    } else {
        Err(WriteError::TextTooLong)
    }
}

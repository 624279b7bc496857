// Reads an operand that is typed as a cell reference (document 02, T-04).
#![tactic(auto)]

ghost use Rattle.std.specs.Prelude.{◌≤◌, ◌≡◌, true, [], Some, length, drop};
ghost use Rattle.std.proofs.lemmas.List.Edits.{sets};
ghost use Rattle.a1text.specs.Bytes.{is_letter, is_word_byte, taken};
ghost use Rattle.a1text.specs.Names.{unquoted_from, quoted_p, bare_p, name_p};
ghost use Rattle.a1text.specs.Columns.{mark_p};
ghost use Rattle.a1text.specs.A1.{operand_read};
ghost use Rattle.a1reader.specs.Answers.{read_answer, read_bytes};
ghost use Rattle.a1reader.specs.Parts.{mark_of, column_of, cell, cell_of, between_of, name_of, parts_of, name_from, word_in, sheet_of};

use a1text::{is_letter, is_printable, is_word_byte, letter_number};
use fields::{Field, digits};
use model::{A1Reference, Span};
use put::clear_from;
use split::formula;

// The most bytes of a name.
const MAX_NAME: usize = 255;

const MAX_COLUMNS: u64 = 16384;

const MAX_ROWS: u64 = 1048576;

// Why a text is not read.
#[derive(Clone, Copy)]
pub enum ReadError {
    // 14
    NoReference,
    // 15
    NameTooLong,
}

// ---- the cell

#[derive(Clone, Copy)]
struct Mark {
    absolute: bool,
    next: usize,
}

// `$`, or nothing.
fn mark_at(s: &[u8], at: usize) -> Mark
    ensures { result ≡ mark_of (mark_p s.now at) }
{
    if at < s.len() && s[at] == b'$' {
        return Mark {
            absolute: true,
            next: at + 1,
        };
    }
    Mark {
        absolute: false,
        next: at,
    }
}

// Letters that end at a place, and their number, which is 0 without any.
fn column_found(number: u64, next: usize) -> Option<Field>
    requires { number ≤ 16384 }
    ensures { result ≡ column_of number next [] }
{
    if number == 0 {
        return None;
    }
    Some(Field {
        value: number,
        next,
    })
}

// The number of the column whose letters stand at a place.
fn column(s: &[u8], at: usize) -> Option<Field>
    ensures { result ≡ column_of 0 at (taken is_letter (drop at s.now)) }
{
    let mut number: u64 = 0;
    for q in at..s.len() {
        let b = s[q];
        if !is_letter(b) {
            return column_found(number, q);
        }
        number = number * 26 + letter_number(b);
        if MAX_COLUMNS < number {
            return None;
        }
    }
    column_found(number, s.len())
}

#[derive(Clone, Copy)]
struct CellPart {
    row: u32,
    col: u16,
    row_absolute: bool,
    col_absolute: bool,
}

// The cell that a text names from a place up to its end.
fn cell_part(s: &[u8], at: usize) -> Option<CellPart>
    ensures { result ≡ cell_of (length s.now) (cell.parse s.now at) }
{
    let left = mark_at(s, at);
    let col = column(s, left.next)?;
    let right = mark_at(s, col.next);
    let row = digits(s, right.next, MAX_ROWS).ok()?;
    if row.value == 0 || row.next != s.len() {
        return None;
    }
    Some(CellPart {
        row: (row.value - 1) as u32,
        col: (col.value - 1) as u16,
        row_absolute: right.absolute,
        col_absolute: left.absolute,
    })
}

// ---- the name

// What stands between quotes: how many bytes the name has, and the place after the second quote.
#[derive(Clone, Copy)]
struct Between {
    length: usize,
    next: usize,
}

// Behind the first quote. Of two quotes inside the second is passed over. None where the quotes are not closed, or where a control byte
// stands between them.
fn between_quotes(s: &[u8], at: usize) -> Option<Between>
    ensures { result ≡ between_of 0 true (unquoted_from at (drop at s.now)) }
{
    let mut printable = true;
    let mut length = 0;
    let mut q = at;
    // a `while`: two quotes are passed in one turn
    while q < s.len() {
        let b = s[q];
        q += 1;
        if b == b'\'' {
            if lent::at(s, q, 0) != b'\'' {
                return printable.then_some(Between { length, next: q });
            }
            q += 1;
        }
        printable = printable && is_printable(b);
        length += 1;
    }
    None
}

// The bytes of a name: where the first stands, and how many there are.
#[derive(Clone, Copy)]
struct Word {
    first: usize,
    length: usize,
}

// A sheet's name in front of a cell, or none, and where the cell begins.
#[derive(Clone, Copy)]
struct NamePart {
    name: Option<Word>,
    next: usize,
}

// Where the bytes of a word end that stand at the start.
fn word_end(s: &[u8]) -> usize
    ensures { result ≡ length (taken is_word_byte s.now) }
{
    for (q, b) in s.iter().enumerate() {
        if !is_word_byte(*b) {
            return q;
        }
    }
    s.len()
}

// A name between quotes, at the start of a text that begins with one.
fn quoted_part(s: &[u8]) -> Option<NamePart>
    ensures { result ≡ name_of (quoted_p s.now 1) }
{
    let found = between_quotes(s, 1)?;
    let length = found.length;
    if length == 0 || MAX_NAME < length || lent::at(s, found.next, 0) != b'!' {
        return None;
    }
    Some(NamePart {
        name: Some(Word { first: 1, length }),
        next: found.next + 1,
    })
}

// A name without quotes, or none, at the start of a text.
fn bare_part(s: &[u8]) -> Option<NamePart>
    ensures { result ≡ name_of (bare_p s.now 0) }
{
    let length = word_end(s);
    if lent::at(s, length, 0) != b'!' {
        return Some(NamePart {
            name: None,
            next: 0,
        });
    }
    if !is_letter(lent::at(s, 0, 0)) || MAX_NAME < length {
        return None;
    }
    Some(NamePart {
        name: Some(Word { first: 0, length }),
        next: length + 1,
    })
}

fn name_part(s: &[u8]) -> Option<NamePart>
    ensures { result ≡ name_of (name_p s.now 0) }
{
    if lent::at(s, 0, 0) == b'\'' {
        return quoted_part(s);
    }
    bare_part(s)
}

// Stores so many bytes of a name that stands from a place on, of which a quote stands twice.
fn store_name(s: &[u8], first: usize, number: usize, name: &mut [u8])
    requires { (number ≤ length name.old) × (number ≤ 255) × (first ≤ 1) }
    ensures { name.new ≡ sets name.old 0 (name_from number s.now first) }
{
    let mut q = first;
    for i in 0..number {
        let b = lent::at(s, q, 0);
        name[i] = b;
        q += 1;
        if b == b'\'' {
            q += 1;
        }
    }
}

// ---- the reference

// A name, if there is one, and the cell behind it.
#[derive(Clone, Copy)]
struct NamedCell {
    sheet: NamePart,
    cell: CellPart,
}

fn named_cell(s: &[u8]) -> Option<NamedCell>
    ensures { result ≡ parts_of s.now (name_of (name_p s.now 0)) }
{
    let sheet = name_part(s)?;
    let cell = cell_part(s, sheet.next)?;
    Some(NamedCell { sheet, cell })
}

// The name as it is stored, from the first lent byte on.
fn sheet_name(part: NamePart) -> Option<Span>
    requires { (word_in part).length ≤ 255 }
    ensures { result ≡ sheet_of part }
{
    let word = part.name?;
    Some(Span {
        at: 0,
        len: word.length as u32,
    })
}

// In place of parse_a1_reference of the original's crate, which is not shown. What the split drops is dropped first.
#[tactic(auto, using(crate::proofs::References::none_answer, crate::proofs::References::none_bytes))]
pub fn parse_a1_reference(bytes: &[u8], name: &mut [u8]) -> Result<A1Reference, ReadError>
    ensures answer { result ≡ read_answer (operand_read bytes.now) (length name.old) }
    ensures name { name.new ≡ read_bytes (operand_read bytes.now) (length name.old) }
{
    let text = formula(bytes);
    let Some(NamedCell { sheet, cell }) = named_cell(text) else {
        clear_from(name, 0);
        return Err(ReadError::NoReference);
    };
    let word = sheet.name.unwrap_or(Word {
        first: 0,
        length: 0,
    });
    if name.len() < word.length {
        clear_from(name, 0);
        return Err(ReadError::NameTooLong);
    }
    store_name(text, word.first, word.length, name);
    clear_from(name, word.length);
    Ok(A1Reference {
        sheet: sheet_name(sheet),
        row: cell.row,
        col: cell.col,
        row_absolute: cell.row_absolute,
        col_absolute: cell.col_absolute,
    })
}

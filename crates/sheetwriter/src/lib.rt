// The first two lines and the sections of cells and regions of a job text, from the lent columns and the pool.
#![tactic(auto)]

ghost use Rattle.std.specs.Prelude.{[], ◌∷◌, ◌++◌, length};
ghost use Rattle.model.specs.Sheet.{text_at, regions_from};
ghost use Rattle.grammar.specs.Parts.{times_text};
ghost use Rattle.grammar.specs.Numbers.{hex_digits};
ghost use Rattle.jobtext.specs.Written.{Value};
ghost use Rattle.jobtext.specs.Fields.{value as valueGram};
ghost use Rattle.jobtext.specs.Text.{cell_names, region_names, head, cell_line, region_line};
ghost use Rattle.jobtext.specs.Said.{value_said, cell_said, cells_said};
ghost use Rattle.model.specs.Lent.{cells_lent};
ghost use Rattle.put.specs.Put.{Puts, Ready};
ghost use Rattle.sheetwriter.specs.Lines.{head_with, coordinate_in};

use lent::at;
use model::{LentCells, LentRegions, Span};
use put::Cursor;
use readings::text::text_at;

// ---- the first two lines

// The second line: the limit, the start, the numbers of cells, regions and rules, and the sheet's name.
pub fn put_head(
    text: &mut Cursor<'_>,
    limit: u64,
    start: u64,
    cells: u64,
    regions: u64,
    rules: u64,
    pool: &[u8],
    name: Span,
)
    ensures { Puts text.old (head.text (head_with limit start cells regions rules (text_at pool.now name))) text.new }
{
    text.put_bytes(b"limit start cells regions rules name\n");
    text.put_number(limit, b' ');
    text.put_number(start, b' ');
    text.put_number(cells, b' ');
    text.put_number(regions, b' ');
    text.put_number(rules, b' ');
    text.put_text(text_at(pool, name), b'\n');
}

// ---- cells

// A letter and the 64 bits of a number.
fn put_bits(text: &mut Cursor<'_>, letter: u8, bits: u64)
    ensures { Puts text.old (letter ∷ (hex_digits 16 bits ++ (10 ∷ []))) text.new }
{
    text.put_byte(letter);
    text.put_hex(16, bits);
    text.put_byte(b'\n');
}

#[tactic(auto, unfolding(grammar::specs::Parts::bytes, jobtext::specs::Fields::value))]
fn put_bool(text: &mut Cursor<'_>, b: bool)
    ensures { Puts text.old (valueGram.text (Value.bool b)) text.new }
{
    if b {
        text.put_bytes(b"b1\n")
    } else {
        text.put_bytes(b"b0\n")
    }
}

// By the number of the kind; the fields that the kind does not have are not looked at.
#[tactic(auto, unfolding(grammar::specs::Parts::bytes, jobtext::specs::Fields::value, jobtext::specs::Said::value_said))]
fn put_value(text: &mut Cursor<'_>, pool: &[u8], kind: u8, bits: u64, span: Span)
    ensures { Puts text.old (valueGram.text (value_said pool.now kind bits span.at span.len)) text.new }
{
    match kind {
        1 => put_bits(text, b'n', bits),
        2 => put_bits(text, b'd', bits),
        3 => text.put_text(text_at(pool, span), b'\n'),
        4 => put_bool(text, span.len == 1),
        _ => text.put_bytes(b"e\n"),
    }
}

// The line of the cell at an index.
fn put_cell(text: &mut Cursor<'_>, i: usize, cells: LentCells<'_>, pool: &[u8])
    ensures { Puts text.old (cell_line.text (cell_said pool.now (cells_lent cells.entry) i)) text.new }
{
    text.put_number(at(cells.rows, i, 0) as u64, b' ');
    text.put_number(at(cells.cols, i, 0) as u64, b' ');
    text.put_number(at(cells.wraps, i, 0) as u64, b' ');
    let span = Span {
        at: at(cells.ats, i, 0),
        len: at(cells.lens, i, 0),
    };
    put_value(
        text,
        pool,
        at(cells.kinds, i, 0),
        at(cells.nums, i, 0),
        span,
    );
}

// The lines of the cells, as many as there are rows.
fn put_cell_lines(text: &mut Cursor<'_>, cells: LentCells<'_>, pool: &[u8])
    requires { Ready text.old.bytes.now text.old.at }
    ensures { Puts text.old (times_text cell_line.text (cells_said pool.now (cells_lent cells.entry) 0
        (length cells.entry.rows.now))) text.new }
{
    for i in 0..cells.rows.len() {
        put_cell(text, i, cells, pool);
    }
}

// The names of the cells' line, and a line for each cell.
pub fn put_cells(text: &mut Cursor<'_>, cells: LentCells<'_>, pool: &[u8])
    ensures { Puts text.old (cell_names ++ times_text cell_line.text (cells_said pool.now (cells_lent cells.entry) 0
        (length cells.entry.rows.now))) text.new }
{
    text.put_bytes(b"row col wraps value\n");
    put_cell_lines(text, cells, pool);
}

// ---- regions

// The line of the region at an index.
fn put_region(text: &mut Cursor<'_>, i: usize, regions: LentRegions<'_>)
    ensures { Puts text.old (region_line.text (coordinate_in regions.entry.rows.now regions.entry.cols.now i)) text.new }
{
    text.put_number(at(regions.rows, i, 0) as u64, b' ');
    text.put_number(at(regions.cols, i, 0) as u64, b'\n');
}

// The lines of the regions, as many as there are rows.
fn put_region_lines(text: &mut Cursor<'_>, regions: LentRegions<'_>)
    requires { Ready text.old.bytes.now text.old.at }
    ensures { Puts text.old (times_text region_line.text (regions_from regions.entry.rows.now
        regions.entry.cols.now 0 (length regions.entry.rows.now))) text.new }
{
    for i in 0..regions.rows.len() {
        put_region(text, i, regions);
    }
}

// The names of the regions' line, and a line for each region.
pub fn put_regions(text: &mut Cursor<'_>, regions: LentRegions<'_>)
    ensures { Puts text.old (region_names ++ times_text region_line.text (regions_from regions.entry.rows.now
        regions.entry.cols.now 0 (length regions.entry.rows.now))) text.new }
{
    text.put_bytes(b"row col\n");
    put_region_lines(text, regions);
}

// What the operands of a test read as from each region in range: resolve_conditional_operand (conditional.rs). The cells rise.
ghost use Rattle.std.specs.Prelude.{ℕ, ◌≤◌, ◌<◌, ◌≡◌, true, false, ◌&&◌, List, ltb, Float, length, get_or};
ghost use Rattle.std.proofs.Math.Option.{none};
ghost use Rattle.std.specs.Float.{nan};
ghost use Rattle.model.specs.declared.ConditionalOperand.{ConditionalOperand};
ghost use Rattle.model.specs.declared.Span.{Span};
ghost use Rattle.model.specs.Sheet.{same_coordinate};
ghost use Rattle.model.specs.References.{axis, names_sheet, reference_coordinate, resolved};
ghost use Rattle.model.specs.Job.{rises, first_fall};
ghost use Rattle.cells.specs.Columns.{columns, cells_of, coordinate_at, entry_at, entry_referenced, sheet_with};
ghost use Rattle.hits.specs.Verdict.{first_operand, second_operand};
ghost use Rattle.hits.specs.Hits.{known, first_at, second_at};
ghost use Rattle.turns.specs.Bands.{BandOf};
ghost use Rattle.turns.specs.Knowing.{takes_first, takes_second, InRange};
ghost use Rattle.call.specs.Tables.{Numbered, Valued, Meant, axis_number, means_target};

use crate::Band;
use crate::numbers::{float_of, number_named};
use comparison::uses_second;
use hits::by_literals;
use model::{A1Reference, CellCoordinate, ConditionalOperand, Range, Span, Test};
use ranges::within_grid;
use readings::number::finite_reading;
use references::{conditional_reference_coordinate, names_sheet};

// ---- the cell at a coordinate

// Whether the cell at an index comes before a coordinate.
fn comes_before(rows: &[u32], cols: &[u16], i: usize, at: CellCoordinate) -> bool
    ensures { result ≡ rises (get_or rows.now i 0) (get_or cols.now i 0) at.row at.col }
{
    let row = lent::at(rows, i, 0);
    if row < at.row {
        return true;
    }
    if row > at.row {
        return false;
    }
    lent::at(cols, i, 0) < at.col
}

// Whether there is a cell at an index, and it stands in a row and a column.
fn stands_at(rows: &[u32], cols: &[u16], i: usize, row: u64, col: u64) -> bool
    requires { length rows.now ≤ length cols.now }
    ensures { result ≡ (ltb i (length rows.now)
        && same_coordinate (coordinate_at rows.now cols.now i) (record { row = row; col = col })) }
{
    if i >= rows.len() {
        return false;
    }
    let same_row = rows[i] as u64 == row;
    let same_col = cols[i] as u64 == col;
    same_row & same_col
}

// The first index whose cell does not come before a coordinate, or the number of cells: what is left is halved.
fn first_not_before(rows: &[u32], cols: &[u16], at: CellCoordinate) -> usize
    requires { first_fall rows.now cols.now ≡ none }
    ensures before { (i : ℕ) → i < result → rises (get_or rows.now i 0) (get_or cols.now i 0) at.row at.col
        ≡ true }
    ensures after { (i : ℕ) → result ≤ i → i < length rows.now → rises (get_or rows.now i 0)
        (get_or cols.now i 0) at.row at.col ≡ false }
    ensures within { result ≤ length rows.now }
{
    let mut low = 0;
    let mut high = rows.len();
    // both ends move: a search by halves over two columns, of which the library has one over a slice alone
    while low < high {
        let middle = low + (high - low) / 2;
        if comes_before(rows, cols, middle, at) {
            low = middle + 1;
            continue;
        }
        high = middle;
    }
    low
}

// The entry for a coordinate. The cell at `guess` is tried first.
fn entry_at(rows: &[u32], cols: &[u16], at: CellCoordinate, guess: usize) -> u16
    requires { (first_fall rows.now cols.now ≡ none) × (length rows.now ≤ 1024) × (length rows.now ≤ length cols.now) }
    ensures { result ≡ entry_at rows.now cols.now at }
{
    if stands_at(rows, cols, guess, at.row as u64, at.col as u64) {
        return guess as u16 + 1;
    }
    let i = first_not_before(rows, cols, at);
    if stands_at(rows, cols, i, at.row as u64, at.col as u64) {
        return i as u16 + 1;
    }
    0
}

// The same for a row and a column of any size. The cell before `next` is tried first, then the one at it.
fn entry_sought(rows: &[u32], cols: &[u16], row: u64, col: u64, next: usize) -> u16
    requires { (first_fall rows.now cols.now ≡ none) × (length rows.now ≤ 1024) × (length rows.now ≤ length cols.now) }
    ensures { result ≡ entry_at rows.now cols.now (record { row = row; col = col }) }
{
    if row > 0xffff_ffff {
        return 0;
    }
    if col > 0xffff {
        return 0;
    }
    if next > 0 {
        let before = next - 1;
        if stands_at(rows, cols, before, row, col) {
            return before as u16 + 1;
        }
    }
    let at = CellCoordinate {
        row: row as u32,
        col: col as u16,
    };
    entry_at(rows, cols, at, next)
}

// ---- the cells that a reference means

// The entry for the cell that a reference means from a target.
fn entry_referenced(
    reference: A1Reference,
    range: Range,
    target: CellCoordinate,
    rows: &[u32],
    cols: &[u16],
    pool: &[u8],
    sheet: Span,
    guess: usize,
) -> u16
    requires { (first_fall rows.now cols.now ≡ none) × (length rows.now ≤ 1024) × (length rows.now ≤ length cols.now) }
    ensures { result ≡ entry_referenced rows.now cols.now (reference_coordinate pool.now sheet range target
        reference) }
{
    match conditional_reference_coordinate(reference, range, target, pool, sheet) {
        Some(at) => entry_at(rows, cols, at, guess),
        None => 0,
    }
}

// Whether a reference means the target itself, from each target in range.
fn means_target(reference: A1Reference, range: Range) -> bool
    ensures { result ≡ means_target reference range }
{
    if reference.row_absolute | reference.col_absolute {
        return false;
    }
    if reference.row != range.top {
        return false;
    }
    if reference.col != range.left {
        return false;
    }
    within_grid(range)
}

// The row or the column that a reference means from a target that is not before the origin. Past the last one it is a number that no row
// and no column has.
fn aimed(absolute: bool, target: u32, origin: u32, reference: u32, most: u32) -> u64
    requires { origin ≤ target }
    ensures { result ≡ axis_number (axis absolute target reference origin most) }
{
    if absolute {
        return reference as u64;
    }
    let at = (target - origin) as u64 + reference as u64;
    if at <= most as u64 {
        return at;
    }
    4_294_967_296
}

// ---- a column of what an operand reads as

// What a reference to this sheet reads as from the regions in range. What one region means mostly stands behind what the region before it
// means: that cell is looked at first.
fn find_referenced(
    reference: A1Reference,
    range: Range,
    band: Band,
    rows: &[u32],
    cols: &[u16],
    floats: &[f64],
    region_rows: &[u32],
    region_cols: &[u16],
    column: &mut [f64],
)
    requires cols_value { (first_fall rows.now cols.now ≡ none) × (length rows.now ≤ 1024) × (length rows.now ≡ length floats.now)
        × (length rows.now ≤ length cols.now) }
    requires band_of { BandOf range region_rows.now band.from band.to × (length region_rows.now ≤ length region_cols.now)
        × (length region_rows.now ≤ length column.old) }
    ensures { (kinds wraps nums ats lens pool : List ℕ) (sheet : Span)
        → Numbered (columns rows.now cols.now kinds wraps nums ats lens) floats.now
        → names_sheet pool sheet reference.sheet ≡ true
        → Meant (columns rows.now cols.now kinds wraps nums ats lens) pool sheet range
        region_rows.now region_cols.now (ConditionalOperand.Reference reference) column.new }
{
    let mut next = 0;
    for i in band.from..band.to {
        let col = region_cols[i];
        let inside = (range.left <= col) & (col <= range.right);
        if !inside {
            continue;
        }
        let row = region_rows[i];
        let at_row = aimed(
            reference.row_absolute,
            row,
            range.top,
            reference.row,
            1_048_575,
        );
        let at_col = aimed(
            reference.col_absolute,
            col as u32,
            range.left as u32,
            reference.col as u32,
            16_383,
        );
        if stands_at(rows, cols, next, at_row, at_col) {
            column[i] = floats[next];
            next += 1;
            continue;
        }
        let entry = entry_sought(rows, cols, at_row, at_col, next);
        column[i] = number_named(floats, entry);
        next = entry as usize;
    }
}

// One number for each index of a band.
fn fill(column: &mut [f64], band: Band, x: f64)
    requires { (band.from ≤ band.to) × (band.to ≤ length column.old) }
    ensures { (i : ℕ) → band.from ≤ i → i < band.to → get_or column.new i nan ≡ x }
{
    column[band.from..band.to].fill(x);
}

// The numbers of another column for each index of a band.
fn copy(values: &[f64], column: &mut [f64], band: Band)
    requires { (band.to ≤ length values.now) × (band.to ≤ length column.old) }
    ensures { (i : ℕ) → band.from ≤ i → i < band.to → get_or column.new i nan ≡ get_or values.now i nan }
{
    // not copy_from_slice, which calls memmove: the archives for C ask for memcpy and memset alone
    for i in band.from..band.to {
        column[i] = values[i];
    }
}

// The same, where a reference to another sheet reads as nothing, one that is absolute in row and column means one cell from every region,
// and the numbers of the regions' own cells are known.
fn find_reference(
    reference: A1Reference,
    range: Range,
    band: Band,
    rows: &[u32],
    cols: &[u16],
    floats: &[f64],
    values: &[f64],
    region_rows: &[u32],
    region_cols: &[u16],
    pool: &[u8],
    sheet: Span,
    column: &mut [f64],
)
    requires cols_value { (first_fall rows.now cols.now ≡ none) × (length rows.now ≤ 1024) × (length rows.now ≡ length floats.now)
        × (length rows.now ≤ length cols.now) }
    requires band_of { BandOf range region_rows.now band.from band.to × (length region_rows.now ≤ length region_cols.now)
        × (length region_rows.now ≤ length values.now) × (length region_rows.now ≤ length column.old) }
    ensures { (kinds wraps nums ats lens : List ℕ)
        → Numbered (columns rows.now cols.now kinds wraps nums ats lens) floats.now
        → Valued (columns rows.now cols.now kinds wraps nums ats lens) region_rows.now
        region_cols.now values.now
        → Meant (columns rows.now cols.now kinds wraps nums ats lens) pool.now sheet range
        region_rows.now region_cols.now (ConditionalOperand.Reference reference) column.new }
{
    let name = reference.sheet;
    if !names_sheet(name, pool, sheet) {
        fill(column, band, f64::NAN);
        return;
    }
    if reference.row_absolute & reference.col_absolute {
        let target = CellCoordinate {
            row: range.top,
            col: range.left,
        };
        let entry = entry_referenced(reference, range, target, rows, cols, pool, sheet, 0);
        fill(column, band, number_named(floats, entry));
        return;
    }
    if means_target(reference, range) {
        copy(values, column, band);
        return;
    }
    find_referenced(
        reference,
        range,
        band,
        rows,
        cols,
        floats,
        region_rows,
        region_cols,
        column,
    );
}

// The same of any operand.
fn find_operand(
    operand: ConditionalOperand,
    range: Range,
    band: Band,
    rows: &[u32],
    cols: &[u16],
    floats: &[f64],
    values: &[f64],
    region_rows: &[u32],
    region_cols: &[u16],
    pool: &[u8],
    sheet: Span,
    column: &mut [f64],
)
    requires cols_value { (first_fall rows.now cols.now ≡ none) × (length rows.now ≤ 1024) × (length rows.now ≡ length floats.now)
        × (length rows.now ≤ length cols.now) }
    requires band_of { BandOf range region_rows.now band.from band.to × (length region_rows.now ≤ length region_cols.now)
        × (length region_rows.now ≤ length values.now) × (length region_rows.now ≤ length column.old) }
    ensures { (kinds wraps nums ats lens : List ℕ)
        → Numbered (columns rows.now cols.now kinds wraps nums ats lens) floats.now
        → Valued (columns rows.now cols.now kinds wraps nums ats lens) region_rows.now
        region_cols.now values.now
        → Meant (columns rows.now cols.now kinds wraps nums ats lens) pool.now sheet range
        region_rows.now region_cols.now operand column.new }
{
    match operand {
        ConditionalOperand::Literal(x) => fill(column, band, float_of(finite_reading(x))),
        ConditionalOperand::Reference(reference) => find_reference(
            reference,
            range,
            band,
            rows,
            cols,
            floats,
            values,
            region_rows,
            region_cols,
            pool,
            sheet,
            column,
        ),
        ConditionalOperand::Unread => fill(column, band, f64::NAN),
    }
}

// ---- the operands of a test

// Both operands, as far as the test takes them and they are not both literals.
pub(crate) fn find_operands(
    test: Test,
    range: Range,
    band: Band,
    rows: &[u32],
    cols: &[u16],
    floats: &[f64],
    values: &[f64],
    region_rows: &[u32],
    region_cols: &[u16],
    pool: &[u8],
    sheet: Span,
    firsts: &mut [f64],
    seconds: &mut [f64],
)
    requires cols_value { (first_fall rows.now cols.now ≡ none) × (length rows.now ≤ 1024) × (length rows.now ≡ length floats.now)
        × (length rows.now ≤ length cols.now) }
    requires band_of { BandOf range region_rows.now band.from band.to × (length region_rows.now ≤ length region_cols.now)
        × (length region_rows.now ≤ length values.now) × (length region_rows.now ≤ length firsts.old)
        × (length region_rows.now ≤ length seconds.old) }
    ensures first { (kinds wraps nums ats lens : List ℕ) (others : List Float) (founds : List ℕ)
        → Numbered (columns rows.now cols.now kinds wraps nums ats lens) floats.now
        → Valued (columns rows.now cols.now kinds wraps nums ats lens) region_rows.now
        region_cols.now values.now → takes_first test ≡ true
        → InRange range region_rows.now region_cols.now (λ i. first_at (known others firsts.new
        seconds.new founds) test i ≡ resolved (sheet_with (cells_of (columns rows.now cols.now kinds wraps
        nums ats lens)) pool.now sheet) range (coordinate_at region_rows.now region_cols.now i)
        (first_operand test)) }
    ensures second { (kinds wraps nums ats lens : List ℕ) (others : List Float) (founds : List ℕ)
        → Numbered (columns rows.now cols.now kinds wraps nums ats lens) floats.now
        → Valued (columns rows.now cols.now kinds wraps nums ats lens) region_rows.now
        region_cols.now values.now → takes_second test ≡ true
        → InRange range region_rows.now region_cols.now (λ i. second_at (known others firsts.new
        seconds.new founds) test i ≡ resolved (sheet_with (cells_of (columns rows.now cols.now kinds wraps
        nums ats lens)) pool.now sheet) range (coordinate_at region_rows.now region_cols.now i)
        (second_operand test)) }
{
    if by_literals(test) {
        return;
    }
    match test {
        Test::CellIs {
            op,
            first,
            second,
            ..
        } => {
            find_operand(
                first,
                range,
                band,
                rows,
                cols,
                floats,
                values,
                region_rows,
                region_cols,
                pool,
                sheet,
                firsts,
            );
            if uses_second(op) {
                find_operand(
                    second,
                    range,
                    band,
                    rows,
                    cols,
                    floats,
                    values,
                    region_rows,
                    region_cols,
                    pool,
                    sheet,
                    seconds,
                );
            }
        }
        Test::Expression { left, right, .. } => {
            find_operand(
                left,
                range,
                band,
                rows,
                cols,
                floats,
                values,
                region_rows,
                region_cols,
                pool,
                sheet,
                firsts,
            );
            find_operand(
                right,
                range,
                band,
                rows,
                cols,
                floats,
                values,
                region_rows,
                region_cols,
                pool,
                sheet,
                seconds,
            );
        }
        _ => {}
    }
}

// Checks 3 and 4: cells and regions off the grid, bad values, and coordinates that do not rise.
ghost use Rattle.std.specs.Prelude.{◌≤◌, ◌≡◌, false, length};
ghost use Rattle.model.specs.Job.{first_from, off_grid, rises as risesTo, falls_at, first_fall, bad_value, bad_cell_at, bad_region_at};
ghost use Rattle.model.specs.Lent.{cells_lent};
ghost use Rattle.checks.specs.Checked.{found};

use super::names::outside;
use model::{LentCells, LentRegions, Span};

#[tactic(auto, unfolding(model::specs::Job::off_grid))]
fn off_grid(row: u32, col: u16) -> bool
    ensures { result ≡ off_grid row col }
{
    (row > 1_048_575) | (col > 16_383)
}

// An unknown kind, a text outside the pool, a bool that is not 0 or 1.
#[tactic(auto, unfolding(model::specs::Job::bad_value))]
fn bad_value(pool: &[u8], kind: u8, span: Span) -> bool
    ensures { result ≡ bad_value pool.now kind span.at span.len }
{
    (kind == 0) | (kind > 5) | ((kind == 3) & outside(pool, span)) | ((kind == 4) & (span.len > 1))
}

#[tactic(auto, unfolding(model::specs::Job::bad_cell_at))]
fn bad_cell_at(cells: LentCells<'_>, pool: &[u8], i: usize) -> bool
    ensures { result ≡ bad_cell_at pool.now (cells_lent cells.entry) i }
{
    let span = Span {
        at: lent::at(cells.ats, i, 0),
        len: lent::at(cells.lens, i, 0),
    };
    off_grid(lent::at(cells.rows, i, 0), lent::at(cells.cols, i, 0))
        | bad_value(pool, lent::at(cells.kinds, i, 0), span)
}

// Whether there is a bad cell at all. The loop has no branch, so that the compiler looks at several cells at once.
fn any_bad_cell(cells: LentCells<'_>, pool: &[u8]) -> bool
    requires { (length cells.rows.now ≤ length cells.cols.now) × (length cells.rows.now ≤ length cells.kinds.now)
        × (length cells.rows.now ≤ length cells.ats.now) × (length cells.rows.now ≤ length cells.lens.now) }
    ensures { result ≡ false → None ≡ found (first_from (bad_cell_at pool.now (cells_lent cells.entry)) 0 (length cells.entry.rows.now)) }
{
    let mut bad = false;
    for i in 0..cells.rows.len() {
        let span = Span {
            at: cells.ats[i],
            len: cells.lens[i],
        };
        bad |= off_grid(cells.rows[i], cells.cols[i]) | bad_value(pool, cells.kinds[i], span);
    }
    bad
}

// Check 3 of the cells.
pub fn first_bad_cell(cells: LentCells<'_>, pool: &[u8]) -> Option<usize>
    ensures { result ≡ found (first_from (bad_cell_at pool.now (cells_lent cells.entry)) 0 (length cells.entry.rows.now)) }
{
    let n = cells.rows.len();
    if n <= cells.cols.len()
        && n <= cells.kinds.len()
        && n <= cells.ats.len()
        && n <= cells.lens.len()
        && !any_bad_cell(cells, pool)
    {
        return None;
    }
    (0..n).find(|cell| bad_cell_at(cells, pool, *cell))
}

#[tactic(auto, unfolding(model::specs::Job::bad_region_at))]
fn bad_region_at(regions: LentRegions<'_>, i: usize) -> bool
    ensures { result ≡ bad_region_at regions.entry.rows.now regions.entry.cols.now i }
{
    off_grid(lent::at(regions.rows, i, 0), lent::at(regions.cols, i, 0))
}

// Whether there is a bad region at all.
fn any_bad_region(regions: LentRegions<'_>) -> bool
    requires { length regions.rows.now ≤ length regions.cols.now }
    ensures { result ≡ false
        → None ≡ found (first_from (bad_region_at regions.entry.rows.now regions.entry.cols.now) 0 (length regions.entry.rows.now)) }
{
    let mut bad = false;
    for i in 0..regions.rows.len() {
        bad |= off_grid(regions.rows[i], regions.cols[i]);
    }
    bad
}

// Check 3 of the regions.
pub fn first_bad_region(regions: LentRegions<'_>) -> Option<usize>
    ensures { result ≡ found (first_from (bad_region_at regions.entry.rows.now regions.entry.cols.now) 0 (length regions.entry.rows.now)) }
{
    let n = regions.rows.len();
    if n <= regions.cols.len() && !any_bad_region(regions) {
        return None;
    }
    (0..n).find(|region| bad_region_at(regions, *region))
}

// Whether (row, col) stands before (nextrow, nextcol).
#[tactic(auto, unfolding(model::specs::Job::rises))]
fn rises(row: u32, col: u16, nextrow: u32, nextcol: u16) -> bool
    ensures { result ≡ risesTo row col nextrow nextcol }
{
    (row < nextrow) | ((row == nextrow) & (col < nextcol))
}

// Whether the coordinates at `later` do not stand after those ahead of them.
#[tactic(auto, unfolding(model::specs::Job::falls_at))]
fn falls_at(rows: &[u32], cols: &[u16], later: usize) -> bool
    ensures { result ≡ falls_at rows.now cols.now later }
{
    let before = later.saturating_sub(1);
    let row = lent::at(rows, before, 0);
    let col = lent::at(cols, before, 0);
    !rises(row, col, lent::at(rows, later, 0), lent::at(cols, later, 0))
}

// Whether any later one does not rise.
fn any_fall(rows: &[u32], cols: &[u16]) -> bool
    requires { length rows.now ≤ length cols.now }
    ensures { result ≡ false → None ≡ found (first_fall rows.now cols.now) }
{
    let mut bad = false;
    for later in 1..rows.len() {
        let before = later - 1;
        bad |= !rises(rows[before], cols[before], rows[later], cols[later]);
    }
    bad
}

// Check 4: the first later one that does not rise.
pub fn first_fall(rows: &[u32], cols: &[u16]) -> Option<usize>
    ensures { result ≡ found (first_fall rows.now cols.now) }
{
    if rows.len() <= cols.len() && !any_fall(rows, cols) {
        return None;
    }
    (1..rows.len()).find(|later| falls_at(rows, cols, *later))
}

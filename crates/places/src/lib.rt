// The place of each region's cell, found in one walk over the cells and the regions of a sheet.
#![tactic(auto)]

ghost use Rattle.std.specs.Prelude.{◌≤◌, ◌≡◌, ◌&&◌, leb, length, replicate};
ghost use Rattle.std.proofs.lemmas.List.Edits.{sets};
ghost use Rattle.cells.specs.Columns.{coordinate_at};
ghost use Rattle.places.specs.Walk.{standing, side, walk, walk_fits, walked, table_of};

use model::CellCoordinate;
use std::cmp::Ordering;

// One comparison of (row, col). The rows mostly decide: with returns the walk is faster than with `then`, which compares both.
#[tactic(auto, using(std::proofs::lemmas::Bool::Decides::nat_tests), unfolding(crate::specs::Walk::side, model::specs::Job::rises, model::specs::Sheet::same_coordinate))]
fn compare(cell: CellCoordinate, region: CellCoordinate) -> Ordering
    ensures { result ≡ side cell region }
{
    if cell.row < region.row {
        return Ordering::Less;
    }
    if cell.row > region.row {
        return Ordering::Greater;
    }
    cell.col.cmp(&region.col)
}

fn coordinate_at(rows: &[u32], cols: &[u16], i: usize) -> CellCoordinate
    ensures { result ≡ coordinate_at rows.now cols.now i }
{
    CellCoordinate {
        row: lent::at(rows, i, 0),
        col: lent::at(cols, i, 0),
    }
}

// The cell `i` and the region `k` are those compared next. A region that has no cell keeps its 0.
fn follow(
    rows: &[u32],
    cols: &[u16],
    region_rows: &[u32],
    region_cols: &[u16],
    places: &mut [u16],
) -> u64
    requires { (length rows.now ≤ 65535) × (length region_rows.now ≤ length places.old)
        × (places.old ≡ replicate (length places.old) 0) }
    ensures comparisons { result ≡ (walk (standing rows.now cols.now) (standing region_rows.now
        region_cols.now)).comparisons }
    ensures places { places.new ≡ sets (replicate (length places.old) 0) 0 (walk (standing rows.now
        cols.now) (standing region_rows.now region_cols.now)).places }
{
    let mut comparisons = 0;
    let mut i = 0;
    let mut k = 0;
    // a `while`: each turn passes on in one of the two lists
    while i < rows.len() && k < region_rows.len() {
        comparisons += 1;
        let cell = coordinate_at(rows, cols, i);
        let region = coordinate_at(region_rows, region_cols, k);
        match compare(cell, region) {
            Ordering::Less => i += 1,
            Ordering::Equal => {
                places[k] = i as u16 + 1;
                k += 1;
            }
            Ordering::Greater => k += 1,
        }
    }
    comparisons
}

// Whether the table has an entry for each region, and an entry can name each cell.
fn walk_fits(cells: usize, regions: usize, room: usize) -> bool
    ensures { result ≡ walk_fits cells regions room }
{
    regions <= room && cells <= 65_535
}

// The place of each region's cell plus one, 0 for none, and zeros behind the last region. There are as many cells as rows, and as many
// regions as rows of regions. Where the table is too short for the regions, or there are more cells than an entry can name, zeros alone.
pub fn walk_cells(
    rows: &[u32],
    cols: &[u16],
    region_rows: &[u32],
    region_cols: &[u16],
    places: &mut [u16],
) -> Option<u64>
    ensures comparisons { result ≡ walked (standing rows.now cols.now) (standing region_rows.now
        region_cols.now) (length places.old) }
    ensures places { places.new ≡ table_of (standing rows.now cols.now) (standing
        region_rows.now region_cols.now) (length places.old) }
{
    places.fill(0);
    if !walk_fits(rows.len(), region_rows.len(), places.len()) {
        return None;
    }
    Some(follow(rows, cols, region_rows, region_cols, places))
}

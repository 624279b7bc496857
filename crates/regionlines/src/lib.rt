// Region lines of a job text, into two lent columns.
#![tactic(auto)]

ghost use Rattle.std.specs.Prelude.{◌≡◌, set};
ghost use Rattle.grammar.specs.Parts.{times_p};
ghost use Rattle.jobtext.specs.Text.{region_line};
ghost use Rattle.regionlines.specs.Regions.{region_of, AreRegions, section_of, rows_after, cols_after};

use fields::Malformed;

#[derive(Clone, Copy)]
struct ReadRegion {
    row: u32,
    col: u16,
    next: usize,
}

// Whether all regions fit the columns, and the place after their lines.
#[derive(Clone, Copy)]
pub struct RegionSection {
    pub fits: bool,
    pub next: usize,
}

#[tactic(auto, using(crate::proofs::Told::reads), unfolding(jobtext::specs::Text::region_line))]
fn read_region(s: &[u8], at: usize) -> Result<ReadRegion, Malformed>
    ensures { result ≡ region_of (region_line.parse s.now at) }
{
    let row = fields::decimal(s, at, 4294967295, b' ')?;
    let col = fields::decimal(s, row.next, 65535, b'\n')?;
    Ok(ReadRegion {
        row: row.value as u32,
        col: col.value as u16,
        next: col.next,
    })
}

// Stores a value at an index, where there is room. Private: past the end it keeps what was lent, and its callers clear that.
fn store<T: Copy>(column: &mut [T], i: usize, x: T)
    ensures { column.new ≡ set column.old i x }
{
    if i < column.len() {
        column[i] = x;
    }
}

// Lines of regions, from index 0 on, where there is room; the place after them.
fn read_lines(
    s: &[u8],
    at: usize,
    number: usize,
    rows: &mut [u32],
    cols: &mut [u16],
) -> Result<usize, Malformed>
    ensures { AreRegions 0 (times_p number region_line.parse s.now at) rows.old cols.old result
        rows.new cols.new }
{
    let mut next = at;
    for i in 0..number {
        let region = read_region(s, next)?;
        store(rows, i, region.row);
        store(cols, i, region.col);
        next = region.next;
    }
    Ok(next)
}

// Lines of regions alone in the columns. Where a line is malformed or the regions do not fit both columns, these become 0.
pub fn read_regions(
    s: &[u8],
    at: usize,
    number: usize,
    rows: &mut [u32],
    cols: &mut [u16],
) -> Result<RegionSection, Malformed>
    ensures value { result ≡ section_of (times_p number region_line.parse s.now at) rows.old cols.old }
    ensures rows_after { (rows.new ≡ rows_after (times_p number region_line.parse s.now at) rows.old cols.old) × (cols.new ≡ cols_after (times_p number region_line.parse s.now at) rows.old cols.old) }
{
    rows.fill(0);
    cols.fill(0);
    match read_lines(s, at, number, rows, cols) {
        Ok(next) => {
            let fits = fields::within(number, &[rows.len(), cols.len()]);
            if !fits {
                rows.fill(0);
                cols.fill(0);
            }
            Ok(RegionSection { fits, next })
        }
        Err(malformed) => {
            rows.fill(0);
            cols.fill(0);
            Err(malformed)
        }
    }
}

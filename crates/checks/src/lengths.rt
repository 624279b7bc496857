// Checks 1, 2 and 6, over the lengths of the columns.
ghost use Rattle.std.specs.Prelude.{◌≡◌, not, ◌&&◌, ◌||◌, ltb, eqb};

// Check 1: cell columns, or region columns, differ in length.
pub fn lengths_differ(
    rows: usize,
    cols: usize,
    kinds: usize,
    wraps: usize,
    nums: usize,
    ats: usize,
    lens: usize,
    region_rows: usize,
    region_cols: usize,
) -> bool
    ensures { result ≡ not (eqb cols rows && eqb kinds rows && eqb wraps rows && eqb nums rows && eqb ats rows && eqb lens rows
        && eqb region_cols region_rows) }
{
    let cells = (cols == rows)
        & (kinds == rows)
        & (wraps == rows)
        & (nums == rows)
        & (ats == rows)
        & (lens == rows);
    !(cells & (region_cols == region_rows))
}

// Check 2.
pub fn too_many(cells: usize, regions: usize, rules: usize, pool: usize) -> bool
    ensures { result ≡ (ltb 1024 cells || ltb 1024 regions || ltb 64 rules || ltb 65_536 pool) }
{
    (cells > 1024) | (regions > 1024) | (rules > 64) | (pool > 65_536)
}

// Check 6: bar columns shorter than regions, scratch shorter than cells.
pub fn space_short(
    cells: usize,
    regions: usize,
    bar_rules: usize,
    bar_ppms: usize,
    scratch: usize,
) -> bool
    ensures { result ≡ (ltb bar_rules regions || ltb bar_ppms regions || ltb scratch cells) }
{
    (bar_rules < regions) | (bar_ppms < regions) | (scratch < cells)
}

// How many cells in range have the key of a region's cell, by the codes of the keys.
ghost use Rattle.std.specs.Prelude.{ℕ, ◌<◌, ◌≤◌, ◌≡◌, true, length, get_or};
ghost use Rattle.std.proofs.Math.Option.{none};
ghost use Rattle.model.specs.Job.{first_fall};
ghost use Rattle.hits.specs.Hits.{column_in};
ghost use Rattle.turns.specs.Bands.{BandOf};
ghost use Rattle.call.specs.Tables.{code_named, coded_from};

use crate::Band;
use crate::bands::next_in;
use model::Range;

// How many cells in range have each code, added to what is there, which is 0.
fn count_codes(
    range: Range,
    band: Band,
    rows: &[u32],
    cols: &[u16],
    codes: &[u16],
    counts: &mut [u16],
)
    requires cols_value { (first_fall rows.now cols.now ≡ none) × (length rows.now ≤ length cols.now) × (band.to ≤ length rows.now)
        × (band.from ≤ band.to) × (band.to ≤ 1024) × (band.to ≤ length codes.now) }
    requires by_index { ((i : ℕ) → get_or codes.now i 0 < length counts.old) × ((code : ℕ) → get_or counts.old code 0 ≡ 0) }
    ensures { BandOf range rows.now band.from band.to → (code : ℕ) → code < length counts.old
        → get_or counts.new code 0
        ≡ coded_from range rows.now cols.now codes.now code 0 (length rows.now) }
{
    let to = band.to;
    let mut gap = 0;
    let mut start = band.from;
    let mut i = start;
    // the index jumps: out of range it goes on at the next cell in range
    while i < to {
        let col = cols[i];
        if (range.left <= col) & (col <= range.right) {
            let code = codes[i] as usize;
            counts[code] = counts[code] + 1;
            i += 1;
            start = i;
            continue;
        }
        let next = next_in(range, rows, cols, i, to, gap);
        gap = next - start;
        i = next;
    }
}

// The code of the cell that an entry of a table of places names, 0 for none.
fn code_named(codes: &[u16], entry: u16) -> u16
    ensures { result ≡ code_named codes.now entry }
{
    if entry == 0 {
        return 0;
    }
    lent::at(codes, entry as usize - 1, 0)
}

// The count of the code of each region in range; 0 where its cell has no key.
fn look_up(
    range: Range,
    places: &[u16],
    codes: &[u16],
    counts: &[u16],
    regions: Band,
    region_rows: &[u32],
    region_cols: &[u16],
    founds: &mut [u16],
)
    requires { (first_fall region_rows.now region_cols.now ≡ none) × (length region_rows.now ≤ length region_cols.now)
        × (regions.to ≤ length region_rows.now) × (regions.from ≤ regions.to) × (regions.to ≤ length founds.old) }
    ensures { (i : ℕ) → regions.from ≤ i → i < regions.to → column_in range (get_or region_cols.now i 0) ≡ true
        → get_or founds.new i 0
        ≡ get_or counts.now (code_named codes.now (get_or places.now i 0)) 0 }
{
    let to = regions.to;
    let mut gap = 0;
    let mut start = regions.from;
    let mut i = start;
    // the index jumps: out of range it goes on at the next region in range
    while i < to {
        let col = region_cols[i];
        if (range.left <= col) & (col <= range.right) {
            let code = code_named(codes, lent::at(places, i, 0));
            founds[i] = lent::at(counts, code as usize, 0);
            i += 1;
            start = i;
            continue;
        }
        let next = next_in(range, region_rows, region_cols, i, to, gap);
        gap = next - start;
        i = next;
    }
}

// How many cells in range have the key of the cell of each region in range, and how many have none.
pub(crate) fn count_keys(
    range: Range,
    band: Band,
    regions: Band,
    rows: &[u32],
    cols: &[u16],
    codes: &[u16],
    places: &[u16],
    region_rows: &[u32],
    region_cols: &[u16],
    founds: &mut [u16],
) -> u16
    requires cols_value { (first_fall rows.now cols.now ≡ none) × (length rows.now ≤ length cols.now) × (band.to ≤ length rows.now)
        × (band.from ≤ band.to) × (band.to ≤ 1024) × (band.to ≤ length codes.now) }
    requires region_cols_value { (first_fall region_rows.now region_cols.now ≡ none) × (length region_rows.now ≤ length region_cols.now)
        × (regions.to ≤ length region_rows.now) × (regions.from ≤ regions.to) × (regions.to ≤ length founds.old) }
    requires by_index { (i : ℕ) → get_or codes.now i 0 < 1025 }
    ensures keyless { BandOf range rows.now band.from band.to
        → result ≡ coded_from range rows.now cols.now codes.now 0 0 (length rows.now) }
    ensures founds { BandOf range rows.now band.from band.to → (i : ℕ) → regions.from ≤ i → i < regions.to
        → column_in range (get_or region_cols.now i 0) ≡ true → get_or founds.new i 0
        ≡ coded_from range rows.now cols.now codes.now
        (code_named codes.now (get_or places.now i 0)) 0 (length rows.now) }
{
    let mut counts = [0u16; 1025];
    count_codes(range, band, rows, cols, codes, &mut counts);
    look_up(
        range,
        places,
        codes,
        &counts,
        regions,
        region_rows,
        region_cols,
        founds,
    );
    counts[0]
}

// The hits of a test among the regions in range alone, where these are few: they are picked into short columns, and what is found there is
// told of the regions they are. The regions rise.
ghost use Rattle.std.specs.Prelude.{ℕ, ◌+◌, ◌-◌, ◌<◌, ◌≤◌, ◌≡◌, Bool, true, List, map, length, get_or, take};
ghost use Rattle.std.proofs.Math.Option.{none};
ghost use Rattle.std.specs.Float.{nan};
ghost use Rattle.memory.specs.Memory.{page_of};
ghost use Rattle.model.specs.Job.{first_fall};
ghost use Rattle.hits.specs.Hits.{known, outcomes_by, hits_of, fits_hits, found_among};
ghost use Rattle.turns.specs.Knowing.{counts_keys};
ghost use Rattle.call.specs.Tables.{inside_from, looks_at_operands};

use crate::Band;
use crate::bands::{is_wide, next_in};
use hits::{Found, by_literals, find_hits};
use model::{Range, Test};

// ---- the regions in range

// The regions in range at the front of a list, and how many they are; one more than there is room for where they are more than that.
fn list_in(range: Range, band: Band, rows: &[u32], cols: &[u16], list: &mut [u16]) -> usize
    requires { (first_fall rows.now cols.now ≡ none) × (length rows.now ≤ length cols.now) × (length rows.now ≤ 1024)
        × (band.from ≤ band.to) × (band.to ≤ length rows.now) × (length list.old ≤ 1024) }
    ensures { result ≤ length list.old
        → take result list.new ≡ inside_from range cols.now band.from (band.to - band.from) }
{
    let to = band.to;
    let mut count = 0;
    let mut gap = 0;
    let mut start = band.from;
    let mut i = start;
    // the index jumps: out of range it goes on at the next cell in range
    while i < to {
        let col = cols[i];
        if (range.left <= col) & (col <= range.right) {
            if count >= list.len() {
                return count + 1;
            }
            list[count] = i as u16;
            count += 1;
            i += 1;
            start = i;
            continue;
        }
        let next = next_in(range, rows, cols, i, to, gap);
        gap = next - start;
        i = next;
    }
    count
}

// ---- columns of them

// Whether a test looks at the columns of what its operands read as.
#[tactic(auto, unfolding(crate::specs::Tables::looks_at_operands, turns::specs::Knowing::takes_first))]
fn looks_at_operands(test: Test) -> bool
    ensures { result ≡ looks_at_operands test }
{
    if by_literals(test) {
        return false;
    }
    matches!(test, Test::CellIs { .. } | Test::Expression { .. })
}

// Whether a test looks at how often a key is there.
#[tactic(auto, unfolding(turns::specs::Knowing::counts_keys))]
fn counts_keys(test: Test) -> bool
    ensures { result ≡ counts_keys test }
{
    matches!(test, Test::DuplicateValues { .. })
}

// The entries of a column that a list picks.
fn pick<T: Copy>(list: &[u16], column: &[T], short: &mut [T])
    requires { ((k : ℕ) → k < length list.now → get_or list.now k 0 < length column.now) × (length list.now ≤ length short.old) }
    ensures { (k : ℕ) (d : T) → k < length list.now
        → get_or short.new k d ≡ get_or column.now (get_or list.now k 0) d }
{
    for k in 0..list.len() {
        short[k] = column[list[k] as usize];
    }
}

// The same of a column that a test may not look at.
fn pick_if<T: Copy>(looked_at: bool, list: &[u16], column: &[T], short: &mut [T])
    requires { ((k : ℕ) → k < length list.now → get_or list.now k 0 < length column.now) × (length list.now ≤ length short.old) }
    ensures { looked_at ≡ true → (k : ℕ) (d : T) → k < length list.now
        → get_or short.new k d ≡ get_or column.now (get_or list.now k 0) d }
{
    if looked_at {
        pick(list, column, short);
    }
}

// The regions that places of the list mean, with zeros behind them.
fn put_back(list: &[u16], places: &[u16], hits: &mut [u16])
    requires { ((k : ℕ) → k < length places.now → get_or places.now k 0 < length list.now) × (length places.now ≤ length hits.old) }
    ensures { hits.new ≡ page_of true (length hits.old)
        (map (λ h. get_or list.now h 0) places.now) }
{
    hits.fill(0);
    for k in 0..places.len() {
        hits[k] = list[places[k] as usize];
    }
}

// ---- the test

// The hits of a test among the regions of a list.
fn find_listed(
    test: Test,
    range: Range,
    band: Band,
    list: &[u16],
    cols: &[u16],
    flags: &[u8],
    values: &[f64],
    firsts: &[f64],
    seconds: &[f64],
    founds: &[u16],
    hits: &mut [u16],
) -> Found
    requires list_value { (list.now ≡ inside_from range cols.now band.from (band.to - band.from)) × (length list.now ≤ 128) }
    requires hits_value { fits_hits band.from band.to (known values.now firsts.now seconds.now founds.now) cols.now
        flags.now (length hits.old) ≡ true }
    ensures found { (imported : Bool) → result ≡ found_among band.from
        (outcomes_by (known values.now firsts.now seconds.now founds.now) range test imported
        cols.now flags.now band.from (band.to - band.from)) }
    ensures hits { (imported : Bool) → hits.new ≡ page_of true (length hits.old) (hits_of band.from
        (outcomes_by (known values.now firsts.now seconds.now founds.now) range test imported
        cols.now flags.now band.from (band.to - band.from))) }
{
    let n = list.len();
    let mut short_flags = [0u8; 128];
    pick(list, flags, &mut short_flags);
    let mut short_cols = [0u16; 128];
    pick(list, cols, &mut short_cols);
    let mut short_values = [0.0; 128];
    pick(list, values, &mut short_values);
    let operands = looks_at_operands(test);
    let mut short_firsts = [0.0; 128];
    pick_if(operands, list, firsts, &mut short_firsts);
    let mut short_seconds = [0.0; 128];
    pick_if(operands, list, seconds, &mut short_seconds);
    let mut short_founds = [0u16; 128];
    pick_if(counts_keys(test), list, founds, &mut short_founds);
    let mut places = [0u16; 129];
    let Some(found) = find_hits(
        test,
        range,
        0,
        n,
        &short_flags,
        &short_cols,
        &short_values,
        &short_firsts,
        &short_seconds,
        &short_founds,
        &mut places,
    ) else {
        unreachable!()
    };
    put_back(list, &places[..found.count], hits);
    match found.unresolved {
        Some(at) => Found {
            unresolved: Some(list[at] as usize),
            count: 0,
        },
        None => found,
    }
}

// The hits of a test among the regions of a band.
pub(crate) fn find_within(
    test: Test,
    range: Range,
    band: Band,
    rows: &[u32],
    cols: &[u16],
    flags: &[u8],
    values: &[f64],
    firsts: &[f64],
    seconds: &[f64],
    founds: &[u16],
    hits: &mut [u16],
) -> Found
    requires cols_value { (first_fall rows.now cols.now ≡ none) × (length rows.now ≤ length cols.now) × (length rows.now ≤ 1024)
        × (band.to ≤ length rows.now) }
    requires hits_value { fits_hits band.from band.to (known values.now firsts.now seconds.now founds.now) cols.now
        flags.now (length hits.old) ≡ true }
    ensures found { (imported : Bool) → result ≡ found_among band.from
        (outcomes_by (known values.now firsts.now seconds.now founds.now) range test imported
        cols.now flags.now band.from (band.to - band.from)) }
    ensures hits { (imported : Bool) → hits.new ≡ page_of true (length hits.old) (hits_of band.from
        (outcomes_by (known values.now firsts.now seconds.now founds.now) range test imported
        cols.now flags.now band.from (band.to - band.from))) }
{
    let from = band.from;
    let to = band.to;
    let mut list = [0u16; 128];
    if !is_wide(range, band, cols) {
        let count = list_in(range, band, rows, cols, &mut list);
        if count <= 128 {
            return find_listed(
                test,
                range,
                band,
                &list[..count],
                cols,
                flags,
                values,
                firsts,
                seconds,
                founds,
                hits,
            );
        }
    }
    let Some(found) = find_hits(
        test, range, from, to, flags, cols, values, firsts, seconds, founds, hits,
    ) else {
        unreachable!()
    };
    found
}

// Which regions a test paints, by columns of what is known of each region ahead of it. No mark is written here.
#![tactic(auto)]

mod intervals;
mod said;

ghost use Rattle.std.specs.Prelude.{ℕ, ◌+◌, ◌-◌, ◌<◌, ◌≤◌, ◌≡◌, MatchOption, Bool, true, false, cond, List, length, get_or};
ghost use Rattle.memory.specs.Memory.{page_of};
ghost use Rattle.model.specs.declared.Outcome.{Outcome};
ghost use Rattle.hits.specs.Hits.{by_literals, live_from, known, outcomes_by, hits_of, fits_hits, found_among, found_in};
ghost use Rattle.hits.specs.Chosen.{stands, chosen_from, Tells};

use crate::said::{literals, say};
use model::{Range, Test};

// The numbers from low to high, both included, or those outside of them.
#[derive(Clone, Copy)]
enum Interval {
    Inside { low: f64, high: f64 },
    Outside { low: f64, high: f64 },
}

// How two numbers may stand to each other: each way is asked without a branch.
#[derive(Clone, Copy)]
struct Wanted {
    less: bool,
    same: bool,
    more: bool,
}

// The first region that leaves the test unresolved, if one does, and how many regions it paints: none where it is unresolved.
#[derive(Clone, Copy)]
pub struct Found {
    pub unresolved: Option<usize>,
    pub count: usize,
}

// Whether a test is a cell-is test whose operands are literals, as far as it uses them: then no column is looked at for them.
#[tactic(auto, unfolding(crate::specs::Hits::by_literals))]
pub fn by_literals(test: Test) -> bool
    ensures { result ≡ by_literals test }
{
    match test {
        Test::CellIs {
            op,
            first,
            second,
            ..
        } => literals(op, first, second),
        _ => false,
    }
}

// How many regions are not stopped.
pub fn live(flags: &[u8]) -> u64
    ensures { result ≡ live_from flags.now 0 (length flags.now) }
{
    let mut count = 0;
    for flag in flags {
        count += (*flag == 0) as u64;
    }
    count
}

// ---- the regions that are painted

// Whether some region of any kind is unresolved. All are looked at, so that the loop has no branch.
fn any_unresolved(said: &[u8]) -> bool
    ensures { result ≡ false → (i : ℕ) → i < length said.now → get_or said.now i 0 ≡ 2 → ⊥ }
{
    let mut any = false;
    for byte in said {
        any = any | (*byte == 2);
    }
    any
}

// The first region in range, and not stopped, that leaves the test unresolved.
fn first_unresolved(range: Range, flags: &[u8], cols: &[u16], said: &[u8]) -> Option<usize>
    requires { (length said.now ≤ length flags.now) × (length said.now ≤ length cols.now) }
    ensures { MatchOption result
        ((i : ℕ) → i < length said.now → stands 2 range flags.now cols.now said.now i ≡ false)
        (λ r. (r < length said.now) × ((i : ℕ) → i < r → stands 2 range flags.now cols.now said.now i ≡ false)
        × (stands 2 range flags.now cols.now said.now r ≡ true)) }
{
    if !any_unresolved(said) {
        return None;
    }
    for i in 0..said.len() {
        let col = cols[i];
        let inside = (range.left <= col) & (col <= range.right);
        if (said[i] == 2) & (flags[i] == 0) & inside {
            return Some(i);
        }
    }
    None
}

// The bytes become 1 for a region in range, and not stopped, that the test paints, and 0 for every other. Each byte is written, so that
// the loop has no branch.
fn choose(range: Range, flags: &[u8], cols: &[u16], said: &mut [u8])
    requires { (length said.old ≤ length flags.now) × (length said.old ≤ length cols.now) }
    ensures { (i : ℕ) → i < length said.old → get_or said.new i 0
        ≡ cond (stands 1 range flags.now cols.now said.old i) 1 0 }
{
    for i in 0..said.len() {
        let col = cols[i];
        let inside = (range.left <= col) & (col <= range.right);
        said[i] = ((said[i] == 1) & (flags[i] == 0) & inside) as u8;
    }
}

// The regions whose byte is 1, counted from `from` on, in order, with zeros behind them, and how many they are. Each region is stored, and
// stays only if it counts: so the loop has no branch.
fn keep(from: usize, chosen: &[u8], hits: &mut [u16]) -> usize
    requires { ((i : ℕ) → i < length chosen.now → get_or chosen.now i 0 ≤ 1) × (from + length chosen.now ≤ 1024)
        × (length chosen.now < length hits.old) }
    ensures count { result ≡ length (chosen_from from chosen.now) }
    ensures hits { hits.new ≡ page_of true (length hits.old) (chosen_from from chosen.now) }
{
    hits.fill(0);
    let mut count = 0;
    for i in 0..chosen.len() {
        hits[count] = (from + i) as u16;
        count += chosen[i] as usize;
    }
    hits[count] = 0;
    count
}

// ---- the test

// The hits of a test whose bytes are known, of the regions from `from` on.
fn found_by(
    range: Range,
    from: usize,
    flags: &[u8],
    cols: &[u16],
    said: &mut [u8],
    hits: &mut [u16],
) -> Found
    requires { (from + length said.old ≤ 1024) × (length said.old < length hits.old) × (length said.old ≤ length flags.now)
        × (length said.old ≤ length cols.now) }
    ensures found { (os : List Outcome) → Tells range flags.now cols.now said.old os
        → result ≡ found_among from os }
    ensures hits { (os : List Outcome) → Tells range flags.now cols.now said.old os
        → hits.new ≡ page_of true (length hits.old) (hits_of from os) }
{
    if let Some(first) = first_unresolved(range, flags, cols, said) {
        hits.fill(0);
        return Found {
            unresolved: Some(from + first),
            count: 0,
        };
    }
    choose(range, flags, cols, said);
    let count = keep(from, said, hits);
    Found {
        unresolved: None,
        count,
    }
}

// Whether there is what `find_hits` needs for each region.
fn fits(
    from: usize,
    to: usize,
    cols: &[u16],
    flags: &[u8],
    values: &[f64],
    firsts: &[f64],
    seconds: &[f64],
    founds: &[u16],
    room: usize,
) -> bool
    ensures { result ≡ fits_hits from to (known values.now firsts.now seconds.now
        founds.now) cols.now flags.now room }
{
    if to < from {
        return false;
    }
    (to <= 1024)
        & (to - from < room)
        & (to <= cols.len())
        & (to <= flags.len())
        & (to <= values.len())
        & (to <= firsts.len())
        & (to <= seconds.len())
        & (to <= founds.len())
}

// The regions from `from` up to `to` that a test paints, in order, with zeros behind them. They stand in rows of the range: only columns
// are compared. `flags` is 0 for a region that is not stopped. Where a column ends ahead of `to`, `hits` has no room for one more than the
// regions, `to` is past 1,024 or ahead of `from`, nothing is answered and `hits` is 0.
pub fn find_hits(
    test: Test,
    range: Range,
    from: usize,
    to: usize,
    flags: &[u8],
    cols: &[u16],
    values: &[f64],
    firsts: &[f64],
    seconds: &[f64],
    founds: &[u16],
    hits: &mut [u16],
) -> Option<Found>
    ensures found { (imported : Bool) → result ≡ found_in (fits_hits from to (known values.now firsts.now
        seconds.now founds.now) cols.now flags.now (length hits.old)) from
        (outcomes_by (known values.now firsts.now seconds.now founds.now) range test imported
        cols.now flags.now from (to - from)) }
    ensures hits { (imported : Bool) → hits.new ≡ page_of (fits_hits from to (known values.now
        firsts.now seconds.now founds.now) cols.now flags.now
        (length hits.old)) (length hits.old) (hits_of from (outcomes_by (known values.now
        firsts.now seconds.now founds.now) range test imported cols.now flags.now
        from (to - from))) }
{
    if !fits(
        from,
        to,
        cols,
        flags,
        values,
        firsts,
        seconds,
        founds,
        hits.len(),
    ) {
        hits.fill(0);
        return None;
    }
    let mut said = [0u8; 1024];
    say(
        test,
        &values[from..to],
        &firsts[from..to],
        &seconds[from..to],
        &founds[from..to],
        &mut said,
    );
    Some(found_by(
        range,
        from,
        &flags[from..to],
        &cols[from..to],
        &mut said[..to - from],
        hits,
    ))
}

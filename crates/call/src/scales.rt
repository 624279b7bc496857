// The colours of the marks of colour scales: some marks at a time, first their ratios into memory of its own, then the colours. A loop that
// makes both, or that writes ratios where the numbers might stand, takes one mark at a time.
ghost use Rattle.std.specs.Prelude.{ℕ, ◌<◌, ◌≤◌, ◌+◌, ◌-◌, min, ◌≡◌, false, cond, map, leb, length, get_or};
ghost use Rattle.std.specs.Float.{nan};
ghost use Rattle.std.specs.Float.Ieee.{le};
ghost use Rattle.std.proofs.lemmas.List.Edits.{sets};
ghost use Rattle.model.specs.Ratio.{ratio, interpolate_rgb, packed};

use crate::marks::put_ratios;
use crate::stores::{put_each, space_for};
use model::Rgb;
use ratio::{blended, blended_among, place_among, place_rising};

// The places of the regions' numbers among three ends.
fn put_places(
    values: &[f64],
    hits: &[u16],
    least: f64,
    midpoint: f64,
    greatest: f64,
    n: usize,
    column: &mut [u32],
)
    requires { (k : ℕ) → k < length hits.now → get_or hits.now k 0 < length values.now }
    ensures { column.new ≡ sets column.old n (map (λ h. cond (le (get_or values.now h nan) midpoint)
        (ratio (get_or values.now h nan) least midpoint) (1_000_000 + ratio (get_or values.now h nan) midpoint greatest))
        hits.now) }
{
    if (midpoint <= least) | (greatest <= midpoint) {
        put_each(hits, n, column, |hit| {
            place_among(values[hit as usize], least, midpoint, greatest)
        });
        return;
    }
    // No half is flat.
    let lower = midpoint - least;
    let upper = greatest - midpoint;
    put_each(hits, n, column, |hit| {
        place_rising(values[hit as usize], least, midpoint, lower, upper)
    });
}

// The colours at ratios.
fn put_blends(ppms: &[u32], first: Rgb, last: Rgb, n: usize, column: &mut [u32])
    ensures { column.new ≡ sets column.old n
        (map (λ p. packed (interpolate_rgb first last (min p 1_000_000))) ppms.now) }
{
    put_each(ppms, n, column, |ppm| blended(first, last, ppm));
}

// The colours at places among three.
fn put_blends_among(
    places: &[u32],
    first: Rgb,
    middle: Rgb,
    last: Rgb,
    n: usize,
    column: &mut [u32],
)
    ensures { column.new ≡ sets column.old n (map (λ p. packed (cond (leb p 1_000_000)
        (interpolate_rgb first middle p) (interpolate_rgb middle last (min (p - 1_000_000) 1_000_000)))) places.now) }
{
    put_each(places, n, column, |place| {
        blended_among(first, middle, last, place)
    });
}

// The colours of a scale of two, of at most 64 marks.
fn put_some2(
    values: &[f64],
    hits: &[u16],
    least: f64,
    greatest: f64,
    first: Rgb,
    last: Rgb,
    n: usize,
    column: &mut [u32],
)
    requires by_index { (k : ℕ) → k < length hits.now → get_or hits.now k 0 < length values.now }
    requires hits_len_bound { length hits.now ≤ 64 }
    ensures { column.new ≡ sets column.old n (map (λ h. packed (interpolate_rgb first last
        (ratio (get_or values.now h nan) least greatest))) hits.now) }
{
    let mut ppms = [0u32; 64];
    put_ratios(values, hits, least, greatest, 0, &mut ppms);
    let count = hits.len();
    put_blends(&ppms[..count], first, last, n, column);
}

// The colours of a scale of three, of at most 64 marks.
fn put_some3(
    values: &[f64],
    hits: &[u16],
    least: f64,
    midpoint: f64,
    greatest: f64,
    first: Rgb,
    middle: Rgb,
    last: Rgb,
    n: usize,
    column: &mut [u32],
)
    requires by_index { (k : ℕ) → k < length hits.now → get_or hits.now k 0 < length values.now }
    requires hits_len_bound { length hits.now ≤ 64 }
    ensures { column.new ≡ sets column.old n (map (λ h. packed (cond (le (get_or values.now h nan)
        midpoint) (interpolate_rgb first middle (ratio (get_or values.now h nan) least midpoint)) (interpolate_rgb middle last
        (ratio (get_or values.now h nan) midpoint greatest)))) hits.now) }
{
    let mut places = [0u32; 64];
    put_places(values, hits, least, midpoint, greatest, 0, &mut places);
    let count = hits.len();
    put_blends_among(&places[..count], first, middle, last, n, column);
}

// The colours of a scale of two.
pub(crate) fn put_scale2(
    values: &[f64],
    hits: &[u16],
    least: f64,
    greatest: f64,
    first: Rgb,
    last: Rgb,
    n: usize,
    column: &mut [u32],
)
    requires { (k : ℕ) → k < length hits.now → get_or hits.now k 0 < length values.now }
    ensures { column.new ≡ sets column.old n (map (λ h. packed (interpolate_rgb first last
        (ratio (get_or values.now h nan) least greatest))) hits.now) }
{
    let end = space_for(hits.len(), n, column.len());
    let mut k = 0;
    // in steps of 64, the last one shorter, each at its place in the column
    while k < end {
        let to = if end - k < 64 { end } else { k + 64 };
        put_some2(
            values,
            &hits[k..to],
            least,
            greatest,
            first,
            last,
            n + k,
            column,
        );
        k = to;
    }
}

// The colours of a scale of three.
pub(crate) fn put_scale3(
    values: &[f64],
    hits: &[u16],
    least: f64,
    midpoint: f64,
    greatest: f64,
    first: Rgb,
    middle: Rgb,
    last: Rgb,
    n: usize,
    column: &mut [u32],
)
    requires { (k : ℕ) → k < length hits.now → get_or hits.now k 0 < length values.now }
    ensures { column.new ≡ sets column.old n (map (λ h. packed (cond (le (get_or values.now h nan)
        midpoint) (interpolate_rgb first middle (ratio (get_or values.now h nan) least midpoint)) (interpolate_rgb middle last
        (ratio (get_or values.now h nan) midpoint greatest)))) hits.now) }
{
    let end = space_for(hits.len(), n, column.len());
    let mut k = 0;
    // in steps of 64, the last one shorter, each at its place in the column
    while k < end {
        let to = if end - k < 64 { end } else { k + 64 };
        put_some3(
            values,
            &hits[k..to],
            least,
            midpoint,
            greatest,
            first,
            middle,
            last,
            n + k,
            column,
        );
        k = to;
    }
}

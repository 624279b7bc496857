// Ratio and colour: a value's place between two ends in parts per million, the shape that its ends give it, and a colour between two
// colours. Scales and bars ask for place and colour once for each region, so up to 1,000,000 neither has a branch on the value, which a
// processor would often guess wrong.
#![tactic(auto)]

ghost use Rattle.std.specs.Prelude.{◌≡◌, cond, ◌+◌, ◌-◌, ◌≤◌, min, T, leb, Float};
ghost use Rattle.std.specs.Float.{binary64};
ghost use Rattle.std.specs.Float.Ieee.{mul, le};
ghost use Rattle.model.specs.Ratio.{million_f, held_to_unit, rounded, normalized, ratio, shape_number, bar_cells};
ghost use Rattle.model.specs.Ratio.{held_to_byte, channel, interpolate_rgb, packed};
ghost use Rattle.ratio.specs.UpTo.{up_to};
ghost use Rattle.ratio.specs.Spanned.{spanned};

use model::{Normalized, Rgb, Shape};
use readings::number::is_finite;

// ---- ratio

// Rust's `x.clamp(0.0, 1.0)`, but 0 for -0 and not-a-number: a million times any of them rounds to 0.
fn held_to_unit(x: f64) -> f64
    ensures unit { T (up_to 1 result) }
    ensures same { rounded (mul binary64 result million_f) ≡ rounded (mul binary64 (held_to_unit x) million_f) }
{
    let y = if x > 0.0 { x } else { 0.0 };
    if y < 1.0 { y } else { 1.0 }
}

// Rust's `x.round() as u32` of 0 to 1,000,000. From 2^52 to 2^53 the floats are the whole numbers, so w is the whole number
// nearest to x, and of two as near the even one: where x is a half above w, the next is the one away from zero.
fn rounded(x: f64) -> u32
    requires { T (up_to 1_000_000 x) }
    ensures { result ≡ rounded x }
{
    let y = x + 4_503_599_627_370_496.0;
    let w = y - 4_503_599_627_370_496.0;
    ((f64::to_bits(y) % 4_294_967_296) as u32) + ((w + 0.5 <= x) as u32)
}

// Port of normalized_ppm (conditional.rs).
pub fn normalized_ppm(value: f64, minimum: f64, maximum: f64) -> u32
    ensures { result ≡ ratio value minimum maximum }
{
    let ppm = rounded(held_to_unit((value - minimum) / (maximum - minimum)) * 1_000_000.0);
    if maximum <= minimum { 1_000_000 } else { ppm }
}

// The shape of a ratio between these ends: the value has no part in it.
pub fn shape_of(minimum: f64, maximum: f64) -> Shape
    ensures { (value : Float) → result ≡ (normalized value minimum maximum).shape }
{
    if maximum <= minimum {
        return Shape::Flat;
    }
    if is_finite(maximum - minimum) {
        return Shape::Plain;
    }
    Shape::TooWide
}

// The number of a shape, as the shape column holds it.
pub fn shape_number(shape: Shape) -> u32
    ensures { result ≡ shape_number shape }
{
    match shape {
        Shape::Plain => 0,
        Shape::Flat => 1,
        Shape::TooWide => 2,
    }
}

// A ratio with its shape.
pub fn normalized_ratio(value: f64, minimum: f64, maximum: f64) -> Normalized
    ensures { result ≡ normalized value minimum maximum }
{
    let ppm = normalized_ppm(value, minimum, maximum);
    let shape = shape_of(minimum, maximum);
    Normalized { ppm, shape }
}

// The place of a value among three ends, in parts per million of the half where it lies, and 1,000,000 more in the upper half: the midpoint
// belongs to the lower half.
pub fn place_among(x: f64, least: f64, midpoint: f64, greatest: f64) -> u32
    ensures { result ≡ cond (le x midpoint) (ratio x least midpoint) (1_000_000 + ratio x midpoint greatest) }
{
    if x <= midpoint {
        return normalized_ppm(x, least, midpoint);
    }
    normalized_ppm(x, midpoint, greatest) + 1_000_000
}

// The place of a value in a span, in parts per million of it.
fn place_in(value: f64, low: f64, span: f64) -> u32
    ensures { result ≡ spanned value low span }
{
    rounded(held_to_unit((value - low) / span) * 1_000_000.0)
}

// The place of a value among three ends of which no two are flat, by the spans of the two halves. The low end and the span of the half are
// chosen, so that one quotient serves both.
pub fn place_rising(x: f64, least: f64, midpoint: f64, lower: f64, upper: f64) -> u32
    ensures { result ≡ cond (le x midpoint) (spanned x least lower) (1_000_000 + spanned x midpoint upper) }
{
    let low = if x <= midpoint { least } else { midpoint };
    let span = if x <= midpoint { lower } else { upper };
    let more = if x <= midpoint { 0 } else { 1_000_000 };
    place_in(x, low, span) + more
}

// How many of forty cells a bar fills: none at 0 ppm, and otherwise at least one.
pub fn bar_cells(ppm: u32) -> u32
    ensures { result ≡ bar_cells ppm }
{
    let cells = (40 * (ppm as u64) / 1_000_000) as u32;
    cells.max(ppm.min(1))
}

// ---- colour

fn held_to_byte(q: i64) -> u8
    ensures { result ≡ held_to_byte q }
{
    q.clamp(0, 255) as u8
}

// `channel` at a ratio of at most 1,000,000: the channel is between its ends, so a u32 holds each part and nothing is to be held.
// 256 more keep the step above zero, so that one product serves a channel that rises and one that falls.
fn channel_within(start: u8, end: u8, ppm: u32) -> u8
    requires { ppm ≤ 1_000_000 }
    ensures { result ≡ channel start end ppm }
{
    let raised = (start as u32) * 1_000_000 + 500_000;
    let step = (end as u32) + 256 - (start as u32);
    ((raised + step * ppm - 256 * ppm) / 1_000_000) as u8
}

// Port of the closure `channel` in interpolate_rgb (conditional.rs).
pub fn channel(start: u8, end: u8, ppm: u32) -> u8
    ensures { result ≡ channel start end ppm }
{
    if ppm <= 1_000_000 {
        return channel_within(start, end, ppm);
    }
    let delta = (end as i64) - (start as i64);
    let scaled = (start as i64) * 1_000_000 + delta * (ppm as i64);
    held_to_byte((scaled + 500_000) / 1_000_000)
}

// Port of interpolate_rgb (conditional.rs).
pub fn interpolate_rgb(start: Rgb, end: Rgb, ppm: u32) -> Rgb
    ensures { result ≡ interpolate_rgb start end ppm }
{
    Rgb {
        red: channel(start.red, end.red, ppm),
        green: channel(start.green, end.green, ppm),
        blue: channel(start.blue, end.blue, ppm),
    }
}

// `interpolate_rgb` at a ratio of at most 1,000,000, with no branch on the ratio.
fn interpolate_within(start: Rgb, end: Rgb, ppm: u32) -> Rgb
    requires { ppm ≤ 1_000_000 }
    ensures { result ≡ interpolate_rgb start end ppm }
{
    Rgb {
        red: channel_within(start.red, end.red, ppm),
        green: channel_within(start.green, end.green, ppm),
        blue: channel_within(start.blue, end.blue, ppm),
    }
}

// A colour as the colour column holds it.
pub fn packed(c: Rgb) -> u32
    ensures { result ≡ packed c }
{
    (c.red as u32) * 65_536 + (c.green as u32) * 256 + (c.blue as u32)
}

// ---- colour scales, as the colour column holds them

// The colour of the arm CfRule::ColorScale2 of resolve_conditional_paints (conditional.rs) at a ratio; no ratio is above 1,000,000.
pub fn blended(first: Rgb, last: Rgb, ppm: u32) -> u32
    ensures { result ≡ packed (interpolate_rgb first last (min ppm 1_000_000)) }
{
    packed(interpolate_within(first, last, ppm.min(1_000_000)))
}

// A channel at a place among three colours: it goes one product from the first to the middle, and another from there to the last.
fn channel_among(first: u8, middle: u8, last: u8, place: u32) -> u8
    requires { place ≤ 2_000_000 }
    ensures { result ≡ cond (leb place 1_000_000) (channel first middle place) (channel middle last (place - 1_000_000)) }
{
    let lower = place.min(1_000_000);
    let raised = 1_000_000 * (first as u32) + 500_000;
    let rise = (middle as u32) + 256 - (first as u32);
    let onward = (last as u32) + 256 - (middle as u32);
    ((raised + rise * lower + onward * (place - lower) - 256 * place) / 1_000_000) as u8
}

fn interpolate_among(first: Rgb, middle: Rgb, last: Rgb, place: u32) -> Rgb
    requires { place ≤ 2_000_000 }
    ensures { result ≡ cond (leb place 1_000_000) (interpolate_rgb first middle place) (interpolate_rgb middle last (place - 1_000_000)) }
{
    Rgb {
        red: channel_among(first.red, middle.red, last.red, place),
        green: channel_among(first.green, middle.green, last.green, place),
        blue: channel_among(first.blue, middle.blue, last.blue, place),
    }
}

// The colour of the arm CfRule::ColorScale3 at a place as `place_among` gives it; none is above 2,000,000.
pub fn blended_among(first: Rgb, middle: Rgb, last: Rgb, place: u32) -> u32
    ensures { result ≡ packed (cond (leb place 1_000_000) (interpolate_rgb first middle place)
        (interpolate_rgb middle last (min (place - 1_000_000) 1_000_000))) }
{
    packed(interpolate_among(first, middle, last, place.min(2_000_000)))
}

// What a rule leaves in the columns, by the regions that it paints: its marks, each column by itself, its bars and its stops.
ghost use Rattle.std.specs.Prelude.{ℕ, ◌<◌, ◌≤◌, ◌-◌, min, ◌≡◌, Bool, cond, List, map, Float, length, get_or, replicate, All};
ghost use Rattle.std.specs.Float.{nan};
ghost use Rattle.std.proofs.lemmas.List.Edits.{sets};
ghost use Rattle.model.specs.Ratio.{ratio};
ghost use Rattle.plans.specs.Plans.{is_bar_test};
ghost use Rattle.hits.specs.Painted.{kind_by, fill_by, colour_by, ppm_by};
ghost use Rattle.turns.specs.Emit.{mark_columns, hit_mark, put_marks, bar_columns, draw_hit, draw_hits, stop_hits};

use crate::scales::{put_scale2, put_scale3};
use crate::shapes::put_shapes;
use crate::stores::{put_each, put_same};
use model::Test;
use ratio::{normalized_ppm, packed};

// ---- one column of the marks from place n on

// The regions themselves.
fn put_regions(hits: &[u16], n: usize, column: &mut [u32])
    ensures { column.new ≡ sets column.old n hits.now }
{
    put_each(hits, n, column, |hit| hit as u32);
}

// The ratios of the regions' numbers.
pub(crate) fn put_ratios(
    values: &[f64],
    hits: &[u16],
    least: f64,
    greatest: f64,
    n: usize,
    column: &mut [u32],
)
    requires { (k : ℕ) → k < length hits.now → get_or hits.now k 0 < length values.now }
    ensures { column.new ≡ sets column.old n
        (map (λ h. ratio (get_or values.now h nan) least greatest) hits.now) }
{
    put_each(hits, n, column, |hit| {
        normalized_ppm(values[hit as usize], least, greatest)
    });
}

// ---- the fields of a mark

fn kind_by(test: Test, imported: bool) -> u32
    ensures { result ≡ kind_by test imported }
{
    match test {
        Test::DataBar { .. } => { if imported { 4 } else { 3 } }
        _ => { if imported { 2 } else { 1 } }
    }
}

// The colour of a test that has one for all its marks; of a scale 0.
fn fill_by(test: Test) -> u32
    ensures { result ≡ fill_by test }
{
    match test {
        Test::CellIs { fill, .. } => packed(fill),
        Test::ColorScale2 { .. } => 0,
        Test::ColorScale3 { .. } => 0,
        Test::DataBar { color, .. } => packed(color),
        Test::TopBottom { fill, .. } => packed(fill),
        Test::AboveAverage { fill, .. } => packed(fill),
        Test::DuplicateValues { fill, .. } => packed(fill),
        Test::Expression { fill, .. } => packed(fill),
    }
}

fn put_colours(
    test: Test,
    imported: bool,
    values: &[f64],
    hits: &[u16],
    n: usize,
    column: &mut [u32],
)
    requires { (k : ℕ) → k < length hits.now → get_or hits.now k 0 < length values.now }
    ensures { column.new ≡ sets column.old n
        (map (λ h. colour_by test imported (get_or values.now h nan)) hits.now) }
{
    if let Test::DataBar { color, .. } = test {
        put_same(packed(color), hits.len(), n, column);
        return;
    }
    if imported {
        put_same(0, hits.len(), n, column);
        return;
    }
    match test {
        Test::ColorScale2 {
            min,
            max,
            least,
            greatest,
        } => put_scale2(values, hits, least, greatest, min, max, n, column),
        Test::ColorScale3 {
            min,
            mid,
            max,
            least,
            midpoint,
            greatest,
        } => put_scale3(
            values, hits, least, midpoint, greatest, min, mid, max, n, column,
        ),
        _ => put_same(fill_by(test), hits.len(), n, column),
    }
}

fn put_ppms(test: Test, values: &[f64], hits: &[u16], n: usize, column: &mut [u32])
    requires { (k : ℕ) → k < length hits.now → get_or hits.now k 0 < length values.now }
    ensures { column.new ≡ sets column.old n
        (map (λ h. ppm_by test (get_or values.now h nan)) hits.now) }
{
    if let Test::DataBar {
        least,
        greatest,
        ..
    } = test
    {
        put_ratios(values, hits, least, greatest, n, column);
        return;
    }
    put_same(0, hits.len(), n, column);
}

// The marks of a rule from place n on.
pub(crate) fn put_marks(
    test: Test,
    imported: bool,
    rule: u8,
    n: usize,
    values: &[f64],
    hits: &[u16],
    regions: &mut [u32],
    rules: &mut [u32],
    kinds: &mut [u32],
    colours: &mut [u32],
    ppms: &mut [u32],
    shapes: &mut [u32],
)
    requires { (k : ℕ) → k < length hits.now → get_or hits.now k 0 < length values.now }
    ensures { mark_columns regions.new rules.new kinds.new colours.new ppms.new
        shapes.new
        ≡ put_marks (mark_columns regions.old rules.old kinds.old colours.old ppms.old
        shapes.old)
        n (map (hit_mark test imported values.now rule) hits.now) }
{
    put_regions(hits, n, regions);
    put_same(rule as u32, hits.len(), n, rules);
    put_same(kind_by(test, imported), hits.len(), n, kinds);
    put_colours(test, imported, values, hits, n, colours);
    put_ppms(test, values, hits, n, ppms);
    put_shapes(test, values, hits, n, shapes);
}

// ---- bars and stops

// The bar of a region with the number x, where it has none yet: only then is its ratio worked out. Port of the bars of
// apply_conditional_paint (conditional.rs).
fn draw_bar(
    rule: u8,
    x: f64,
    least: f64,
    greatest: f64,
    region: usize,
    rules: &mut [u32],
    ppms: &mut [u32],
)
    ensures { bar_columns rules.new ppms.new
        ≡ draw_hit rule (ratio x least greatest) region (bar_columns rules.old ppms.old) }
{
    if lent::at(rules, region, 0) != 0 {
        return;
    }
    let ppm = normalized_ppm(x, least, greatest);
    if region < rules.len() {
        rules[region] = rule as u32 + 1;
    }
    if region < ppms.len() {
        ppms[region] = ppm;
    }
}

// The bars of a rule: a region keeps its first one.
fn draw_hits(
    rule: u8,
    values: &[f64],
    hits: &[u16],
    least: f64,
    greatest: f64,
    rules: &mut [u32],
    ppms: &mut [u32],
)
    requires { (k : ℕ) → k < length hits.now → get_or hits.now k 0 < length values.now }
    ensures { bar_columns rules.new ppms.new
        ≡ draw_hits rule (λ h. ratio (get_or values.now h nan) least greatest) hits.now
        (bar_columns rules.old ppms.old) }
{
    for hit in hits {
        let region = *hit as usize;
        draw_bar(rule, values[region], least, greatest, region, rules, ppms);
    }
}

// The same of any test: only a bar test has bars.
pub(crate) fn draw_bars(
    test: Test,
    rule: u8,
    values: &[f64],
    hits: &[u16],
    rules: &mut [u32],
    ppms: &mut [u32],
)
    requires { (k : ℕ) → k < length hits.now → get_or hits.now k 0 < length values.now }
    ensures { bar_columns rules.new ppms.new ≡ cond (is_bar_test test) (draw_hits rule
        (λ h. ppm_by test (get_or values.now h nan)) hits.now (bar_columns rules.old ppms.old))
        (bar_columns rules.old ppms.old) }
{
    if let Test::DataBar {
        least,
        greatest,
        ..
    } = test
    {
        draw_hits(rule, values, hits, least, greatest, rules, ppms);
    }
}

// The stop flags after a rule: a mark of a rule with stop-if-true stops its region. Port of the stops of apply_conditional_paint
// (conditional.rs).
pub(crate) fn stop_regions(stop: bool, hits: &[u16], flags: &mut [u8])
    ensures { flags.new ≡ cond stop (stop_hits hits.now flags.old) flags.old }
{
    if !stop {
        return;
    }
    for hit in hits {
        let region = *hit as usize;
        if region < flags.len() {
            flags[region] = 1;
        }
    }
}

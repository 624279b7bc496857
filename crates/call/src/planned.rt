// What a rule comes to, by the tables of the job, with the values of its range in lent scratch.
ghost use Rattle.std.specs.Prelude.{ℕ, ◌<◌, ◌≤◌, ◌-◌, ◌≡◌, true, false, List, length, get_or};
ghost use Rattle.std.proofs.Math.Option.{none};
ghost use Rattle.charging.specs.declared.Counter.{Counter};
ghost use Rattle.model.specs.declared.CellCoordinate.{CellCoordinate};
ghost use Rattle.model.specs.declared.CfRule.{CfRule};
ghost use Rattle.model.specs.declared.Plan.{Plan};
ghost use Rattle.model.specs.declared.Span.{Span};
ghost use Rattle.model.specs.declared.Test.{Test};
ghost use Rattle.model.specs.Job.{first_fall};
ghost use Rattle.model.specs.Rule.{cells_in, numbers, covered, plan_of, plan};
ghost use Rattle.model.specs.Sheet.{CellColumns, upright};
ghost use Rattle.cells.specs.Columns.{columns, cells_of};
ghost use Rattle.ranges.specs.Turns.{sheet_from};
ghost use Rattle.plans.specs.Plans.{takes_values, plan_of_values};
ghost use Rattle.turns.specs.Bands.{BandOf};
ghost use Rattle.order.specs.Order.{is_duplicates};
ghost use Rattle.call.specs.Tables.{Numbered, AllNumbers, Followed, Banded, CellsCounted, Coded, coded_from, Founded};

use crate::Band;
use crate::counts::count_keys;
use crate::gathered::{are_values, gather};
use charging::Charged;
use model::{CfRule, Plan, Range, Rgb, Rule, Test};
use plans::{plan_of_numbers, plan_of_operands, plan_of_values, takes_values};
use ranges::within_grid;

// By the values of the range. Where each cell of the band is in range and has a number, the values are the band's floats one by one, which
// are not copied.
fn plan_by_values(
    kind: CfRule,
    range: Range,
    band: Band,
    inside: usize,
    numeric: bool,
    rows: &[u32],
    cols: &[u16],
    floats: &[f64],
    scratch: &mut [f64],
) -> Plan
    requires cols_value { (first_fall rows.now cols.now ≡ none) × (length rows.now ≤ length cols.now) × (band.from ≤ band.to)
        × (band.to ≤ length rows.now) × (band.to ≤ length floats.now) × (band.to - band.from ≤ length scratch.old) }
    requires all_numbers { numeric ≡ true → AllNumbers floats.now }
    ensures { (kinds wraps nums ats lens : List ℕ) → BandOf range rows.now band.from band.to
        → inside ≡ length (cells_in range (cells_of (columns rows.now cols.now kinds wraps nums ats lens)))
        → Numbered (columns rows.now cols.now kinds wraps nums ats lens) floats.now
        → result ≡ plan_of_values kind (numbers (cells_in range (cells_of (columns rows.now cols.now kinds wraps nums ats
        lens)))) }
{
    if are_values(inside, numeric, band, floats) {
        let from = band.from;
        let to = band.to;
        if let Some(plan) = plan_of_numbers(kind, &floats[from..to]) {
            return plan;
        }
    }
    let count = gather(range, band, rows, cols, floats, scratch);
    plan_of_values(kind, &mut scratch[..count])
}

// Whether each coordinate of an upright range has a cell with a key: as many cells in range as it has coordinates, and none without a key.
fn is_covered(range: Range, inside: usize, keyless: u16) -> bool
    ensures { (c : CellColumns) (codes pool : List ℕ) (regions : List CellCoordinate) (name : Span) → upright range ≡ true
        → first_fall c.rows c.cols ≡ none → length c.rows ≤ 1024 → inside ≡ length (cells_in range (cells_of c))
        → Coded pool c codes → keyless ≡ coded_from range c.rows c.cols codes 0 0 (length c.rows)
        → result ≡ covered (sheet_from (cells_of c) regions pool name) range }
{
    if keyless != 0 {
        return false;
    }
    inside as u64 == ranges::area(range)
}

// Port of the arm CfRule::DuplicateValues (conditional.rs) up to its regions, without its charge. The counts of the regions' keys are left
// in `founds`.
fn plan_of_duplicates(
    unique: bool,
    fill: Rgb,
    range: Range,
    band: Band,
    inside: usize,
    regions: Band,
    rows: &[u32],
    cols: &[u16],
    codes: &[u16],
    places: &[u16],
    region_rows: &[u32],
    region_cols: &[u16],
    founds: &mut [u16],
) -> Plan
    requires cols_value { (first_fall rows.now cols.now ≡ none) × (length rows.now ≤ length cols.now) × (band.to ≤ length rows.now)
        × (band.from ≤ band.to) × (band.to ≤ 1024) × (band.to ≤ length codes.now) }
    requires region_cols_value { (first_fall region_rows.now region_cols.now ≡ none) × (length region_rows.now ≤ length region_cols.now)
        × (regions.to ≤ length region_rows.now) × (regions.from ≤ regions.to) × (regions.to ≤ length founds.old) }
    requires by_index { (i : ℕ) → get_or codes.now i 0 < 1025 }
    ensures plan { (kinds wraps nums ats lens pool : List ℕ) (sheetRegions : List CellCoordinate) (name : Span)
        → upright range ≡ true → Banded range (columns rows.now cols.now kinds wraps nums ats lens) band.from band.to
        → inside ≡ length (cells_in range (cells_of (columns rows.now cols.now kinds wraps nums ats lens)))
        → Coded pool (columns rows.now cols.now kinds wraps nums ats lens) codes.now
        → result ≡ plan_of (sheet_from (cells_of (columns rows.now cols.now kinds wraps nums ats lens)) sheetRegions pool name) range
        (CfRule.DuplicateValues unique fill) }
    ensures founds { (kinds wraps nums ats lens pool : List ℕ) (test : Test) → upright range ≡ true
        → Banded range (columns rows.now cols.now kinds wraps nums ats lens) band.from band.to
        → BandOf range region_rows.now regions.from regions.to
        → inside ≡ length (cells_in range (cells_of (columns rows.now cols.now kinds wraps nums ats lens)))
        → Coded pool (columns rows.now cols.now kinds wraps nums ats lens) codes.now
        → Followed (columns rows.now cols.now kinds wraps nums ats lens) region_rows.now region_cols.now places.now
        → result ≡ Plan.Tested test
        → Founded pool (columns rows.now cols.now kinds wraps nums ats lens) range region_rows.now region_cols.now founds.new }
{
    if !within_grid(range) {
        return Plan::Deferred;
    }
    let keyless = count_keys(
        range,
        band,
        regions,
        rows,
        cols,
        codes,
        places,
        region_rows,
        region_cols,
        founds,
    );
    if !is_covered(range, inside, keyless) {
        return Plan::Deferred;
    }
    Plan::Tested(Test::DuplicateValues { unique, fill })
}

// Of the kinds that take no values.
fn plan_without_values(
    kind: CfRule,
    range: Range,
    band: Band,
    inside: usize,
    regions: Band,
    rows: &[u32],
    cols: &[u16],
    codes: &[u16],
    places: &[u16],
    region_rows: &[u32],
    region_cols: &[u16],
    founds: &mut [u16],
) -> Plan
    requires cols_value { (first_fall rows.now cols.now ≡ none) × (length rows.now ≤ length cols.now) × (band.to ≤ length rows.now)
        × (band.from ≤ band.to) × (band.to ≤ 1024) × (band.to ≤ length codes.now) }
    requires region_cols_value { (first_fall region_rows.now region_cols.now ≡ none) × (length region_rows.now ≤ length region_cols.now)
        × (regions.to ≤ length region_rows.now) × (regions.from ≤ regions.to) × (regions.to ≤ length founds.old) }
    requires by_index { ((i : ℕ) → get_or codes.now i 0 < 1025) × (takes_values kind ≡ false) }
    ensures plan { (kinds wraps nums ats lens pool : List ℕ) (sheetRegions : List CellCoordinate) (name : Span)
        → upright range ≡ true → Banded range (columns rows.now cols.now kinds wraps nums ats lens) band.from band.to
        → CellsCounted kind range (columns rows.now cols.now kinds wraps nums ats lens) inside
        → (is_duplicates kind ≡ true → Coded pool (columns rows.now cols.now kinds wraps nums ats lens) codes.now)
        → result ≡ plan_of (sheet_from (cells_of (columns rows.now cols.now kinds wraps nums ats lens)) sheetRegions pool name) range kind }
    ensures founds { (kinds wraps nums ats lens pool : List ℕ) (test : Test) → upright range ≡ true
        → Banded range (columns rows.now cols.now kinds wraps nums ats lens) band.from band.to
        → BandOf range region_rows.now regions.from regions.to → is_duplicates kind ≡ true
        → CellsCounted kind range (columns rows.now cols.now kinds wraps nums ats lens) inside
        → Coded pool (columns rows.now cols.now kinds wraps nums ats lens) codes.now
        → Followed (columns rows.now cols.now kinds wraps nums ats lens) region_rows.now region_cols.now places.now
        → result ≡ Plan.Tested test
        → Founded pool (columns rows.now cols.now kinds wraps nums ats lens) range region_rows.now region_cols.now founds.new }
{
    match kind {
        CfRule::DuplicateValues { unique, fill } => plan_of_duplicates(
            unique,
            fill,
            range,
            band,
            inside,
            regions,
            rows,
            cols,
            codes,
            places,
            region_rows,
            region_cols,
            founds,
        ),
        _ => plan_of_operands(kind),
    }
}

// What a rule comes to.
fn plan_rule(
    rule: Rule,
    band: Band,
    inside: usize,
    numeric: bool,
    regions: Band,
    rows: &[u32],
    cols: &[u16],
    floats: &[f64],
    codes: &[u16],
    places: &[u16],
    region_rows: &[u32],
    region_cols: &[u16],
    founds: &mut [u16],
    scratch: &mut [f64],
) -> Plan
    requires cols_value { (first_fall rows.now cols.now ≡ none) × (length rows.now ≤ length cols.now) × (band.to ≤ length rows.now)
        × (band.from ≤ band.to) × (band.to ≤ 1024) × (band.to ≤ length codes.now) }
    requires region_cols_value { (first_fall region_rows.now region_cols.now ≡ none) × (length region_rows.now ≤ length region_cols.now)
        × (regions.to ≤ length region_rows.now) × (regions.from ≤ regions.to) × (regions.to ≤ length founds.old) }
    requires by_index { ((i : ℕ) → get_or codes.now i 0 < 1025) × (band.to ≤ length floats.now)
        × (band.to - band.from ≤ length scratch.old) × (numeric ≡ true → AllNumbers floats.now) }
    ensures plan { (kinds wraps nums ats lens pool : List ℕ) (sheetRegions : List CellCoordinate) (name : Span)
        → Banded rule.range (columns rows.now cols.now kinds wraps nums ats lens) band.from band.to
        → CellsCounted rule.kind rule.range (columns rows.now cols.now kinds wraps nums ats lens) inside
        → Numbered (columns rows.now cols.now kinds wraps nums ats lens) floats.now
        → (is_duplicates rule.kind ≡ true → Coded pool (columns rows.now cols.now kinds wraps nums ats lens) codes.now)
        → result ≡ plan (sheet_from (cells_of (columns rows.now cols.now kinds wraps nums ats lens)) sheetRegions pool name) rule }
    ensures founds { (kinds wraps nums ats lens pool : List ℕ) (test : Test)
        → Banded rule.range (columns rows.now cols.now kinds wraps nums ats lens) band.from band.to
        → BandOf rule.range region_rows.now regions.from regions.to → is_duplicates rule.kind ≡ true
        → CellsCounted rule.kind rule.range (columns rows.now cols.now kinds wraps nums ats lens) inside
        → Coded pool (columns rows.now cols.now kinds wraps nums ats lens) codes.now
        → Followed (columns rows.now cols.now kinds wraps nums ats lens) region_rows.now region_cols.now places.now
        → result ≡ Plan.Tested test
        → Founded pool (columns rows.now cols.now kinds wraps nums ats lens) rule.range region_rows.now region_cols.now founds.new }
{
    let range = rule.range;
    let kind = rule.kind;
    if !ranges::upright(range) {
        return Plan::Deferred;
    }
    if takes_values(kind) {
        return plan_by_values(
            kind, range, band, inside, numeric, rows, cols, floats, scratch,
        );
    }
    plan_without_values(
        kind,
        range,
        band,
        inside,
        regions,
        rows,
        cols,
        codes,
        places,
        region_rows,
        region_cols,
        founds,
    )
}

// The same where the charges ahead of the regions are accepted. Else no work is done.
pub(crate) fn plan_within(
    charged: Charged,
    rule: Rule,
    band: Band,
    inside: usize,
    numeric: bool,
    regions: Band,
    rows: &[u32],
    cols: &[u16],
    floats: &[f64],
    codes: &[u16],
    places: &[u16],
    region_rows: &[u32],
    region_cols: &[u16],
    founds: &mut [u16],
    scratch: &mut [f64],
) -> Plan
    requires cols_value { (first_fall rows.now cols.now ≡ none) × (length rows.now ≤ length cols.now) × (band.to ≤ length rows.now)
        × (band.from ≤ band.to) × (band.to ≤ 1024) × (band.to ≤ length codes.now) }
    requires region_cols_value { (first_fall region_rows.now region_cols.now ≡ none) × (length region_rows.now ≤ length region_cols.now)
        × (regions.to ≤ length region_rows.now) × (regions.from ≤ regions.to) × (regions.to ≤ length founds.old) }
    requires by_index { ((i : ℕ) → get_or codes.now i 0 < 1025) × (band.to ≤ length floats.now)
        × (band.to - band.from ≤ length scratch.old) × (numeric ≡ true → AllNumbers floats.now) }
    ensures plan { (kinds wraps nums ats lens pool : List ℕ) (sheetRegions : List CellCoordinate) (name : Span)
        (counter : Counter) → charged ≡ Ok counter
        → Banded rule.range (columns rows.now cols.now kinds wraps nums ats lens) band.from band.to
        → CellsCounted rule.kind rule.range (columns rows.now cols.now kinds wraps nums ats lens) inside
        → Numbered (columns rows.now cols.now kinds wraps nums ats lens) floats.now
        → (is_duplicates rule.kind ≡ true → Coded pool (columns rows.now cols.now kinds wraps nums ats lens) codes.now)
        → result ≡ plan (sheet_from (cells_of (columns rows.now cols.now kinds wraps nums ats lens)) sheetRegions pool name) rule }
    ensures founds { (kinds wraps nums ats lens pool : List ℕ) (test : Test)
        → Banded rule.range (columns rows.now cols.now kinds wraps nums ats lens) band.from band.to
        → BandOf rule.range region_rows.now regions.from regions.to → is_duplicates rule.kind ≡ true
        → CellsCounted rule.kind rule.range (columns rows.now cols.now kinds wraps nums ats lens) inside
        → Coded pool (columns rows.now cols.now kinds wraps nums ats lens) codes.now
        → Followed (columns rows.now cols.now kinds wraps nums ats lens) region_rows.now region_cols.now places.now
        → result ≡ Plan.Tested test
        → Founded pool (columns rows.now cols.now kinds wraps nums ats lens) rule.range region_rows.now region_cols.now founds.new }
    ensures refused { (test : Test) → result ≡ Plan.Tested test → (counter : Counter) × (charged ≡ Ok counter) }
{
    if charged.is_err() {
        return Plan::Deferred;
    }
    plan_rule(
        rule,
        band,
        inside,
        numeric,
        regions,
        rows,
        cols,
        floats,
        codes,
        places,
        region_rows,
        region_cols,
        founds,
        scratch,
    )
}

// What a rule charges ahead of its regions, and how many cells are in range.
ghost use Rattle.std.specs.Prelude.{ℕ, ◌≤◌, ◌≡◌, ◌&&◌, List, length};
ghost use Rattle.charging.specs.declared.Counter.{Counter};
ghost use Rattle.charging.specs.Charge.{spend};
ghost use Rattle.model.specs.declared.CellCoordinate.{CellCoordinate};
ghost use Rattle.model.specs.declared.Span.{Span};
ghost use Rattle.model.specs.Sheet.{CellColumns, within_grid};
ghost use Rattle.model.specs.Rule.{ahead};
ghost use Rattle.cells.specs.Columns.{columns, cells_of};
ghost use Rattle.ranges.specs.Turns.{sheet_from};
ghost use Rattle.turns.specs.Bands.{BandOf};
ghost use Rattle.order.specs.Order.{is_duplicates};
ghost use Rattle.turns.specs.Step.{ahead_of_regions};
ghost use Rattle.call.specs.Tables.{CellsCounted};

use crate::Band;
use crate::bands::cells_in;
use charging::{Charged, Counter};
use model::{CfRule, Range, Rule};
use plans::takes_values;
use ranges::within_grid;

// Whether the area of an upright range is charged at once.
fn charges_area(kind: CfRule, range: Range) -> bool
    ensures { result ≡ (is_duplicates kind && within_grid range) }
{
    match kind {
        CfRule::DuplicateValues { .. } => within_grid(range),
        _ => false,
    }
}

// How many cells are in range, where a kind asks for them and no charge is refused. Else none is looked at.
pub(crate) fn cells_asked(
    kind: CfRule,
    charged: Charged,
    range: Range,
    band: Band,
    cols: &[u16],
) -> usize
    requires { (band.from ≤ band.to) × (band.to ≤ 1024) × (band.to ≤ length cols.now) }
    ensures { (rows kinds wraps nums ats lens : List ℕ) (counter : Counter) → charged ≡ Ok counter
        → BandOf range rows band.from band.to
        → CellsCounted kind range (columns rows cols.now kinds wraps nums ats lens) result }
{
    if charged.is_err() {
        return 0;
    }
    match kind {
        CfRule::CellIs { .. } => 0,
        CfRule::Expression { .. } => 0,
        _ => cells_in(range, band, cols),
    }
}

// What a rule charges ahead of its regions, by how many cells are in range. What the cells hold has no part in it.
fn charge_ahead(rule: Rule, counter: Counter, limit: u64, inside: usize) -> Charged
    ensures { (c : CellColumns) (regions : List CellCoordinate) (pool : List ℕ) (name : Span)
        → CellsCounted rule.kind rule.range c inside
        → result ≡ spend limit counter.count (ahead (sheet_from (cells_of c) regions pool name) rule) }
{
    let range = rule.range;
    let kind = rule.kind;
    if !ranges::upright(range) {
        return Ok(counter);
    }
    if takes_values(kind) {
        return counter.charge_times(inside as u64, limit);
    }
    if charges_area(kind, range) {
        return counter.charge_area(ranges::area(range), limit);
    }
    Ok(counter)
}

// The same after the charges so far. Nothing is charged once a charge is refused.
pub(crate) fn charge_after(rule: Rule, charged: Charged, limit: u64, inside: usize) -> Charged
    ensures { (c : CellColumns) (regions : List CellCoordinate) (pool : List ℕ) (name : Span)
        → ((counter : Counter) → charged ≡ Ok counter → CellsCounted rule.kind rule.range c inside)
        → result ≡ ahead_of_regions (sheet_from (cells_of c) regions pool name) rule limit charged }
{
    charged.and_then(|counter| charge_ahead(rule, counter, limit, inside))
}

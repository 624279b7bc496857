// The rules of a job in their order: each is decided, then its marks, stops and bars are written out. The cells and the regions rise.
ghost use Rattle.std.specs.Prelude.{ℕ, ◌+◌, ◌<◌, ◌≤◌, ◌≡◌, Bool, true, false, cond, List, [], Float, length, get_or, take, replicate, IfSome, MatchOption};
ghost use Rattle.std.specs.Option.{is_some};
ghost use Rattle.std.proofs.Math.Option.{none};
ghost use Rattle.model.specs.declared.Outcome.{Outcome};
ghost use Rattle.model.specs.declared.Rule.{Rule};
ghost use Rattle.model.specs.Job.{first_fall};
ghost use Rattle.model.specs.Ratio.{zero_f};
ghost use Rattle.order.specs.Order.{order_of, ordered_rules};
ghost use Rattle.cells.specs.Columns.{columns};
ghost use Rattle.plans.specs.Plans.{is_bar_test};
ghost use Rattle.hits.specs.Hits.{known, hits_from, fits_hits, live_from};
ghost use Rattle.turns.specs.Step.{judged_as, judged_of, outcomes_from, step_from, step_of};
ghost use Rattle.turns.specs.Emit.{mark_columns, bar_columns, Paints};
ghost use Rattle.turns.specs.Knowing.{counts_keys};
ghost use Rattle.turns.specs.Bands.{BandOf};
ghost use Rattle.turns.specs.Turns.{state_of, ran_none, indexed, turn, left, left_by, sheet_in, say_in, run_in};
ghost use Rattle.call.specs.Tables.{Numbered, AllNumbers, Valued, Coded, Founded, Tabled};
ghost use Rattle.call.specs.Decides.{Decides};

use crate::ahead::{cells_asked, charge_after};
use crate::bands::band_of;
use crate::gathered::all_numeric;
use crate::marks::{draw_bars, put_marks, stop_regions};
use crate::numbers::{number_cells, number_regions};
use crate::operands::find_operands;
use crate::picked::find_within;
use crate::planned::plan_within;
use crate::{Band, Decided};
use charging::{Charged, Counter};
use hits::{Found, live};
use model::{Plan, Rgb, Rule, Rules, Span, Test};
use places::walk_cells;
use settling::Ran;

// ---- a rule up to its marks

#[tactic(auto, unfolding(plans::specs::Plans::is_bar_test))]
fn is_bar_test(test: Test) -> bool
    ensures { result ≡ is_bar_test test }
{
    matches!(test, Test::DataBar { .. })
}

// A test that stands where there is none: no region is painted by it.
fn no_test() -> Test {
    Test::DuplicateValues {
        unique: false,
        fill: Rgb {
            red: 0,
            green: 0,
            blue: 0,
        },
    }
}

// A rule without outcomes, which charges no region. It counts as deferred where it is given up and no charge is refused.
fn untested(charged: Charged, unresolved: bool) -> Decided
    ensures decided { (limit : ℕ) (imported : Bool) (values : List Float) (hits : List ℕ)
        → Decides (step_from limit false (judged_as [] 0 unresolved) charged) imported values hits result }
    ensures none { result.count ≡ 0 }
{
    Decided {
        charged,
        test: no_test(),
        count: 0,
        deferred: charged.is_ok() & unresolved,
        simplified: false,
    }
}

// The regions that were asked are charged at once. Their hits count where that is accepted.
fn charge_found(charged: Charged, limit: u64, test: Test, asked: u64, found: Found) -> Decided
    ensures decided { (os : List Outcome) (imported : Bool) (values : List Float) (hits : List ℕ)
        → found.count ≡ length (hits_from 0 os) → take found.count hits ≡ hits_from 0 os → Paints test imported values os
        → Decides (step_from limit (is_bar_test test) (judged_as os asked (is_some found.unresolved)) charged) imported values hits result }
    ensures few { result.count ≤ found.count }
{
    let all = charged.and_then(|counter| counter.charge_times(asked, limit));
    if all.is_err() {
        return untested(all, false);
    }
    Decided {
        charged: all,
        test,
        count: found.count,
        deferred: found.unresolved.is_some(),
        simplified: is_bar_test(test),
    }
}

// How many regions are charged: those that are not stopped, up to the first that leaves the test unresolved.
fn asked_of(found: Found, alive: u64, flags: &[u8]) -> u64
    requires { IfSome found.unresolved (λ at. at < length flags.now) }
    ensures { MatchOption found.unresolved (result ≡ alive) (λ at. result ≡ live_from flags.now 0 (at + 1)) }
{
    match found.unresolved {
        Some(at) => live(&flags[..at + 1]),
        None => alive,
    }
}

fn nothing_found() -> Found
    ensures { result ≡ record { unresolved = None; count = 0 } }
{
    Found {
        unresolved: None,
        count: 0,
    }
}

// A rule that has a test, from what is known of the regions in its rows to its hits. Outside of these rows no region is in range.
fn test_regions(
    rule: Rule,
    test: Test,
    charged: Charged,
    limit: u64,
    alive: u64,
    regions: Band,
    flags: &[u8],
    floats: &[f64],
    values: &[f64],
    rows: &[u32],
    cols: &[u16],
    region_rows: &[u32],
    region_cols: &[u16],
    pool: &[u8],
    sheet: Span,
    firsts: &mut [f64],
    seconds: &mut [f64],
    founds: &[u16],
    hits: &mut [u16],
) -> Decided
    requires cols_value { (first_fall rows.now cols.now ≡ none) × (length rows.now ≤ 1024) × (length rows.now ≡ length floats.now)
        × (length rows.now ≤ length cols.now) }
    requires region_cols_value { (first_fall region_rows.now region_cols.now ≡ none)
        × BandOf rule.range region_rows.now regions.from regions.to × (alive ≡ live_from flags.now 0 (length region_rows.now)) }
    requires hits_value { fits_hits 0 (length region_rows.now) (known values.now firsts.old seconds.old founds.now) region_cols.now
        flags.now (length hits.old) ≡ true }
    ensures decided { (kinds wraps nums ats lens : List ℕ)
        → Numbered (columns rows.now cols.now kinds wraps nums ats lens) floats.now
        → Valued (columns rows.now cols.now kinds wraps nums ats lens) region_rows.now
        region_cols.now values.now
        → (counts_keys test ≡ true → Founded pool.now (columns rows.now cols.now kinds wraps nums ats lens)
        rule.range region_rows.now region_cols.now founds.now)
        → Decides (step_from limit (is_bar_test test) (judged_of (outcomes_from (sheet_in (columns rows.now cols.now kinds
        wraps nums ats lens) region_rows.now region_cols.now pool.now sheet) rule test
        region_rows.now region_cols.now flags.now 0 (length region_rows.now))) charged)
        rule.imported values.now hits.new result }
    ensures few { result.count ≤ length region_rows.now }
    ensures hits { (k : ℕ) → k < result.count → get_or hits.new k 0 < length region_rows.now }
{
    // Where all regions are stopped none is asked.
    if alive == 0 {
        return charge_found(charged, limit, test, 0, nothing_found());
    }
    let range = rule.range;
    find_operands(
        test,
        range,
        regions,
        rows,
        cols,
        floats,
        values,
        region_rows,
        region_cols,
        pool,
        sheet,
        firsts,
        seconds,
    );
    let found = find_within(
        test,
        range,
        regions,
        region_rows,
        region_cols,
        flags,
        values,
        firsts,
        seconds,
        founds,
        &mut hits[..regions.to - regions.from + 1],
    );
    charge_found(charged, limit, test, asked_of(found, alive, flags), found)
}

// Port of one turn of the loop over the rules in resolve_conditional_paints (conditional.rs), up to its marks: what it charges ahead of
// the regions, what it comes to, what is known of the regions for it, and which of them it paints. `charged` is what the charges so far
// came to, `alive` how many regions are not stopped, `numeric` whether all cells have numbers. Once a charge is refused no more work is
// done.
fn decide(
    rule: Rule,
    charged: Charged,
    limit: u64,
    alive: u64,
    numeric: bool,
    flags: &[u8],
    places: &[u16],
    floats: &[f64],
    values: &[f64],
    codes: &[u16],
    rows: &[u32],
    cols: &[u16],
    region_rows: &[u32],
    region_cols: &[u16],
    pool: &[u8],
    sheet: Span,
    firsts: &mut [f64],
    seconds: &mut [f64],
    founds: &mut [u16],
    hits: &mut [u16],
    scratch: &mut [f64],
) -> Decided
    requires cols_value { (first_fall rows.now cols.now ≡ none) × (length rows.now ≤ 1024) × (length rows.now ≤ length cols.now)
        × (length rows.now ≤ length codes.now) }
    requires by_index { ((i : ℕ) → get_or codes.now i 0 < 1025) × (length rows.now ≡ length floats.now)
        × (length rows.now ≤ length scratch.old) × (numeric ≡ true → AllNumbers floats.now) }
    requires region_cols_value { (first_fall region_rows.now region_cols.now ≡ none)
        × (alive ≡ live_from flags.now 0 (length region_rows.now)) }
    requires hits_value { fits_hits 0 (length region_rows.now) (known values.now firsts.old seconds.old founds.old) region_cols.now
        flags.now (length hits.old) ≡ true }
    ensures decided { (kinds wraps nums ats lens : List ℕ)
        → Tabled (columns rows.now cols.now kinds wraps nums ats lens) pool.now rule.kind
        region_rows.now region_cols.now places.now floats.now values.now
        codes.now → Decides (step_of (sheet_in (columns rows.now cols.now kinds wraps nums ats lens)
        region_rows.now region_cols.now pool.now sheet) rule charged limit
        region_rows.now region_cols.now flags.now) rule.imported values.now
        hits.new result }
    ensures few { result.count ≤ length region_rows.now }
    ensures hits { (k : ℕ) → k < result.count → get_or hits.new k 0 < length region_rows.now }
{
    let range = rule.range;
    let kind = rule.kind;
    let band = band_of(range, rows);
    let inside = cells_asked(kind, charged, range, band, cols);
    let spent = charge_after(rule, charged, limit, inside);
    let regions = band_of(range, region_rows);
    let plan = plan_within(
        spent,
        rule,
        band,
        inside,
        numeric,
        regions,
        rows,
        cols,
        floats,
        codes,
        places,
        region_rows,
        region_cols,
        founds,
        scratch,
    );
    match plan {
        Plan::Deferred => untested(spent, true),
        Plan::Skipped => untested(spent, false),
        Plan::Tested(test) => test_regions(
            rule,
            test,
            spent,
            limit,
            alive,
            regions,
            flags,
            floats,
            values,
            rows,
            cols,
            region_rows,
            region_cols,
            pool,
            sheet,
            firsts,
            seconds,
            founds,
            hits,
        ),
    }
}

// ---- a rule with its marks

// One rule: what it is decided to be, then its marks after those that are there, its stops and its bars.
fn turn(
    rule: Rule,
    index: u8,
    ran: Ran,
    limit: u64,
    alive: u64,
    numeric: bool,
    places: &[u16],
    floats: &[f64],
    values: &[f64],
    codes: &[u16],
    rows: &[u32],
    cols: &[u16],
    region_rows: &[u32],
    region_cols: &[u16],
    pool: &[u8],
    sheet: Span,
    firsts: &mut [f64],
    seconds: &mut [f64],
    founds: &mut [u16],
    hits: &mut [u16],
    flags: &mut [u8],
    regions: &mut [u32],
    ruleids: &mut [u32],
    markkinds: &mut [u32],
    colours: &mut [u32],
    ppms: &mut [u32],
    shapes: &mut [u32],
    barrules: &mut [u32],
    barppms: &mut [u32],
    scratch: &mut [f64],
) -> Ran
    requires marks_bound { (ran.marks ≤ 65536) × (ran.deferred ≤ 64) × (ran.simplified ≤ 64) }
    requires cols_value { (first_fall rows.now cols.now ≡ none) × (length rows.now ≤ 1024) × (length rows.now ≤ length cols.now)
        × (length rows.now ≤ length codes.now) }
    requires by_index { ((i : ℕ) → get_or codes.now i 0 < 1025) × (length rows.now ≡ length floats.now)
        × (length rows.now ≤ length scratch.old) × (numeric ≡ true → AllNumbers floats.now) }
    requires region_cols_value { (first_fall region_rows.now region_cols.now ≡ none)
        × (alive ≡ live_from flags.old 0 (length region_rows.now)) }
    requires hits_value { fits_hits 0 (length region_rows.now) (known values.now firsts.old seconds.old founds.old) region_cols.now
        flags.old (length hits.old) ≡ true }
    ensures turn { (kinds wraps nums ats lens : List ℕ)
        → Tabled (columns rows.now cols.now kinds wraps nums ats lens) pool.now rule.kind
        region_rows.now region_cols.now places.now floats.now values.now
        codes.now → state_of result flags.new (mark_columns regions.new ruleids.new
        markkinds.new colours.new ppms.new shapes.new) (bar_columns barrules.new barppms.new)
        ≡ turn (indexed index rule) (say_in (sheet_in (columns rows.now cols.now kinds wraps nums ats lens)
        region_rows.now region_cols.now pool.now sheet) limit region_rows.now
        region_cols.now rule ran.charged flags.old) (state_of ran flags.old (mark_columns
        regions.old ruleids.old markkinds.old colours.old ppms.old shapes.old)
        (bar_columns barrules.old barppms.old)) }
    ensures flags { rule.stop ≡ false → flags.new ≡ flags.old }
    ensures few { (result.marks ≤ ran.marks + 1024) × (result.deferred ≤ ran.deferred + 1) × (result.simplified ≤ ran.simplified + 1) }
{
    let before = ran.charged;
    let said = decide(
        rule,
        before,
        limit,
        alive,
        numeric,
        flags,
        places,
        floats,
        values,
        codes,
        rows,
        cols,
        region_rows,
        region_cols,
        pool,
        sheet,
        firsts,
        seconds,
        founds,
        hits,
        scratch,
    );
    let test = said.test;
    let painted = &hits[..said.count];
    put_marks(
        test,
        rule.imported,
        index,
        ran.marks as usize,
        values,
        painted,
        regions,
        ruleids,
        markkinds,
        colours,
        ppms,
        shapes,
    );
    stop_regions(rule.stop, painted, flags);
    draw_bars(test, index, values, painted, barrules, barppms);
    let charged = said.charged;
    Ran {
        charged,
        marks: ran.marks + said.count as u32,
        deferred: ran.deferred + u64::from(said.deferred),
        simplified: ran.simplified + u64::from(said.simplified),
    }
}

// Ahead of the first rule.
fn none_yet(start: u64) -> Ran
    ensures { result ≡ ran_none start }
{
    Ran {
        charged: Ok(Counter { count: start }),
        marks: 0,
        deferred: 0,
        simplified: 0,
    }
}

// ---- all rules

// The codes of the keys of the sheet, where one of the rules counts keys. Else no work is done.
fn codes_for(
    keyed: bool,
    rows: &[u32],
    kinds: &[u8],
    wraps: &[u8],
    nums: &[u64],
    ats: &[u32],
    lens: &[u32],
    pool: &[u8],
) -> [u16; 1024]
    ensures coded { (cols : List ℕ) → keyed ≡ true → Coded pool.now (columns rows.now cols
        kinds.now wraps.now nums.now ats.now lens.now) result }
    ensures small { (i : ℕ) → get_or result i 0 < 1025 }
{
    if keyed {
        return keys::codes(rows, kinds, wraps, nums, ats, lens, pool);
    }
    [0; 1024]
}

// The rules in their order, by the tables of the job. Port of the loop over `rule_order` in resolve_conditional_paints (conditional.rs).
fn run_rules(
    rules: Rules,
    order: [u8; 64],
    count: usize,
    start: u64,
    limit: u64,
    places: &[u16],
    floats: &[f64],
    values: &[f64],
    codes: &[u16],
    rows: &[u32],
    cols: &[u16],
    region_rows: &[u32],
    region_cols: &[u16],
    pool: &[u8],
    sheet: Span,
    regions: &mut [u32],
    ruleids: &mut [u32],
    markkinds: &mut [u32],
    colours: &mut [u32],
    ppms: &mut [u32],
    shapes: &mut [u32],
    barrules: &mut [u32],
    barppms: &mut [u32],
    scratch: &mut [f64],
) -> Ran
    requires order_value { (order ≡ order_of rules) × (count ≡ length (ordered_rules rules)) × (count ≤ 64) }
    requires cols_value { (first_fall rows.now cols.now ≡ none) × (length rows.now ≤ 1024) × (length rows.now ≤ length cols.now)
        × (length rows.now ≤ length codes.now) }
    requires by_index { ((i : ℕ) → get_or codes.now i 0 < 1025) × (length rows.now ≡ length floats.now)
        × (length rows.now ≤ length scratch.old) }
    requires region_cols_value { (first_fall region_rows.now region_cols.now ≡ none) × (length region_rows.now ≤ 1024)
        × (length region_rows.now ≤ length region_cols.now) × (length region_rows.now ≤ length values.now) }
    ensures run { (kinds wraps nums ats lens : List ℕ)
        → ((i : ℕ) (d : Rule) → i < count → Tabled (columns rows.now cols.now kinds wraps nums ats lens)
        pool.now (get_or rules.records i d).kind region_rows.now region_cols.now
        places.now floats.now values.now codes.now)
        → left result (mark_columns regions.new ruleids.new markkinds.new colours.new ppms.new shapes.new)
        (bar_columns barrules.new barppms.new) ≡ left_by (run_in (sheet_in (columns rows.now cols.now
        kinds wraps nums ats lens) region_rows.now region_cols.now pool.now sheet) limit
        region_rows.now region_cols.now rules start (mark_columns regions.old ruleids.old
        markkinds.old colours.old ppms.old shapes.old) (bar_columns barrules.old
        barppms.old)) }
{
    let mut firsts = [0.0; 1024];
    let mut seconds = [0.0; 1024];
    let mut founds = [0u16; 1024];
    let mut hits = [0u16; 1025];
    let mut flags = [0u8; 1024];
    let numeric = all_numeric(floats);
    let n = region_rows.len();
    let mut alive = n as u64;
    let mut ran = none_yet(start);
    for k in 0..count {
        let index = order[k];
        let at = index as usize;
        let rule = rules.records[at];
        ran = turn(
            rule,
            index,
            ran,
            limit,
            alive,
            numeric,
            places,
            floats,
            values,
            codes,
            rows,
            cols,
            region_rows,
            region_cols,
            pool,
            sheet,
            &mut firsts,
            &mut seconds,
            &mut founds,
            &mut hits,
            &mut flags,
            regions,
            ruleids,
            markkinds,
            colours,
            ppms,
            shapes,
            barrules,
            barppms,
            scratch,
        );
        if rule.stop {
            alive = live(&flags[..n]);
        }
    }
    ran
}

// All rules from the count `start`: first what is worked out once for a job, the places of the regions' cells, the numbers and the codes of
// the keys, then the rules.
pub(crate) fn run(
    rules: Rules,
    start: u64,
    limit: u64,
    rows: &[u32],
    cols: &[u16],
    kinds: &[u8],
    wraps: &[u8],
    nums: &[u64],
    ats: &[u32],
    lens: &[u32],
    region_rows: &[u32],
    region_cols: &[u16],
    pool: &[u8],
    sheet: Span,
    regions: &mut [u32],
    ruleids: &mut [u32],
    markkinds: &mut [u32],
    colours: &mut [u32],
    ppms: &mut [u32],
    shapes: &mut [u32],
    barrules: &mut [u32],
    barppms: &mut [u32],
    scratch: &mut [f64],
) -> Ran
    requires cols_value { (first_fall rows.now cols.now ≡ none) × (length rows.now ≤ 1024) × (length rows.now ≤ length cols.now)
        × (length rows.now ≤ length scratch.old) }
    requires region_cols_value { (first_fall region_rows.now region_cols.now ≡ none) × (length region_rows.now ≤ 1024)
        × (length region_rows.now ≤ length region_cols.now) }
    ensures run { left result (mark_columns regions.new ruleids.new markkinds.new
        colours.new ppms.new shapes.new)
        (bar_columns barrules.new barppms.new) ≡ left_by (run_in (sheet_in (columns rows.now cols.now kinds.now wraps.now
        nums.now ats.now lens.now) region_rows.now region_cols.now
        pool.now sheet)
        limit region_rows.now region_cols.now rules start
        (mark_columns regions.old ruleids.old markkinds.old
        colours.old ppms.old shapes.old) (bar_columns barrules.old barppms.old)) }
    ensures scratch { scratch.new ≡ replicate (length scratch.old) zero_f }
{
    let outline = order::outline(rules);
    let order = outline.order;
    let count = outline.count;
    let n = rows.len();
    let m = region_rows.len();
    let mut places = [0u16; 1024];
    walk_cells(rows, cols, region_rows, region_cols, &mut places[..m]);
    let mut floats = [0.0; 1024];
    number_cells(kinds, wraps, nums, ats, lens, &mut floats[..n]);
    let mut values = [0.0; 1024];
    number_regions(&places[..m], &floats[..n], &mut values[..m]);
    let codes = codes_for(outline.keyed, rows, kinds, wraps, nums, ats, lens, pool);
    let ran = run_rules(
        rules,
        order,
        count,
        start,
        limit,
        &places,
        &floats[..n],
        &values,
        &codes,
        rows,
        cols,
        region_rows,
        region_cols,
        pool,
        sheet,
        regions,
        ruleids,
        markkinds,
        colours,
        ppms,
        shapes,
        barrules,
        barppms,
        scratch,
    );
    scratch.fill(0.0);
    ran
}

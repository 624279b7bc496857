// The report of a job, as text in lent bytes.
#![tactic(auto)]

ghost use Rattle.std.specs.Prelude.{◌≡◌, ◌++◌, length, take};
ghost use Rattle.memory.specs.Memory.{page, page_length, page_of};
ghost use Rattle.model.specs.Answer.{refusal, refused_by, summary};
ghost use Rattle.model.specs.Rule.{has_shape};
ghost use Rattle.grammar.specs.Parts.{times_text};
ghost use Rattle.put.specs.Put.{Puts, PutsSome, Ready};
ghost use Rattle.reporttext.specs.Report.{dash, paint_text, mark_line, bar_line, bar_lines};
ghost use Rattle.reporttext.specs.Report.{summary_text, marks_text, bars_text, shaped_at, report_of};
ghost use Rattle.reporttext.specs.Shown.{mark_of, bar_of, bars_in, printed, result_in, holds_marks};
ghost use Rattle.report.specs.Dashed.{number_or_dash, colour_or_dash};
ghost use Rattle.report.specs.Figures.{summary_of};
ghost use Rattle.report.specs.Marks.{mark_held, marks_held, space_held};
ghost use Rattle.report.specs.Printed.{printed_length, is_refusal};

use lent::at;
use model::{Answer, CfRule, Paint, Refusal, Rule, Rules};
use put::Cursor;
use ratio::bar_cells;

// ---- the values of an answer

// In the order of the report.
#[derive(Clone, Copy)]
struct Figures {
    number: u64,
    place: u64,
    count: u64,
    actual: u64,
    marks: u64,
    deferred: u64,
    simplified: u64,
}

#[tactic(auto, unfolding(model::specs::Answer::refusal))]
fn refusal_figures(number: u64, place: u64, count: u64, actual: u64) -> Figures
    ensures { summary_of result ≡ refusal number place count actual }
{
    Figures {
        number,
        place,
        count,
        actual,
        marks: 0,
        deferred: 0,
        simplified: 0,
    }
}

#[tactic(auto, unfolding(model::specs::Answer::refused_by))]
fn figures_of_refusal(refusal: Refusal) -> Figures
    ensures { summary_of result ≡ refused_by refusal }
{
    match refusal {
        Refusal::LengthsDiffer { count } => refusal_figures(1, 0, count, 0),
        Refusal::TooMany { count } => refusal_figures(2, 0, count, 0),
        Refusal::OutOfBounds { place, count } => refusal_figures(3, place, count, 0),
        Refusal::NotRising { place, count } => refusal_figures(4, place, count, 0),
        Refusal::NameOutside { place, count } => refusal_figures(5, place, count, 0),
        Refusal::SpaceShort { count } => refusal_figures(6, 0, count, 0),
        Refusal::LimitExceeded { count, actual } => refusal_figures(7, 0, count, actual),
        Refusal::CoordinateOverflow { count } => refusal_figures(8, 0, count, 0),
        Refusal::MarksExceedSpace { count, actual } => refusal_figures(9, 0, count, actual),
    }
}

#[tactic(auto, unfolding(model::specs::Answer::summary, model::specs::Answer::answer))]
fn figures_of(answer: Answer) -> Figures
    ensures { summary_of result ≡ summary answer }
{
    match answer {
        Ok(answered) => Figures {
            number: 0,
            place: 0,
            count: answered.count,
            actual: 0,
            marks: answered.marks,
            deferred: answered.deferred,
            simplified: answered.simplified,
        },
        Err(refusal) => figures_of_refusal(refusal),
    }
}

// ---- the marks

// The mark columns, a mark in each place of all six.
#[derive(Clone, Copy)]
struct MarkColumns<'a> {
    regions: &'a [u32],
    rules: &'a [u32],
    kinds: &'a [u32],
    colours: &'a [u32],
    ppms: &'a [u32],
    shapes: &'a [u32],
}

// How many marks they hold: the length of the shortest.
fn mark_space(marks: MarkColumns<'_>) -> usize
    ensures { result ≡ space_held marks.entry }
{
    let paints = marks
        .kinds
        .len()
        .min(marks.colours.len())
        .min(marks.ppms.len())
        .min(marks.shapes.len());
    marks.regions.len().min(marks.rules.len()).min(paints)
}

// ---- the rules whose marks have a shape

// Scales and bars.
#[tactic(auto, unfolding(model::specs::Rule::has_shape))]
fn has_shape(kind: &CfRule) -> bool
    ensures { result ≡ has_shape kind.now }
{
    matches!(
        kind,
        CfRule::ColorScale2 { .. } | CfRule::ColorScale3 { .. } | CfRule::DataBar { .. }
    )
}

// Whether the rule at an index is one; there is none past the end.
fn is_shaped(rules: &[Rule], rule: usize) -> bool
    ensures { result ≡ shaped_at rules.now rule }
{
    match rules.get(rule) {
        Some(rule) => has_shape(&rule.kind),
        None => false,
    }
}

// ---- lines

// The first two lines.
fn put_summary(text: &mut Cursor<'_>, f: Figures)
    ensures { Puts text.old (summary_text (summary_of f)) text.new }
{
    text.put_bytes(b"number place count actual marks deferred simplified\n");
    text.put_number(f.number, b' ');
    text.put_number(f.place, b' ');
    text.put_number(f.count, b' ');
    text.put_number(f.actual, b' ');
    text.put_number(f.marks, b' ');
    text.put_number(f.deferred, b' ');
    text.put_number(f.simplified, b'\n');
}

// `-` and the byte that ends its field.
fn put_dash(text: &mut Cursor<'_>, end: u8)
    ensures { Puts text.old (dash end) text.new }
{
    text.put_byte(b'-');
    text.put_byte(end);
}

// A number, or `-` where there is none.
fn put_number_or_dash(text: &mut Cursor<'_>, n: Option<u32>, end: u8)
    ensures { Puts text.old (number_or_dash n end) text.new }
{
    match n {
        Some(n) => text.put_number(n as u64, end),
        None => put_dash(text, end),
    }
}

// A colour, or `-` where there is none.
fn put_colour_or_dash(text: &mut Cursor<'_>, packed: Option<u32>, end: u8)
    ensures { Puts text.old (colour_or_dash packed end) text.new }
{
    match packed {
        Some(packed) => {
            text.put_hex(6, packed as u64);
            text.put_byte(end)
        }
        None => put_dash(text, end),
    }
}

fn put_paint(text: &mut Cursor<'_>, shaped: bool, paint: Paint)
    ensures { Puts text.old (paint_text shaped paint) text.new }
{
    let coloured = paint.kind != 2;
    let bar = 3 <= paint.kind;
    text.put_number(paint.kind as u64, b' ');
    put_colour_or_dash(text, coloured.then_some(paint.colour), b' ');
    put_number_or_dash(text, bar.then_some(paint.ppm), b' ');
    put_number_or_dash(text, bar.then_some(bar_cells(paint.ppm)), b' ');
    put_number_or_dash(text, shaped.then_some(paint.shape), b'\n');
}

fn put_mark(text: &mut Cursor<'_>, rules: &[Rule], region: u32, rule: u32, paint: Paint)
    ensures { Puts text.old (mark_line (shaped_at rules.now) (mark_of region rule paint)) text.new }
{
    text.put_number(region as u64, b' ');
    text.put_number(rule as u64, b' ');
    put_paint(text, is_shaped(rules, rule as usize), paint);
}

fn put_mark_at(text: &mut Cursor<'_>, i: usize, rules: &[Rule], marks: MarkColumns<'_>)
    ensures { Puts text.old (mark_line (shaped_at rules.now) (mark_held marks.entry i)) text.new }
{
    let paint = Paint {
        kind: at(marks.kinds, i, 0),
        colour: at(marks.colours, i, 0),
        ppm: at(marks.ppms, i, 0),
        shape: at(marks.shapes, i, 0),
    };
    put_mark(
        text,
        rules,
        at(marks.regions, i, 0),
        at(marks.rules, i, 0),
        paint,
    );
}

// The lines of n marks, up to the first that does not fit.
fn put_mark_lines(text: &mut Cursor<'_>, n: u64, rules: &[Rule], marks: MarkColumns<'_>)
    requires { Ready text.old.bytes.now text.old.at }
    ensures { PutsSome text.old (times_text (mark_line (shaped_at rules.now)) (marks_held marks.entry n)) text.new }
{
    for i in 0..n {
        put_mark_at(text, i as usize, rules, marks);
        if text.bytes.len() < text.at {
            return;
        }
    }
}

// The line of a region's bar, by the rule plus one; none where that is 0.
fn put_bar(text: &mut Cursor<'_>, region: usize, rule: u32, ppm: u32)
    requires { Ready text.old.bytes.now text.old.at }
    ensures { Puts text.old (bar_line region (bar_of rule ppm)) text.new }
{
    if rule == 0 {
        return;
    }
    text.put_number(region as u64, b' ');
    text.put_number((rule - 1) as u64, b' ');
    text.put_number(ppm as u64, b'\n');
}

// The lines of all bars, up to the first that does not fit.
fn put_bar_lines(text: &mut Cursor<'_>, rules: &[u32], ppms: &[u32])
    requires { Ready text.old.bytes.now text.old.at }
    ensures { PutsSome text.old (bar_lines 0 (bars_in rules.now ppms.now 0
        (length rules.now))) text.new }
{
    for (i, &rule) in rules.iter().enumerate() {
        put_bar(text, i, rule, at(ppms, i, 0));
        if text.bytes.len() < text.at {
            return;
        }
    }
}

// ---- the report

// What an answered job has besides the first two lines.
fn put_answer(
    text: &mut Cursor<'_>,
    n: u64,
    rules: &[Rule],
    marks: MarkColumns<'_>,
    barrules: &[u32],
    barppms: &[u32],
)
    ensures { PutsSome text.old (marks_text (shaped_at rules.now) (marks_held marks.entry n)
        ++ bars_text (bars_in barrules.now barppms.now 0 (length barrules.now))) text.new }
{
    text.put_bytes(b"region rule kind colour ppm cells shape\n");
    put_mark_lines(text, n, rules, marks);
    text.put_bytes(b"region barrule ppm\n");
    put_bar_lines(text, barrules, barppms);
}

// The report of an answer by these rules and the columns that come with it: its length, 0 where it is longer than the lent bytes or where
// the columns do not hold all the marks.
pub fn write_report(
    answer: Answer,
    rules: &Rules,
    regions: &[u32],
    ruleids: &[u32],
    kinds: &[u32],
    colours: &[u32],
    ppms: &[u32],
    shapes: &[u32],
    barrules: &[u32],
    barppms: &[u32],
    report: &mut [u8],
) -> usize
    ensures length { result ≡ printed_length (holds_marks (summary answer) (printed regions.now ruleids.now
        kinds.now colours.now ppms.now shapes.now barrules.now
        barppms.now)) (length report.old) (report_of (take rules.now.number rules.now.records)
        (result_in (summary answer) (printed regions.now ruleids.now kinds.now colours.now
        ppms.now shapes.now barrules.now barppms.now))) }
    ensures bytes { report.new ≡ page_of (holds_marks (summary answer) (printed regions.now
        ruleids.now kinds.now colours.now ppms.now shapes.now
        barrules.now barppms.now)) (length report.old) (report_of (take rules.now.number rules.now.records)
        (result_in (summary answer) (printed regions.now ruleids.now kinds.now colours.now
        ppms.now shapes.now barrules.now barppms.now))) }
{
    let figures = figures_of(answer);
    let marks = MarkColumns {
        regions,
        rules: ruleids,
        kinds,
        colours,
        ppms,
        shapes,
    };
    let space = mark_space(marks);
    if (space as u64) < figures.marks {
        report.fill(0);
        return 0;
    }
    let mut text = Cursor {
        bytes: report,
        at: 0,
    };
    put_summary(&mut text, figures);
    if figures.number != 0 {
        return text.keep();
    }
    put_answer(
        &mut text,
        figures.marks,
        rules.declared(),
        marks,
        barrules,
        barppms,
    );
    text.keep()
}

// The report of a refusal of the checks: its length, 0 where it is longer than the lent bytes.
pub fn write_refused(refusal: Refusal, report: &mut [u8]) -> usize
    ensures length { result ≡ page_length (length report.old) (summary_text (refused_by refusal)) }
    ensures bytes { report.new ≡ page (length report.old) (summary_text (refused_by refusal)) }
{
    let mut text = Cursor {
        bytes: report,
        at: 0,
    };
    put_summary(&mut text, figures_of_refusal(refusal));
    text.keep()
}

// The report of a refusal by its number and values, where no column is at hand: its length, 0 where it is longer than the lent bytes or
// the number is 0.
pub fn write_refusal(number: u64, place: u64, count: u64, actual: u64, report: &mut [u8]) -> usize
    ensures length { result ≡ printed_length (is_refusal number) (length report.old)
        (summary_text (refusal number place count actual)) }
    ensures bytes { report.new ≡ page_of (is_refusal number) (length report.old)
        (summary_text (refusal number place count actual)) }
{
    if number == 0 {
        report.fill(0);
        return 0;
    }
    let mut text = Cursor {
        bytes: report,
        at: 0,
    };
    put_summary(&mut text, refusal_figures(number, place, count, actual));
    text.keep()
}

// The mark and bar columns of a job whose rules have run, kept or cleared.
ghost use Rattle.std.specs.Prelude.{min, ◌≡◌, length, replicate};
ghost use Rattle.model.specs.Answer.{summary};
ghost use Rattle.settling.specs.Settling.{is_answered};
ghost use Rattle.turns.specs.Lent.{shortest_of, settled_on, kept_if};

use model::Answer;
use settling::{Ran, settle};

// Zeros from end to end, unless what is there is kept.
fn keep_column(column: &mut [u32], keep: bool)
    ensures { column.new ≡ kept_if keep column.old }
{
    if keep {
        return;
    }
    column.fill(0);
}

// The mark and bar columns.
fn keep_columns(
    keep: bool,
    regions: &mut [u32],
    ruleids: &mut [u32],
    markkinds: &mut [u32],
    colours: &mut [u32],
    ppms: &mut [u32],
    shapes: &mut [u32],
    barrules: &mut [u32],
    barppms: &mut [u32],
)
    ensures regions_after { regions.new ≡ kept_if keep regions.old }
    ensures ruleids_after { ruleids.new ≡ kept_if keep ruleids.old }
    ensures markkinds_after { markkinds.new ≡ kept_if keep markkinds.old }
    ensures colours_after { colours.new ≡ kept_if keep colours.old }
    ensures ppms_after { ppms.new ≡ kept_if keep ppms.old }
    ensures shapes_after { shapes.new ≡ kept_if keep shapes.old }
    ensures barrules_after { barrules.new ≡ kept_if keep barrules.old }
    ensures barppms_after { barppms.new ≡ kept_if keep barppms.old }
{
    keep_column(regions, keep);
    keep_column(ruleids, keep);
    keep_column(markkinds, keep);
    keep_column(colours, keep);
    keep_column(ppms, keep);
    keep_column(shapes, keep);
    keep_column(barrules, keep);
    keep_column(barppms, keep);
}

fn lesser(a: usize, b: usize) -> usize
    ensures { result ≡ min a b }
{
    if a < b { a } else { b }
}

// The space for marks: the length of the shortest mark column.
fn shortest(
    regions: usize,
    rules: usize,
    kinds: usize,
    colours: usize,
    ppms: usize,
    shapes: usize,
) -> usize
    ensures { result ≡ shortest_of regions rules kinds colours ppms shapes }
{
    lesser(
        regions,
        lesser(rules, lesser(kinds, lesser(colours, lesser(ppms, shapes)))),
    )
}

// Zeros from end to end in the mark and bar columns.
pub(crate) fn clear_columns(
    regions: &mut [u32],
    ruleids: &mut [u32],
    markkinds: &mut [u32],
    colours: &mut [u32],
    ppms: &mut [u32],
    shapes: &mut [u32],
    barrules: &mut [u32],
    barppms: &mut [u32],
)
    ensures regions_after { regions.new ≡ replicate (length regions.old) 0 }
    ensures ruleids_after { ruleids.new ≡ replicate (length ruleids.old) 0 }
    ensures markkinds_after { markkinds.new ≡ replicate (length markkinds.old) 0 }
    ensures colours_after { colours.new ≡ replicate (length colours.old) 0 }
    ensures ppms_after { ppms.new ≡ replicate (length ppms.old) 0 }
    ensures shapes_after { shapes.new ≡ replicate (length shapes.old) 0 }
    ensures barrules_after { barrules.new ≡ replicate (length barrules.old) 0 }
    ensures barppms_after { barppms.new ≡ replicate (length barppms.old) 0 }
{
    keep_columns(
        false, regions, ruleids, markkinds, colours, ppms, shapes, barrules, barppms,
    );
}

// The answer of a job whose rules have run, whose columns are kept only if it is answered.
pub(crate) fn settle_columns(
    ran: Ran,
    regions: &mut [u32],
    ruleids: &mut [u32],
    markkinds: &mut [u32],
    colours: &mut [u32],
    ppms: &mut [u32],
    shapes: &mut [u32],
    barrules: &mut [u32],
    barppms: &mut [u32],
) -> Answer
    ensures answer { summary result ≡ settled_on regions.old ruleids.old markkinds.old
        colours.old ppms.old shapes.old ran }
    ensures regions_after { regions.new ≡ kept_if (is_answered (settled_on regions.old ruleids.old markkinds.old
        colours.old ppms.old shapes.old ran)) regions.old }
    ensures ruleids_after { ruleids.new ≡ kept_if (is_answered (settled_on regions.old ruleids.old markkinds.old
        colours.old ppms.old shapes.old ran)) ruleids.old }
    ensures markkinds_after { markkinds.new ≡ kept_if (is_answered (settled_on regions.old ruleids.old markkinds.old
        colours.old ppms.old shapes.old ran)) markkinds.old }
    ensures colours_after { colours.new ≡ kept_if (is_answered (settled_on regions.old ruleids.old markkinds.old
        colours.old ppms.old shapes.old ran)) colours.old }
    ensures ppms_after { ppms.new ≡ kept_if (is_answered (settled_on regions.old ruleids.old markkinds.old
        colours.old ppms.old shapes.old ran)) ppms.old }
    ensures shapes_after { shapes.new ≡ kept_if (is_answered (settled_on regions.old ruleids.old markkinds.old
        colours.old ppms.old shapes.old ran)) shapes.old }
    ensures barrules_after { barrules.new ≡ kept_if (is_answered (settled_on regions.old ruleids.old markkinds.old
        colours.old ppms.old shapes.old ran)) barrules.old }
    ensures barppms_after { barppms.new ≡ kept_if (is_answered (settled_on regions.old ruleids.old markkinds.old
        colours.old ppms.old shapes.old ran)) barppms.old }
{
    let space = shortest(
        regions.len(),
        ruleids.len(),
        markkinds.len(),
        colours.len(),
        ppms.len(),
        shapes.len(),
    );
    let answer = settle(ran, space);
    keep_columns(
        answer.is_ok(),
        regions,
        ruleids,
        markkinds,
        colours,
        ppms,
        shapes,
        barrules,
        barppms,
    );
    answer
}

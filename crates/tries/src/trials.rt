// The runs of a job: the limit, the lengths of the nine columns lent for writing, and what is expected.
use crate::compare::{Tally, one_more};
use crate::list::List;
use lists::Faulty;
use model::{Answer, LentJob};

// The nine columns that are lent for writing.
#[derive(Drop)]
struct Space<'a> {
    regions: &'a mut [u32],
    rule_indices: &'a mut [u32],
    mark_kinds: &'a mut [u32],
    colours: &'a mut [u32],
    ppms: &'a mut [u32],
    shapes: &'a mut [u32],
    bar_rules: &'a mut [u32],
    bar_ppms: &'a mut [u32],
    scratch: &'a mut [f64],
}

fn resolve(job: &LentJob, limit: u64, space: &mut Space) -> Answer {
    call::resolve_conditional_paints(
        *job,
        limit,
        space.regions,
        space.rule_indices,
        space.mark_kinds,
        space.colours,
        space.ppms,
        space.shapes,
        space.bar_rules,
        space.bar_ppms,
        space.scratch,
    )
}

fn compare_space(
    rt: &impl Print,
    list: &mut List,
    tally: &mut Tally,
    space: &Space,
) -> Result<(), Faulty> {
    tally.compare_column(rt, list, "regions", space.regions)?;
    tally.compare_column(rt, list, "rule_indices", space.rule_indices)?;
    tally.compare_column(rt, list, "mark_kinds", space.mark_kinds)?;
    tally.compare_column(rt, list, "colours", space.colours)?;
    tally.compare_column(rt, list, "ppms", space.ppms)?;
    tally.compare_column(rt, list, "shapes", space.shapes)?;
    tally.compare_column(rt, list, "bar_rules", space.bar_rules)?;
    tally.compare_column(rt, list, "bar_ppms", space.bar_ppms)?;
    tally.compare_column(rt, list, "scratch", space.scratch)
}

// Scratch that is lent with NaN, both infinities and numbers.
fn unlike_zero() -> [f64; 1040] {
    let mut column = [0.0; 1040];
    for (i, x) in column.iter_mut().enumerate() {
        *x = match i % 4 {
            0 => 0.0 / 0.0,
            1 => 1.0 / 0.0,
            2 => -1.0 / 0.0,
            _ => -2.5,
        };
    }
    column
}

// The columns are lent with no zero in them.
fn try_run(
    rt: &impl Print,
    list: &mut List,
    tally: &mut Tally,
    job: &LentJob,
) -> Result<(), Faulty> {
    let limit = list.number()?;
    let mut regions = [u32::MAX; 1040];
    let mut rule_indices = [u32::MAX; 1040];
    let mut mark_kinds = [u32::MAX; 1040];
    let mut colours = [u32::MAX; 1040];
    let mut ppms = [u32::MAX; 1040];
    let mut shapes = [u32::MAX; 1040];
    let mut bar_rules = [u32::MAX; 1040];
    let mut bar_ppms = [u32::MAX; 1040];
    let mut scratch = unlike_zero();
    let mut space = Space {
        regions: list.lend(&mut regions)?,
        rule_indices: list.lend(&mut rule_indices)?,
        mark_kinds: list.lend(&mut mark_kinds)?,
        colours: list.lend(&mut colours)?,
        ppms: list.lend(&mut ppms)?,
        shapes: list.lend(&mut shapes)?,
        bar_rules: list.lend(&mut bar_rules)?,
        bar_ppms: list.lend(&mut bar_ppms)?,
        scratch: list.lend(&mut scratch)?,
    };
    let answer = resolve(job, limit, &mut space);
    tally.compare_answer(rt, list, answer)?;
    compare_space(rt, list, tally, &space)
}

// How many runs, and these.
pub(crate) fn try_runs(
    rt: &impl Print,
    list: &mut List,
    tally: &mut Tally,
    job: &LentJob,
) -> Result<(), Faulty> {
    let runs: u64 = list.number()?;
    tally.run = 0;
    for _ in 0..runs {
        tally.run = one_more(tally.run);
        tally.runs = one_more(tally.runs);
        try_run(rt, list, tally, job)?;
    }
    Ok(())
}

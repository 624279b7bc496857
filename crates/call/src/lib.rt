// The call over lent columns: all that is lent for writing holds the complete result, or zeros.
#![tactic(auto)]

mod ahead;
mod bands;
mod columns;
mod counts;
mod gathered;
mod marks;
mod numbers;
mod operands;
mod picked;
mod planned;
mod rules;
mod scales;
mod shapes;
mod stores;

ghost use Rattle.std.specs.Prelude.{◌≡◌};
ghost use Rattle.model.specs.Answer.{summary};
ghost use Rattle.model.specs.Job.{result as job_result};
ghost use Rattle.model.specs.Columns.{columns_of};
ghost use Rattle.model.specs.Lent.{job_lent};
ghost use Rattle.laws.specs.Demands.{lengths_of};
ghost use Rattle.turns.specs.Lent.{lent};

use crate::columns::{clear_columns, settle_columns};
use charging::Charged;
use model::{Answer, LentJob, Test};

// The cells or the regions in the rows of a rule's range: those from index `from` up to `to`.
#[derive(Clone, Copy)]
struct Band {
    from: usize,
    to: usize,
}

// What a rule is decided to be: what the charges come to with its own, the test by which it paints, how many regions it paints, and whether
// it counts as deferred and as simplified.
#[derive(Clone, Copy)]
struct Decided {
    charged: Charged,
    test: Test,
    count: usize,
    deferred: bool,
    simplified: bool,
}

// Port of resolve_conditional_paints (conditional.rs) over columns: the checks, the rules, and what becomes of them under the limit.
pub fn resolve_conditional_paints(
    job: LentJob<'_>,
    limit: u64,
    regions: &mut [u32],
    ruleids: &mut [u32],
    markkinds: &mut [u32],
    colours: &mut [u32],
    ppms: &mut [u32],
    shapes: &mut [u32],
    barrules: &mut [u32],
    barppms: &mut [u32],
    scratch: &mut [f64],
) -> Answer
    ensures answer { summary result ≡ (job_result (job_lent job.entry) limit (lengths_of (lent regions.old ruleids.old
        markkinds.old colours.old ppms.old shapes.old barrules.old barppms.old scratch.old))).summary }
    ensures columns { lent regions.new ruleids.new markkinds.new colours.new
        ppms.new shapes.new barrules.new barppms.new scratch.new
        ≡ columns_of (job_lent job.entry) limit (lengths_of (lent regions.old ruleids.old markkinds.old colours.old
        ppms.old shapes.old barrules.old barppms.old scratch.old)) }
{
    clear_columns(
        regions, ruleids, markkinds, colours, ppms, shapes, barrules, barppms,
    );
    let checked = checks::check(job, barrules.len(), barppms.len(), scratch.len());
    if let Err(refusal) = checked {
        scratch.fill(0.0);
        return Err(refusal);
    }
    let cells = job.cells;
    let ran = rules::run(
        *job.rules,
        job.start,
        limit,
        cells.rows,
        cells.cols,
        cells.kinds,
        cells.wraps,
        cells.nums,
        cells.ats,
        cells.lens,
        job.regions.rows,
        job.regions.cols,
        job.pool,
        job.name,
        regions,
        ruleids,
        markkinds,
        colours,
        ppms,
        shapes,
        barrules,
        barppms,
        scratch,
    );
    settle_columns(
        ran, regions, ruleids, markkinds, colours, ppms, shapes, barrules, barppms,
    )
}

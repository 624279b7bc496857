// The checks 1 to 6 over lent columns (document 01, 'Turned back').
#![tactic(auto)]

ghost use Rattle.std.specs.Prelude.{◌≡◌, cond};
ghost use Rattle.std.specs.Option.{MatchOption, ForSome};
ghost use Rattle.std.specs.Result.{IsErrAnd};
ghost use Rattle.std.proofs.Math.Option.{none, some};
ghost use Rattle.model.specs.Answer.{refused_by};
ghost use Rattle.model.specs.Job.{malformed as malformedAs};
ghost use Rattle.model.specs.Lent.{job_lent};
ghost use Rattle.checks.specs.Checked.{turned_back, space_of, refusal_of};

use lengths::{lengths_differ, space_short, too_many};
use model::{LentJob, Refusal};
use names::{first_bad_rule, outside};
use sheet::{first_bad_cell, first_bad_region, first_fall};

pub mod lengths;
pub mod names;
pub mod sheet;

// A refusal where a check is met.
fn refuse_if(met: bool, refusal: Refusal) -> Result<(), Refusal>
    ensures { turned_back result ≡ cond met (some (refused_by refusal)) none }
{
    if met { Err(refusal) } else { Ok(()) }
}

// A refusal at the index that a search found, if it did.
fn refuse_at<F: FnOnce(u64) -> Refusal>(found: Option<usize>, refusal: F) -> Result<(), Refusal>
    requires { ForSome found (F.pre refusal) }
    ensures { MatchOption found (result ≡ Ok tt) (λ i. IsErrAnd result (F.post refusal i)) }
{
    match found {
        Some(place) => Err(refusal(place as u64)),
        None => Ok(()),
    }
}

// The checks 1 to 5 in their order: a job is well-formed where none of them is met.
#[tactic(auto, unfolding(model::specs::Answer::refused_by, model::specs::Job::malformed, model::specs::Job::first_of, model::specs::Job::refuse_if, model::specs::Job::refuse_at, model::specs::Job::rules_of, model::specs::Job::lengths_differ, model::specs::Job::too_many))]
pub fn malformed(job: LentJob<'_>) -> Result<(), Refusal>
    ensures { turned_back result ≡ malformedAs (job_lent job.entry) }
{
    let count = job.start;
    let cells = job.cells.rows.len();
    let regions = job.regions.rows.len();
    let differ = lengths_differ(
        cells,
        job.cells.cols.len(),
        job.cells.kinds.len(),
        job.cells.wraps.len(),
        job.cells.nums.len(),
        job.cells.ats.len(),
        job.cells.lens.len(),
        regions,
        job.regions.cols.len(),
    );
    refuse_if(differ, Refusal::LengthsDiffer { count })?;
    let many = too_many(cells, regions, job.rules.number, job.pool.len());
    refuse_if(many, Refusal::TooMany { count })?;
    let out_of_bounds = |place| Refusal::OutOfBounds { place, count };
    refuse_at(first_bad_cell(job.cells, job.pool), out_of_bounds)?;
    refuse_at(first_bad_region(job.regions), out_of_bounds)?;
    let not_rising = |place| Refusal::NotRising { place, count };
    refuse_at(first_fall(job.cells.rows, job.cells.cols), not_rising)?;
    refuse_at(first_fall(job.regions.rows, job.regions.cols), not_rising)?;
    let name_outside = |place| Refusal::NameOutside { place, count };
    refuse_at(first_bad_rule(job.pool, job.rules), name_outside)?;
    refuse_if(outside(job.pool, job.name), name_outside(64))
}

// The checks 1 to 6 in their order. `bar_rules`, `bar_ppms` and `scratch` are lengths of columns lent for writing.
#[tactic(auto, unfolding(model::specs::Answer::refused_by, crate::specs::Checked::refusal_of, model::specs::Job::first_of, model::specs::Job::refuse_if, model::specs::Job::space_short))]
pub fn check(
    job: LentJob<'_>,
    bar_rules: usize,
    bar_ppms: usize,
    scratch: usize,
) -> Result<(), Refusal>
    ensures { turned_back result ≡ refusal_of (job_lent job.entry) (space_of bar_rules bar_ppms scratch) }
{
    malformed(job)?;
    let cells = job.cells.rows.len();
    let regions = job.regions.rows.len();
    let short = space_short(cells, regions, bar_rules, bar_ppms, scratch);
    refuse_if(short, Refusal::SpaceShort { count: job.start })
}

// A job over lent columns and its report: the call with space of its own for 1,024 marks, regions and cells, and what it prints.
#![tactic(auto)]

ghost use Rattle.std.specs.Prelude.{◌≡◌, length};
ghost use Rattle.memory.specs.Memory.{page, page_length};
ghost use Rattle.model.specs.Lent.{job_lent};
ghost use Rattle.reporttext.specs.Reports.{job_report};
ghost use Rattle.jobtext.specs.Decided.{whole_space};

use model::LentJob;

// The report of a job: its length, 0 where it is longer than the lent bytes.
pub fn decide_job(job: LentJob<'_>, limit: u64, report: &mut [u8]) -> usize
    ensures length { result ≡ page_length (length report.old) (job_report (job_lent job.entry) limit whole_space) }
    ensures bytes { report.new ≡ page (length report.old) (job_report (job_lent job.entry) limit whole_space) }
{
    let mut regions = [0u32; 1024];
    let mut ruleids = [0u32; 1024];
    let mut markkinds = [0u32; 1024];
    let mut colours = [0u32; 1024];
    let mut ppms = [0u32; 1024];
    let mut shapes = [0u32; 1024];
    let mut barrules = [0u32; 1024];
    let mut barppms = [0u32; 1024];
    let mut scratch = [0.0; 1024];
    let answer = call::resolve_conditional_paints(
        job,
        limit,
        &mut regions,
        &mut ruleids,
        &mut markkinds,
        &mut colours,
        &mut ppms,
        &mut shapes,
        &mut barrules,
        &mut barppms,
        &mut scratch,
    );
    report::write_report(
        answer, job.rules, &regions, &ruleids, &markkinds, &colours, &ppms, &shapes, &barrules,
        &barppms, report,
    )
}

// A job saved as text: the job text of lent columns, a pool, rules, a limit and a start, into lent bytes.
#![tactic(auto)]

ghost use Rattle.std.specs.Prelude.{◌≡◌, length};
ghost use Rattle.model.specs.Lent.{job_lent};
ghost use Rattle.laws.specs.Demands.{WellFormed};
ghost use Rattle.put.specs.Put.{Puts};
ghost use Rattle.savedtext.specs.Saved.{text_of, saved, saved_length, saved_bytes};
ghost use Rattle.writer.specs.Answers.{summary_of, length_of, Wrote};

use model::{LentJob, Refusal};
use put::Cursor;
use rulewriter::put_rules;
use sheetwriter::{put_cells, put_head, put_regions};

// The most bytes of a job text.
const MAX_TEXT: usize = 65536;

// A text that is written whole: it takes `length` of the lent bytes; the count is the start.
#[derive(Clone, Copy)]
pub struct Written {
    pub count: u64,
    pub length: usize,
}

// Why no text is written.
#[derive(Clone, Copy)]
pub enum SaveError {
    // 1 to 5
    Refused(Refusal),
    // 13
    TooLong { count: u64, actual: u64 },
}

pub type Saved = Result<Written, SaveError>;

// The job text.
fn put_job(text: &mut Cursor<'_>, job: LentJob<'_>, limit: u64)
    ensures { Puts text.old (text_of limit (job_lent job.entry)) text.new }
{
    let cells = job.cells.rows.len() as u64;
    let regions = job.regions.rows.len() as u64;
    let rules = job.rules.declared().len() as u64;
    put_head(
        text, limit, job.start, cells, regions, rules, job.pool, job.name,
    );
    put_cells(text, job.cells, job.pool);
    put_regions(text, job.regions);
    put_rules(text, job.pool, job.rules);
}

// The text of a job that none of the checks refuses: it is counted, put into no bytes at all, and then put where it fits.
fn write_checked(job: LentJob<'_>, limit: u64, text: &mut [u8]) -> Saved
    requires { WellFormed (job_lent job) }
    ensures { Wrote (summary_of result) (length_of result) job.entry.start (text_of limit (job_lent job.entry)) text.old text.new }
{
    let mut none = [0u8; 0];
    let mut counted = Cursor {
        bytes: &mut none,
        at: 0,
    };
    put_job(&mut counted, job, limit);
    let needed = counted.at;
    if text.len() < needed || MAX_TEXT < needed {
        text.fill(0);
        return Err(SaveError::TooLong {
            count: job.start,
            actual: needed as u64,
        });
    }
    let mut written = Cursor { bytes: text, at: 0 };
    put_job(&mut written, job, limit);
    let length = written.keep();
    Ok(Written {
        count: job.start,
        length,
    })
}

// The text of a job, and zeros behind it. Refused with 1 to 5 as deciding is, then with 13 and the length needed where the text is longer
// than the lent bytes or than 65,536; after a refusal every lent byte is 0.
pub fn write_job(job: LentJob<'_>, limit: u64, text: &mut [u8]) -> Saved
    ensures answer { summary_of result ≡ saved limit (job_lent job.entry) (length text.old) }
    ensures length { length_of result ≡ saved_length limit (job_lent job.entry) (length text.old) }
    ensures bytes { text.new ≡ saved_bytes limit (job_lent job.entry) (length text.old) }
{
    if let Err(refusal) = checks::malformed(job) {
        text.fill(0);
        return Err(SaveError::Refused(refusal));
    }
    write_checked(job, limit, text)
}

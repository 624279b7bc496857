// A job text read and saved again, with all memory between them its own.
#![tactic(auto)]

ghost use Rattle.std.specs.Prelude.{◌≡◌, length};
ghost use Rattle.memory.specs.Memory.{page, page_length};
ghost use Rattle.jobtext.specs.Read.{read};
ghost use Rattle.savedtext.specs.Resaved.{resaved};
ghost use Rattle.resave.specs.Left.{shown, Left};

use jobmemory::report_unread;
use jobmemory::space::JobMemory;
use report::{write_refusal, write_refused};
use writer::{SaveError, Saved, write_job};

// The text stays where it was written; after a refusal its two lines take its place.
#[tactic(auto, unfolding(memory::specs::Memory::page))]
fn report_saved(answer: Saved, saved: &mut [u8]) -> usize
    requires { Left answer saved.old }
    ensures length { result ≡ page_length (length saved.old) (shown answer saved.old) }
    ensures bytes { saved.new ≡ page (length saved.old) (shown answer saved.old) }
{
    match answer {
        Ok(written) => written.length,
        Err(SaveError::Refused(refusal)) => write_refused(refusal, saved),
        Err(SaveError::TooLong { count, actual }) => write_refusal(13, 0, count, actual, saved),
    }
}

// The text of the job that a job text says, which is the same text; or the two lines of a refused report. Its length, 0 where it is longer
// than the lent bytes.
pub fn save_job(text: &[u8], saved: &mut [u8]) -> usize
    ensures length { result ≡ page_length (length saved.old) (resaved (length saved.old) (read text.now)) }
    ensures bytes { saved.new ≡ page (length saved.old) (resaved (length saved.old)
        (read text.now)) }
{
    let mut memory = JobMemory::empty();
    match memory.read(text) {
        Ok(read) => {
            let answer = write_job(read.job, read.limit, saved);
            report_saved(answer, saved)
        }
        Err(unread) => report_unread(unread, saved),
    }
}

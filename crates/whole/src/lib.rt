// A whole job: its text read, decided and printed, with all memory between them its own.
#![tactic(auto)]

ghost use Rattle.std.specs.Prelude.{◌≡◌, length};
ghost use Rattle.memory.specs.Memory.{page, page_length};
ghost use Rattle.reporttext.specs.Reports.{report_on};

use jobmemory::report_unread;
use jobmemory::space::JobMemory;

// The report on a job text: its length, 0 where it is longer than the lent bytes.
pub fn whole_job(text: &[u8], report: &mut [u8]) -> usize
    ensures length { result ≡ page_length (length report.old) (report_on text.now) }
    ensures bytes { report.new ≡ page (length report.old) (report_on text.now) }
{
    let mut memory = JobMemory::empty();
    match memory.read(text) {
        Ok(read) => decide::decide_job(read.job, read.limit, report),
        Err(unread) => report_unread(unread, report),
    }
}

// A job text read into memory of its own, which holds the largest job.
#![tactic(auto)]

ghost use Rattle.std.specs.Prelude.{◌≡◌, length};
ghost use Rattle.memory.specs.Memory.{page, page_length};
ghost use Rattle.reporttext.specs.Report.{summary_text};
ghost use Rattle.jobmemory.specs.Unread.{unread_summary};

use reader::Unread;

pub mod space;

// The two lines of a text that is not read: their length, 0 where they are longer than the lent bytes.
pub fn report_unread(unread: Unread, report: &mut [u8]) -> usize
    ensures length { result ≡ page_length (length report.old) (summary_text (unread_summary unread)) }
    ensures bytes { report.new ≡ page (length report.old) (summary_text (unread_summary unread)) }
{
    match unread {
        Unread::TooMany { start } => report::write_refusal(2, 0, start, 0, report),
        Unread::SpaceShort { start } => report::write_refusal(6, 0, start, 0, report),
        Unread::TooLong => report::write_refusal(10, 0, 0, 0, report),
        Unread::Malformed { line } => report::write_refusal(11, line, 0, 0, report),
    }
}

// The calls for C, which the crate `exports_c` puts into an archive. include/wavendiru.h declares them.
#![tactic(auto)]

ghost use Rattle.std.specs.Prelude.{◌≡◌, length};
ghost use Rattle.model.specs.Ratio.{ratio, channel};
ghost use Rattle.memory.specs.Memory.{page, page_length};
ghost use Rattle.reporttext.specs.Reports.{report_on};

pub fn wavendiru_ratio(value: f64, minimum: f64, maximum: f64) -> u32
    ensures { result ≡ ratio value minimum maximum }
{
    ratio::normalized_ppm(value, minimum, maximum)
}

pub fn wavendiru_channel(start: u8, end: u8, ppm: u32) -> u8
    ensures { result ≡ channel start end ppm }
{
    ratio::channel(start, end, ppm)
}

// The report on a job text: its length, 0 where it is longer than the lent bytes.
pub fn wavendiru_whole_job(text: &[u8], report: &mut [u8]) -> usize
    ensures length { result ≡ page_length (length report.old) (report_on text.now) }
    ensures bytes { report.new ≡ page (length report.old) (report_on text.now) }
{
    whole::whole_job(text, report)
}

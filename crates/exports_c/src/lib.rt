// The archive libexports.a: the calls of `exports` under C's names, with the same contracts. include/wavendiru.h declares them.
#![tactic(auto)]

ghost use Rattle.std.specs.Prelude.{◌≡◌, length};
ghost use Rattle.model.specs.Ratio.{ratio, channel};
ghost use Rattle.memory.specs.Memory.{page, page_length};
ghost use Rattle.reporttext.specs.Reports.{report_on};

#[unsafe(no_mangle)]
pub extern "C" fn wavendiru_ratio(value: f64, minimum: f64, maximum: f64) -> u32
    ensures { result ≡ ratio value minimum maximum }
{
    exports::wavendiru_ratio(value, minimum, maximum)
}

#[unsafe(no_mangle)]
pub extern "C" fn wavendiru_channel(start: u8, end: u8, ppm: u32) -> u8
    ensures { result ≡ channel start end ppm }
{
    exports::wavendiru_channel(start, end, ppm)
}

// The report on a job text: its length, 0 where it is longer than the lent bytes.
#[unsafe(no_mangle)]
pub extern "C" fn wavendiru_whole_job(text: &[u8], report: &mut [u8]) -> usize
    ensures length { result ≡ page_length (length report.old) (report_on text.now) }
    ensures bytes { report.new ≡ page (length report.old) (report_on text.now) }
{
    exports::wavendiru_whole_job(text, report)
}

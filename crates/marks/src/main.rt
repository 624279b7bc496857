// Reads a job text from standard input and writes its report to standard output. A line on standard error says where one of them fails.
#![tactic(auto)]

ghost use Rattle.std.specs.Prelude.{ℕ, ◌<◌, ◌≤◌, IfErr, IfOk, IfSome, OnOk, MatchResult, length, take};
ghost use Rattle.std.specs.Io.KnownBytes.{Appends, Consumes, IsAtEnd};
ghost use Rattle.reporttext.specs.Reports.{report_on};
ghost use Rattle.streams.specs.Failures.{Left};

use std::io;
use std::io::{Read, Write};
use streams::Failure;

// Reads until the input ends, a read fails or there is no room: how many bytes.
fn read_text<R: Read>(reader: &mut R, text: &mut [u8]) -> io::Result<usize>
    ensures count { IfOk result (λ n. n ≤ length text.new) }
    ensures bytes { MatchResult result
        (λ n. Consumes (R.remaining reader.old) (R.remaining reader.new) (take n text.new))
        (λ _. (n : ℕ) × (n ≤ length text.new) × Consumes (R.remaining reader.old) (R.remaining reader.new) (take n text.new)) }
    ensures end { IfOk result (λ n. n < length text.new → IsAtEnd (R.remaining reader.new)) }
{
    let mut done = 0;
    // until the input ends: the reader alone knows how many reads that takes
    while done < text.len() {
        let more = reader.read(&mut text[done..])?;
        if more == 0 {
            break;
        }
        done += more;
    }
    Ok(done)
}

// Reads to the end of a job text, or to one byte more than one may have, and writes the report on what it read.
fn print_report<R: Read, W: Write>(reader: &mut R, writer: &mut W) -> Result<(), Failure>
    ensures printed { OnOk result (IfSome (R.remaining reader.old) (λ text.
        Appends (W.contents writer.old) (W.contents writer.new) (report_on (take 65537 text)))) }
    ensures failed { IfErr result (λ e. Left e (W.contents writer.old) (W.contents writer.new)) }
{
    // one byte more than a job text may have
    let mut text = [0u8; 65537];
    let length = read_text(reader, &mut text).map_err(Failure::Reading)?;
    // the longest report
    let mut report = [0u8; 45033];
    let n = whole::whole_job(&text[..length], &mut report).min(report.len());
    writer.write_all(&report[..n]).map_err(Failure::Writing)
}

fn main(rt: HostRuntime) -> io::Result<()> {
    if let Err(failure) = print_report(&mut rt.stdin(), &mut io::writer(&rt)) {
        let _ = eprintln!(rt; "marks: {failure}");
        return Err(failure.into());
    }
    Ok(())
}

// Replays the lists that its arguments name: decides each job again and holds its report against the one in the list, saves it again, and
// saves its columns with their free parts filled at random. Before them, one job text is read into memories of several lengths.
#![tactic(auto)]

mod freeparts;
mod freerules;
mod layout;
mod list;
mod memories;
mod random;
mod saving;

use crate::list::Line;
use crate::saving::Outcome;
use lists::{Fault, Faulty};
use std::env::{Env, FillError};
use std::fs::File;
use std::io::Write;
use std::rt::Files;
use std::{fmt, io, str};

// Room for a job text and for a report of a list, more than the longest of each.
const TEXT: usize = 131072;

const REPORT: usize = 65536;

// How many jobs a list has had and how many of them mismatched, what saving them again came to, and how many columns were filled and
// differed.
#[derive(Clone, Copy)]
struct Tally {
    jobs: u64,
    mismatches: u64,
    equal: u64,
    refused: u64,
    differ: u64,
    filled: u64,
    astray: u64,
}

impl fmt::Display for Tally {
    fn fmt<W: fmt::Write>(&self, f: &mut fmt::Formatter<W>) -> fmt::Result {
        let jobs = self.jobs;
        let mismatches = self.mismatches;
        let equal = self.equal;
        let refused = self.refused;
        let differ = self.differ;
        let filled = self.filled;
        let astray = self.astray;
        write!(
            f,
            "{jobs} jobs, {mismatches} mismatches; saved again: {equal} equal, {refused} refused alike, {differ} differ\n"
        )?;
        write!(
            f,
            "{filled} columns with free parts filled at random: {astray} differ"
        )
    }
}

fn one_more(n: u64) -> u64 {
    n.wrapping_add(1)
}

// Jobs are counted from 0, and so are the bytes of a report. Where such a line cannot be written, the list's last line cannot either.
impl Tally {
    fn new() -> Tally {
        Tally {
            jobs: 0,
            mismatches: 0,
            equal: 0,
            refused: 0,
            differ: 0,
            filled: 0,
            astray: 0,
        }
    }

    // Columns of a job whose text is saved as it was.
    fn fill(&mut self, rt: &impl Print, text: &[u8]) {
        let job = self.jobs;
        let n = freeparts::differing(text, job);
        if n > 0 {
            let _ = println!(rt; "job {job}: {n} columns with free parts filled at random differ");
        }
        self.astray = self.astray.wrapping_add(n);
        self.filled = self.filled.wrapping_add(freeparts::ROUNDS);
    }

    // Saves the job again.
    fn save(&mut self, rt: &impl Print, text: &[u8], report: &[u8]) {
        match saving::save_again(text, report) {
            Outcome::Equal => {
                self.equal = one_more(self.equal);
                self.fill(rt, text);
            }
            Outcome::RefusedAlike => self.refused = one_more(self.refused),
            Outcome::Differs(place) => {
                let job = self.jobs;
                let _ = println!(rt; "job {job} saved again: byte {place} differs");
                self.differ = one_more(self.differ);
            }
        }
    }

    // Decides and saves a job text, whose report has to be as expected.
    fn replay(&mut self, rt: &impl Print, text: &[u8], expected: &[u8]) {
        // the longest report
        let mut report = [0u8; 45033];
        let n = whole::whole_job(text, &mut report).min(report.len());
        let report = &report[..n];
        self.save(rt, text, report);
        if let Some(place) = list::difference(expected, report) {
            let job = self.jobs;
            let _ = println!(rt; "job {job}: byte {place} differs");
            self.mismatches = one_more(self.mismatches);
        }
        self.jobs = one_more(self.jobs);
    }
}

// The line of a job is read: the place after its report.
fn replay_job(rt: &impl Print, file: &File, tally: &mut Tally, job: Line) -> Result<u64, Faulty> {
    let mut text = [0u8; TEXT];
    let text = list::read_bytes(file, job, &mut text)?;
    let next = job.next.wrapping_add(job.number);
    let report = list::read_line(file, next, b"report ", REPORT as u64)?;
    let mut expected = [0u8; REPORT];
    let expected = list::read_bytes(file, report, &mut expected)?;
    tally.replay(rt, text, expected);
    Ok(report.next.wrapping_add(report.number))
}

// The list's last line, which counts its jobs.
fn end_list(file: &File, place: u64, jobs: u64) -> Result<(), Faulty> {
    let line = list::read_line(file, place, b"end ", u64::MAX)?;
    if line.number != jobs {
        let fault = Fault::OtherCount;
        return Err(Faulty { place, fault });
    }
    list::end(file, line.next)
}

// A job and its report, and the place after them; or the end.
fn replay_next(
    rt: &impl Print,
    file: &File,
    tally: &mut Tally,
    place: u64,
) -> Result<Option<u64>, Faulty> {
    match list::read_line(file, place, b"job ", TEXT as u64) {
        Ok(job) => Ok(Some(replay_job(rt, file, tally, job)?)),
        Err(faulty) if faulty.fault == Fault::OtherWord => {
            end_list(file, place, tally.jobs)?;
            Ok(None)
        }
        Err(faulty) => Err(faulty),
    }
}

// A proved loop has to end, so this one counts its turns, to a number that no list uses up.
fn replay_list(rt: &impl Print, file: &File, tally: &mut Tally) -> Result<(), Faulty> {
    let mut place = 0;
    for _ in 0..u64::MAX {
        match replay_next(rt, file, tally, place)? {
            Some(next) => place = next,
            None => return Ok(()),
        }
    }
    let fault = Fault::Unreadable;
    Err(Faulty { place, fault })
}

// The last lines for a list: its counts, or its fault.
fn replay_file(rt: &impl Print, name: &str, file: &File) -> io::Result<()> {
    let mut tally = Tally::new();
    match replay_list(rt, file, &mut tally) {
        Ok(()) => println!(rt; "{name}: {tally}"),
        Err(faulty) => println!(rt; "{name}: {faulty}"),
    }
}

// A list by its name. The system may give any bytes for a name, and a path is text.
fn replay_named<R: Files<File = File> + Print>(rt: &R, name: &[u8]) -> io::Result<()> {
    if let Ok(path) = str::from_utf8(name) {
        if let Ok(file) = File::open(rt, path) {
            return replay_file(rt, path, &file);
        }
    }
    io::writer(rt).write_all(name)?;
    println!(rt; ": NO LIST")
}

// The list that the argument at an index names; false where there is no such argument. A name longer than any path is taken for an empty one.
fn replay_argument<R: Files<File = File> + Print + Env>(rt: &R, i: usize) -> io::Result<bool> {
    let mut name = [0u8; 4096];
    let n = match rt.arg(i, &mut name) {
        Ok(n) => n,
        Err(FillError::TooLong) => 0,
        Err(FillError::NotPresent) => return Ok(false),
    };
    replay_named(rt, &name[..n])?;
    Ok(true)
}

fn main(rt: HostRuntime) -> io::Result<()> {
    let n = memories::differing();
    println!(rt; "read_job: 12 calls over memories one short, exact and longer: {n} differ")?;
    if !replay_argument(&rt, 1)? {
        return println!(rt; "NO LIST is named");
    }
    for i in 2..usize::MAX {
        if !replay_argument(&rt, i)? {
            break;
        }
    }
    Ok(())
}

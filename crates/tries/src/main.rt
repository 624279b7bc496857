// Tries the compiled call on the lists that its arguments name: each value that it gives is held against the one in the list.
#![tactic(auto)]

mod compare;
mod jobs;
mod list;
mod rules;
mod trials;

use crate::compare::{Tally, one_more};
use crate::list::List;
use lists::{Faulty, offset};
use std::env::{Env, FillError};
use std::fs::File;
use std::io::Write;
use std::os::unix::fs::FileExt;
use std::rt::Files;
use std::{io, str};

// The part of a list that begins at a place, as far as there is room. Where reading fails, it is an empty part.
fn read_part<'a>(file: &File, place: u64, room: &'a mut [u8]) -> List<'a> {
    let n = file.read_at(room, offset(place)).unwrap_or(0);
    List::new(&room[..n], place)
}

// A list: how many jobs, and these. The text of a job has at most 65,536 bytes.
fn try_list(rt: &impl Print, file: &File, tally: &mut Tally) -> Result<(), Faulty> {
    let mut room = [0u8; 65536];
    let mut list = read_part(file, 0, &mut room);
    let jobs: u64 = list.number()?;
    let mut place = list.place;
    for _ in 0..jobs {
        tally.jobs = one_more(tally.jobs);
        let mut list = read_part(file, place, &mut room);
        jobs::try_job(rt, &mut list, tally)?;
        place = list.place;
    }
    read_part(file, place, &mut room).end()
}

// The last line for a list: its counts, or its fault.
fn try_file(rt: &impl Print, name: &str, file: &File) -> io::Result<()> {
    let mut tally = Tally::new();
    match try_list(rt, file, &mut tally) {
        Ok(()) => println!(rt; "{name}: {tally}"),
        Err(faulty) => println!(rt; "{name}: {faulty}"),
    }
}

// A list by its name. The system may give any bytes for a name, and a path is text.
fn try_named<R: Files<File = File> + Print>(rt: &R, name: &[u8]) -> io::Result<()> {
    if let Ok(path) = str::from_utf8(name) {
        if let Ok(file) = File::open(rt, path) {
            return try_file(rt, path, &file);
        }
    }
    io::writer(rt).write_all(name)?;
    println!(rt; ": NO LIST")
}

// The list that the argument at an index names; false where there is no such argument. A name longer than any path is taken for an empty one.
fn try_argument<R: Files<File = File> + Print + Env>(rt: &R, i: usize) -> io::Result<bool> {
    let mut name = [0u8; 4096];
    let n = match rt.arg(i, &mut name) {
        Ok(n) => n,
        Err(FillError::TooLong) => 0,
        Err(FillError::NotPresent) => return Ok(false),
    };
    try_named(rt, &name[..n])?;
    Ok(true)
}

fn main(rt: HostRuntime) -> io::Result<()> {
    for i in 1..usize::MAX {
        if !try_argument(&rt, i)? {
            break;
        }
    }
    Ok(())
}

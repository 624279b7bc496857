// A job in columns, with all that a text has no place for filled at random, is saved as the job's text.
use crate::freerules::{copy_names, filled_rules};
use crate::layout::{Layout, fill};
use crate::list::difference;
use crate::random::{drawn, low32};
use jobmemory::space::JobMemory;
use lent::at;
use model::{LentCells, LentJob, Span};
use writer::Written;

// How often each job is filled.
pub(crate) const ROUNDS: u64 = 3;

// The kinds of cells, as their column has them.
const NUMBER: u8 = 1;

const DATE: u8 = 2;

const TEXT: u8 = 3;

const BOOL: u8 = 4;

// ---- columns

// The bits of texts, bools and errors are free.
fn free_num(seed: u64, kind: u8, num: u64, i: usize) -> u64 {
    match kind {
        NUMBER | DATE => num,
        _ => drawn(seed, 6, i),
    }
}

// The lengths of numbers, dates and errors are free.
fn free_len(seed: u64, kind: u8, len: u32, i: usize) -> u32 {
    match kind {
        TEXT | BOOL => len,
        _ => low32(drawn(seed, 7, i)),
    }
}

// The places of all but texts are free.
fn free_at(l: Layout, kind: u8, span: Span, i: usize) -> u32 {
    match kind {
        TEXT => l.moved(span).at,
        _ => low32(drawn(l.seed, 8, i)),
    }
}

fn span_of(cells: &LentCells, i: usize) -> Span {
    Span {
        at: at(cells.ats, i, 0),
        len: at(cells.lens, i, 0),
    }
}

// The sheet's name, the texts of cells and the names of rules into the second pool.
fn copy_texts(l: Layout, job: &LentJob, second: &mut [u8]) {
    l.copy_text(job.pool, second, job.name);
    for (i, kind) in job.cells.kinds.iter().enumerate() {
        if *kind == TEXT {
            l.copy_text(job.pool, second, span_of(&job.cells, i));
        }
    }
    copy_names(l, job.pool, second, job.rules);
}

// The first n elements, or all where there are fewer.
fn front<T>(column: &[T], n: usize) -> &[T] {
    column.get(..n).unwrap_or(column)
}

// As many elements, each of them made of its index.
fn made<T: Drop, F: Fn(usize) -> T>(column: &mut [T], n: usize, make: F) -> &mut [T]
    requires { F.IsAlwaysCallable make }
{
    let n = n.min(column.len());
    let made = &mut column[..n];
    for (i, x) in made.iter_mut().enumerate() {
        *x = make(i);
    }
    made
}

// ---- a round

// Writes a job into as many bytes as its text has.
fn written(text: &[u8], job: LentJob, limit: u64) -> bool {
    let start = job.start;
    let mut saved = [7u8; 65536];
    let room = text.len().min(saved.len());
    match writer::write_job(job, limit, &mut saved[..room]) {
        Ok(Written { count, length }) => {
            count == start && difference(text, front(&saved, length)).is_none()
        }
        Err(_) => false,
    }
}

// Fills the free parts of a job that was read, and writes it. The second pool holds its texts.
fn alike<'a>(text: &[u8], l: Layout, job: LentJob<'a>, limit: u64, second: &'a [u8]) -> bool {
    let cells = job.cells;
    let n = cells.kinds.len();
    let kind = |i| at(cells.kinds, i, 0);
    let num = |i| free_num(l.seed, kind(i), at(cells.nums, i, 0), i);
    let place = |i| free_at(l, kind(i), span_of(&cells, i), i);
    let len = |i| free_len(l.seed, kind(i), at(cells.lens, i, 0), i);
    let mut nums = [0u64; 1024];
    let mut ats = [0u32; 1024];
    let mut lens = [0u32; 1024];
    let rules = filled_rules(l, job.rules);
    let filled = LentJob {
        cells: LentCells {
            nums: made(&mut nums, n, num),
            ats: made(&mut ats, n, place),
            lens: made(&mut lens, n, len),
            ..cells
        },
        pool: second,
        name: l.moved(job.name),
        rules: &rules,
        ..job
    };
    written(text, filled, limit)
}

// How many rounds of a job differ. Each lays its texts over the pool that the round before it left.
fn rounds(text: &[u8], number: u64, job: &LentJob, limit: u64) -> u64 {
    let mut second = [0u8; 65536];
    fill(&mut second, number);
    let mut n: u64 = 0;
    for round in 0..ROUNDS {
        let l = Layout::draw(drawn(number, round, 0), job.pool.len());
        copy_texts(l, job, &mut second);
        if !alike(text, l, *job, limit, &second) {
            n = n.wrapping_add(1);
        }
    }
    n
}

// Reads a job text, and fills it. Its number in the list is the seed.
pub(crate) fn differing(text: &[u8], number: u64) -> u64 {
    let mut memory = JobMemory::empty();
    match memory.read(text) {
        Ok(read) => rounds(text, number, &read.job, read.limit),
        Err(_) => ROUNDS,
    }
}

// One job text into memory one element short, exact and longer: what `read_job` answers, and every element that it leaves.
use lent::at;
use reader::{ReadJob, Unread};

// Which memory is one element short, counted from 1; past the ten of them, none is and all are one longer.
const LONGER: u64 = 11;

// What a try lends of memory `place`, which has one element more than the job takes.
fn part<T>(memory: &mut [T], place: u64, try_number: u64) -> &mut [T] {
    let less = match try_number {
        LONGER => 0,
        _ if try_number == place => 2,
        _ => 1,
    };
    let n = memory.len().saturating_sub(less);
    &mut memory[..n]
}

// Whether a memory holds what it has to, with zeros behind it; or zeros alone.
fn holds<T: Copy + Default + PartialEq>(memory: &[T], held: bool, expected: &[T]) -> bool {
    let zero = T::default();
    let expected = if held { expected } else { &[] };
    memory
        .iter()
        .enumerate()
        .all(|(i, x)| *x == at(expected, i, zero))
}

// The answer: the job, or that the space is too short, with its start alone.
fn same_answer(answer: Result<ReadJob, Unread>, held: bool) -> bool {
    match answer {
        Ok(job) => {
            held && job.start == 5
                && job.limit == 100
                && job.cells == 2
                && job.regions == 1
                && job.used == 3
        }
        Err(Unread::SpaceShort { start }) => !held && start == 5,
        Err(_) => false,
    }
}

// Reads the job into what is lent, and looks at the answer and every element.
fn tried(
    held: bool,
    rows: &mut [u32],
    cols: &mut [u16],
    kinds: &mut [u8],
    wraps: &mut [u8],
    nums: &mut [u64],
    ats: &mut [u32],
    lens: &mut [u32],
    regionrows: &mut [u32],
    regioncols: &mut [u16],
    pool: &mut [u8],
) -> bool {
    let answer = reader::read_job(
        b"limit start cells regions rules name\n100 5 2 1 1 t4e\nrow col wraps value\n3 1 1 n0000000000000009\n4 2 2 t41\nrow col\n3 1\n\
        top left bottom right priority stop imported rule p1 p2 p3 p4\n0 0 9 9 - 0 0 cellis 4 r3,1,0,t4d - ff0000\n",
        rows,
        cols,
        kinds,
        wraps,
        nums,
        ats,
        lens,
        regionrows,
        regioncols,
        pool,
    );
    same_answer(answer, held)
        && holds(rows, held, &[3, 4])
        && holds(cols, held, &[1, 2])
        && holds(kinds, held, &[1, 3])
        && holds(wraps, held, &[1, 2])
        && holds(nums, held, &[9])
        && holds(ats, held, &[0, 1])
        && holds(lens, held, &[0, 1])
        && holds(regionrows, held, &[3])
        && holds(regioncols, held, &[1])
        && holds(pool, held, b"NAM")
}

// Try 0 has memory of the exact lengths. All of it holds sevens first.
fn same(n: u64) -> bool {
    let mut rows = [7u32; 3];
    let mut cols = [7u16; 3];
    let mut kinds = [7u8; 3];
    let mut wraps = [7u8; 3];
    let mut nums = [7u64; 3];
    let mut ats = [7u32; 3];
    let mut lens = [7u32; 3];
    let mut regionrows = [7u32; 2];
    let mut regioncols = [7u16; 2];
    let mut pool = [7u8; 4];
    tried(
        n == 0 || n == LONGER,
        part(&mut rows, 1, n),
        part(&mut cols, 2, n),
        part(&mut kinds, 3, n),
        part(&mut wraps, 4, n),
        part(&mut nums, 5, n),
        part(&mut ats, 6, n),
        part(&mut lens, 7, n),
        part(&mut regionrows, 8, n),
        part(&mut regioncols, 9, n),
        part(&mut pool, 10, n),
    )
}

// How many tries differ.
pub(crate) fn differing() -> usize {
    (0..=LONGER).filter(|n| !same(*n)).count()
}

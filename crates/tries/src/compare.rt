// What the call gave, held against a list.
use crate::list::List;
use lists::Faulty;
use model::{Answer, Answered, Refusal};
use std::fmt;

// How many mismatches of a list are written out.
const WRITTEN: u64 = 100;

// The present job and run of a list, counted from 1, and how many runs, values and mismatches there were so far.
#[derive(Clone, Copy)]
pub(crate) struct Tally {
    pub(crate) jobs: u64,
    pub(crate) run: u64,
    pub(crate) runs: u64,
    pub(crate) values: u64,
    pub(crate) mismatches: u64,
}

impl fmt::Display for Tally {
    fn fmt<W: fmt::Write>(&self, f: &mut fmt::Formatter<W>) -> fmt::Result {
        let jobs = self.jobs;
        let runs = self.runs;
        let values = self.values;
        let mismatches = self.mismatches;
        write!(
            f,
            "{jobs} jobs, {runs} runs, {values} values compared, {mismatches} mismatches"
        )
    }
}

pub(crate) fn one_more(n: u64) -> u64 {
    n.wrapping_add(1)
}

// What a value is called: the name of a field, or of a column with the value's index.
#[derive(Clone, Copy)]
struct Place<'a> {
    name: &'a str,
    index: Option<usize>,
}

impl fmt::Display for Place<'_> {
    fn fmt<W: fmt::Write>(&self, f: &mut fmt::Formatter<W>) -> fmt::Result {
        let name = self.name;
        match self.index {
            None => write!(f, "{name}"),
            Some(index) => write!(f, "{name} {index}"),
        }
    }
}

// A value of a column as a list has it.
pub(crate) trait Listed: Copy {
    fn listed(self) -> u64;
}

impl Listed for u32 {
    fn listed(self) -> u64 {
        u64::from(self)
    }
}

// 0 for +0, and 1 for every other number, NaN too.
impl Listed for f64 {
    fn listed(self) -> u64 {
        if self == 0.0 && self.is_sign_positive() {
            0
        } else {
            1
        }
    }
}

impl Tally {
    pub(crate) fn new() -> Tally {
        Tally {
            jobs: 0,
            run: 0,
            runs: 0,
            values: 0,
            mismatches: 0,
        }
    }

    // Where a mismatch cannot be written, the list's last line cannot either.
    fn compare(&mut self, rt: &impl Print, place: Place, expected: u64, given: u64) {
        self.values = one_more(self.values);
        if expected == given {
            return;
        }
        self.mismatches = one_more(self.mismatches);
        if self.mismatches <= WRITTEN {
            let job = self.jobs;
            let run = self.run;
            let _ = println!(rt; "job {job} run {run} {place}: expected {expected}, given {given}");
        }
    }

    // The number of document 01, place, count, actual, marks, deferred and simplified.
    pub(crate) fn compare_answer(
        &mut self,
        rt: &impl Print,
        list: &mut List,
        answer: Answer,
    ) -> Result<(), Faulty> {
        let names = [
            "number",
            "place",
            "count",
            "actual",
            "marks",
            "deferred",
            "simplified",
        ];
        for (name, given) in names.iter().zip(fields(answer).iter()) {
            let place = Place { name, index: None };
            self.compare(rt, place, list.number()?, *given);
        }
        Ok(())
    }

    // A column in a list: how many numbers follow, and these. The others are 0.
    pub(crate) fn compare_column<T: Listed>(
        &mut self,
        rt: &impl Print,
        list: &mut List,
        name: &str,
        column: &[T],
    ) -> Result<(), Faulty> {
        let given = list.count(column.len())?;
        for (i, x) in column.iter().enumerate() {
            let expected = if i < given { list.number()? } else { 0 };
            let index = Some(i);
            self.compare(rt, Place { name, index }, expected, x.listed());
        }
        Ok(())
    }
}

fn fields(answer: Answer) -> [u64; 7] {
    match answer {
        Ok(
            Answered {
                count,
                marks,
                deferred,
                simplified,
            },
        ) => [0, 0, count, 0, marks, deferred, simplified],
        Err(refusal) => {
            let (number, place, count, actual) = match refusal {
                Refusal::LengthsDiffer { count } => (1, 0, count, 0),
                Refusal::TooMany { count } => (2, 0, count, 0),
                Refusal::OutOfBounds { place, count } => (3, place, count, 0),
                Refusal::NotRising { place, count } => (4, place, count, 0),
                Refusal::NameOutside { place, count } => (5, place, count, 0),
                Refusal::SpaceShort { count } => (6, 0, count, 0),
                Refusal::LimitExceeded { count, actual } => (7, 0, count, actual),
                Refusal::CoordinateOverflow { count } => (8, 0, count, 0),
                Refusal::MarksExceedSpace { count, actual } => (9, 0, count, actual),
            };
            [number, place, count, actual, 0, 0, 0]
        }
    }
}

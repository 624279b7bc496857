// A job of a list: the start, the sheet's name, the rules, the cell columns, the region columns, the pool, and the runs.
use crate::compare::Tally;
use crate::list::List;
use crate::rules::read_rules;
use crate::trials::try_runs;
use lists::Faulty;
use model::{LentCells, LentJob, LentRegions, Span};

pub(crate) fn try_job(rt: &impl Print, list: &mut List, tally: &mut Tally) -> Result<(), Faulty> {
    let start = list.number()?;
    let name = Span {
        at: list.number()?,
        len: list.number()?,
    };
    let rules = &read_rules(list)?;
    let mut rows = [0u32; 1040];
    let mut cols = [0u16; 1040];
    let mut kinds = [0u8; 1040];
    let mut wraps = [0u8; 1040];
    let mut nums = [0u64; 1040];
    let mut ats = [0u32; 1040];
    let mut lens = [0u32; 1040];
    let cells = LentCells {
        rows: list.column(&mut rows)?,
        cols: list.column(&mut cols)?,
        kinds: list.column(&mut kinds)?,
        wraps: list.column(&mut wraps)?,
        nums: list.column(&mut nums)?,
        ats: list.column(&mut ats)?,
        lens: list.column(&mut lens)?,
    };
    let mut region_rows = [0u32; 1040];
    let mut region_cols = [0u16; 1040];
    let regions = LentRegions {
        rows: list.column(&mut region_rows)?,
        cols: list.column(&mut region_cols)?,
    };
    let mut pool = [0u8; 65600];
    let pool = list.column(&mut pool)?;
    let job = LentJob {
        cells,
        regions,
        pool,
        name,
        rules,
        start,
    };
    try_runs(rt, list, tally, &job)
}

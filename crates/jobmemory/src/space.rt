// The memory, and a job as it lies there.
ghost use Rattle.std.specs.Prelude.{◌≡◌};
ghost use Rattle.jobtext.specs.Read.{read};
ghost use Rattle.jobmemory.specs.ReadAs.{ReadAs, blank_memory, empty_memory};

use model::{LentCells, LentJob, LentRegions, Rules};
use reader::{Unread, read_job};
use rulelines::blank_rules;

// A job as it was read, and its limit.
#[derive(Clone, Copy)]
pub struct LimitedJob<'a> {
    pub job: LentJob<'a>,
    pub limit: u64,
}

#[derive(Drop)]
pub struct JobMemory {
    rows: [u32; 1024],
    cols: [u16; 1024],
    kinds: [u8; 1024],
    wraps: [u8; 1024],
    nums: [u64; 1024],
    ats: [u32; 1024],
    lens: [u32; 1024],
    region_rows: [u32; 1024],
    region_cols: [u16; 1024],
    pool: [u8; 32768],
    rules: Option<Rules>,
}

impl JobMemory {
    // No rules yet: so all of it is zeros, which are made in place.
    pub fn empty() -> JobMemory
        ensures { result ≡ empty_memory }
    {
        JobMemory {
            rows: [0; 1024],
            cols: [0; 1024],
            kinds: [0; 1024],
            wraps: [0; 1024],
            nums: [0; 1024],
            ats: [0; 1024],
            lens: [0; 1024],
            region_rows: [0; 1024],
            region_cols: [0; 1024],
            pool: [0; 32768],
            rules: None,
        }
    }

    // Blank records for rules, of which none counts. Not inlined: what it makes it of would stay in the caller's frame as long as the caller
    // runs.
    #[inline(never)]
    pub fn new() -> JobMemory
        ensures { result ≡ blank_memory }
    {
        JobMemory {
            rules: Some(blank_rules()),
            ..JobMemory::empty()
        }
    }

    // The job that a text says, whatever the memory held before. Not inlined: what reading needs would stay in the caller's frame as long as
    // the caller runs.
    #[inline(never)]
    pub fn read<'a>(&'a mut self, text: &[u8]) -> Result<LimitedJob<'a>, Unread>
        ensures { ReadAs (read text.now) result }
    {
        let job = read_job(
            text,
            &mut self.rows,
            &mut self.cols,
            &mut self.kinds,
            &mut self.wraps,
            &mut self.nums,
            &mut self.ats,
            &mut self.lens,
            &mut self.region_rows,
            &mut self.region_cols,
            &mut self.pool,
        )?;
        let rules = self.rules.insert(job.rules);
        Ok(LimitedJob {
            job: LentJob {
                cells: LentCells {
                    rows: &self.rows[..job.cells],
                    cols: &self.cols[..job.cells],
                    kinds: &self.kinds[..job.cells],
                    wraps: &self.wraps[..job.cells],
                    nums: &self.nums[..job.cells],
                    ats: &self.ats[..job.cells],
                    lens: &self.lens[..job.cells],
                },
                regions: LentRegions {
                    rows: &self.region_rows[..job.regions],
                    cols: &self.region_cols[..job.regions],
                },
                pool: &self.pool[..job.used],
                name: job.name,
                rules,
                start: job.start,
            },
            limit: job.limit,
        })
    }
}

#[cfg(test)]
mod tests {
    use super::*;

    #[test]
    fn a_job_is_read_into_new_memory(rt: HostRuntime) {
        let text = b"limit start cells regions rules name\n100 7 1 1 1 t53\n\
            row col wraps value\n0 0 0 n3ff0000000000000\n\
            row col\n0 0\n\
            top left bottom right priority stop imported rule p1 p2 p3 p4\n0 0 0 0 - 0 0 bar 00ff00 - - -\n";
        let mut memory = JobMemory::new();
        match memory.read(text) {
            Ok(read) => {
                assert_eq!(rt; read.limit, 100);
                assert_eq!(rt; read.job.start, 7);
                assert_eq!(rt; read.job.rules.declared().len(), 1);
            }
            Err(_) => assert!(rt; false, "the text is one of a job"),
        }
    }
}

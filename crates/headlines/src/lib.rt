// The first two lines of a job text: their names, the five numbers, and the sheet's name.
#![tactic(auto)]

ghost use Rattle.std.specs.Prelude.{◌≡◌, length};
ghost use Rattle.jobtext.specs.Text.{head};
ghost use Rattle.headlines.specs.Heads.{counts, counts_of, head_of, head_pooled};

use fields::{Malformed, decimal};

#[derive(Clone, Copy)]
struct Counts {
    limit: u64,
    start: u64,
    cells: u64,
    regions: u64,
    rules: u64,
    next: usize,
}

// What the first two lines say, `name` being the length of the sheet's name, whether the name fits the pool, and the place after them.
#[derive(Clone, Copy)]
pub struct ReadHead {
    pub fits: bool,
    pub limit: u64,
    pub start: u64,
    pub cells: u64,
    pub regions: u64,
    pub rules: u64,
    pub name: usize,
    pub next: usize,
}

// The five numbers of the second line.
#[tactic(auto, using(crate::proofs::Told::reads), unfolding(crate::specs::Heads::counts))]
fn read_counts(s: &[u8], at: usize) -> Result<Counts, Malformed>
    ensures { result ≡ counts_of (counts.parse s.now at) }
{
    let limit = decimal(s, at, u64::MAX, b' ')?;
    let start = decimal(s, limit.next, u64::MAX, b' ')?;
    let cells = decimal(s, start.next, u64::MAX, b' ')?;
    let regions = decimal(s, cells.next, u64::MAX, b' ')?;
    let rules = decimal(s, regions.next, u64::MAX, b' ')?;
    Ok(Counts {
        limit: limit.value,
        start: start.value,
        cells: cells.value,
        regions: regions.value,
        rules: rules.value,
        next: rules.next,
    })
}

// The first two lines, with the sheet's name alone in the pool. Where a line is malformed or the name does not fit, the pool becomes 0.
pub fn read_head(s: &[u8], pool: &mut [u8]) -> Result<ReadHead, Malformed>
    ensures value { result ≡ head_of (head.parse s.now 0) (length pool.old) }
    ensures pool_after { pool.new ≡ head_pooled (head.parse s.now 0) (length pool.old) }
{
    pool.fill(0);
    let names = fields::word(s, 0, b"limit start cells regions rules name\n")?;
    let counts = read_counts(s, names)?;
    let mark = fields::byte(s, counts.next, b't')?;
    let name = fields::text(s, mark, b'\n', pool, 0)?;
    Ok(ReadHead {
        fits: name.fits,
        limit: counts.limit,
        start: counts.start,
        cells: counts.cells,
        regions: counts.regions,
        rules: counts.rules,
        name: name.length,
        next: name.next,
    })
}

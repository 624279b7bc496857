// A whole job text, into lent columns and a lent pool.
#![tactic(auto)]

ghost use Rattle.std.specs.Prelude.{◌≤◌, ◌&&◌, ◌||◌, ◌==◌, ◌≡◌, leb, ltb, length, count_by};
ghost use Rattle.std.specs.List.{list_all};
ghost use Rattle.grammar.specs.Gram.{line_of};
ghost use Rattle.fields.specs.Room.{Room};
ghost use Rattle.celllines.specs.Columns.{columns};
ghost use Rattle.jobtext.specs.Text.{head, tail, body_of};
ghost use Rattle.jobtext.specs.Read.{max_text, read};
ghost use Rattle.reader.specs.Held.{read_job, held, held_after};
ghost use Rattle.reader.specs.Results.{IsTail, IsBody, columns_fit, start_if, Named, finished, JobLeft};

use celllines::{clear_cells, read_cells};
use fields::{Malformed, within};
use model::{Rules, Span};
use rulelines::RuleSection;

// A job as it was read, with its numbers of cells and regions and up to where the pool is used.
#[derive(Clone, Copy)]
pub struct ReadJob {
    pub start: u64,
    pub limit: u64,
    pub cells: usize,
    pub regions: usize,
    pub used: usize,
    pub name: Span,
    pub rules: Rules,
}

// Why no job is read from a text.
#[derive(Clone, Copy)]
pub enum Unread {
    // 2
    TooMany { start: u64 },
    // 6
    SpaceShort { start: u64 },
    // 10
    TooLong,
    // 11
    Malformed { line: u64 },
}

// What the first two lines say, and the place after them.
#[derive(Clone, Copy)]
struct Start {
    limit: u64,
    start: u64,
    cells: usize,
    regions: usize,
    rules: usize,
    name: usize,
    next: usize,
}

fn line_feeds(s: &[u8]) -> usize
    ensures { result ≡ count_by (λ b. b == 10) s.now }
{
    s.iter().filter(|b| **b == b'\n').count()
}

// The number of the line that a place of the text stands in.
fn line_of(s: &[u8], at: usize) -> u64
    requires { length s.now ≤ max_text }
    ensures { result ≡ line_of s.now at }
{
    let end = at.min(s.len());
    line_feeds(&s[..end]) as u64 + 1
}

fn malformed(s: &[u8], place: Malformed) -> Unread
    requires { length s.now ≤ max_text }
    ensures { result ≡ Unread.Malformed (line_of s.now place.at) }
{
    Unread::Malformed {
        line: line_of(s, place.at),
    }
}

// ---- the first two lines

fn is_over(cells: u64, regions: u64, rules: u64) -> bool
    ensures { result ≡ (ltb 1024 cells || ltb 1024 regions || ltb 64 rules) }
{
    1024 < cells || 1024 < regions || 64 < rules
}

// The first two lines, behind the test on the text's length and before the one on the counts.
fn read_start(s: &[u8], pool: &mut [u8]) -> Result<Start, Unread>
    ensures value { result ≡ start_if (ltb max_text (length s.now)) s.now }
    ensures named { Named (ltb max_text (length s.now)) (head.parse s.now 0) pool.old
        pool.new }
{
    if 65536 < s.len() {
        return Err(Unread::TooLong);
    }
    match headlines::read_head(s, pool) {
        Ok(head) => {
            if is_over(head.cells, head.regions, head.rules) {
                return Err(Unread::TooMany { start: head.start });
            }
            Ok(Start {
                limit: head.limit,
                start: head.start,
                cells: head.cells as usize,
                regions: head.regions as usize,
                rules: head.rules as usize,
                name: head.name,
                next: head.next,
            })
        }
        Err(place) => Err(malformed(s, place)),
    }
}

// ---- the sections

// The sections of regions and rules, with the names of the rules into the pool from `used` on.
fn read_tail(
    s: &[u8],
    at: usize,
    regions: usize,
    rules: usize,
    used: usize,
    regionrows: &mut [u32],
    regioncols: &mut [u16],
    pool: &mut [u8],
) -> Result<RuleSection, Malformed>
    requires { Room s.now at used × (rules ≤ 64) }
    ensures { IsTail ((tail regions rules).parse s.now at) used regionrows.old
        regioncols.old pool.old result regionrows.new regioncols.new pool.new }
{
    let names = fields::word(s, at, b"row col\n")?;
    let section = regionlines::read_regions(s, names, regions, regionrows, regioncols)?;
    let rule_names = fields::word(
        s,
        section.next,
        b"top left bottom right priority stop imported rule p1 p2 p3 p4\n",
    )?;
    rulelines::read_rules(s, rule_names, rules, pool, used)
}

// All sections, behind a head whose name has `used` bytes.
fn read_body(
    s: &[u8],
    at: usize,
    cells: usize,
    regions: usize,
    rules: usize,
    used: usize,
    rows: &mut [u32],
    cols: &mut [u16],
    kinds: &mut [u8],
    wraps: &mut [u8],
    nums: &mut [u64],
    ats: &mut [u32],
    lens: &mut [u32],
    regionrows: &mut [u32],
    regioncols: &mut [u16],
    pool: &mut [u8],
) -> Result<RuleSection, Malformed>
    requires { Room s.now at used × (rules ≤ 64) }
    ensures { IsBody ((body_of cells regions rules).parse s.now at) used (held (columns rows.old cols.old kinds.old wraps.old nums.old ats.old lens.old) regionrows.old regioncols.old pool.old) result (held
        (columns rows.new cols.new kinds.new wraps.new nums.new ats.new lens.new) regionrows.new regioncols.new pool.new) }
{
    let names = fields::word(s, at, b"row col wraps value\n")?;
    let section = read_cells(
        s, names, cells, used, rows, cols, kinds, wraps, nums, ats, lens, pool,
    )?;
    read_tail(
        s,
        section.next,
        regions,
        rules,
        section.used,
        regionrows,
        regioncols,
        pool,
    )
}

// ---- the whole text

// Whether the numbers of cells and regions are at most the lengths of their columns.
fn columns_fit(cells: usize, regions: usize, columns: &[usize], regioncolumns: &[usize]) -> bool
    ensures { result ≡ (list_all (λ size. leb cells size) columns.now && list_all (λ size. leb regions size) regioncolumns.now) }
{
    within(cells, columns) && within(regions, regioncolumns)
}

// Nothing may follow the sections; `fits` says whether the columns are long enough for the job, and `body` whether the pool is.
fn finish(s: &[u8], start: Start, body: RuleSection, fits: bool) -> Result<ReadJob, Unread>
    requires { (length s.now ≤ max_text) × (start.name ≤ max_text) }
    ensures { result ≡ finished s.now start (Ok body) fits }
{
    if body.next != s.len() {
        return Err(malformed(s, Malformed { at: body.next }));
    }
    if !fits || !body.fits {
        return Err(Unread::SpaceShort { start: start.start });
    }
    let rules = body.rules;
    let len = start.name as u32;
    Ok(ReadJob {
        start: start.start,
        limit: start.limit,
        cells: start.cells,
        regions: start.regions,
        used: body.used,
        name: Span { at: 0, len },
        rules,
    })
}

// A job text; where it is refused, nothing is said of what is lent.
fn read_text(
    s: &[u8],
    rows: &mut [u32],
    cols: &mut [u16],
    kinds: &mut [u8],
    wraps: &mut [u8],
    nums: &mut [u64],
    ats: &mut [u32],
    lens: &mut [u32],
    regionrows: &mut [u32],
    regioncols: &mut [u16],
    pool: &mut [u8],
) -> Result<ReadJob, Unread>
    ensures value { result ≡ read_job (held (columns rows.old cols.old kinds.old wraps.old nums.old ats.old lens.old) regionrows.old regioncols.old pool.old) (read s.now) }
    ensures job_left { JobLeft (read s.now) (held (columns rows.old cols.old kinds.old wraps.old nums.old ats.old lens.old) regionrows.old regioncols.old pool.old) (held (columns
        rows.new cols.new kinds.new wraps.new nums.new ats.new lens.new) regionrows.new regioncols.new pool.new) }
{
    let start = read_start(s, pool)?;
    let columns = [
        rows.len(),
        cols.len(),
        kinds.len(),
        wraps.len(),
        nums.len(),
        ats.len(),
        lens.len(),
    ];
    let regioncolumns = [regionrows.len(), regioncols.len()];
    let fits = columns_fit(start.cells, start.regions, &columns, &regioncolumns);
    match read_body(
        s,
        start.next,
        start.cells,
        start.regions,
        start.rules,
        start.name,
        rows,
        cols,
        kinds,
        wraps,
        nums,
        ats,
        lens,
        regionrows,
        regioncols,
        pool,
    ) {
        Ok(body) => finish(s, start, body, fits),
        Err(place) => Err(malformed(s, place)),
    }
}

// A job text into the columns from index 0 on, with its texts into the front of the pool, and zeros behind them. Where the text is
// refused, or the job is longer than a column or the pool, all that is lent becomes 0.
// Not inlined: a caller's frame would hold this one's memory for as long as the caller runs.
#[inline(never)]
pub fn read_job(
    s: &[u8],
    rows: &mut [u32],
    cols: &mut [u16],
    kinds: &mut [u8],
    wraps: &mut [u8],
    nums: &mut [u64],
    ats: &mut [u32],
    lens: &mut [u32],
    regionrows: &mut [u32],
    regioncols: &mut [u16],
    pool: &mut [u8],
) -> Result<ReadJob, Unread>
    ensures value { result ≡ read_job (held (columns rows.old cols.old kinds.old wraps.old nums.old ats.old lens.old) regionrows.old regioncols.old pool.old) (read s.now) }
    ensures pool_after { held (columns rows.new cols.new kinds.new wraps.new nums.new ats.new lens.new) regionrows.new regioncols.new pool.new
        ≡ held_after (read s.now) (held (columns rows.old cols.old kinds.old wraps.old nums.old ats.old lens.old) regionrows.old regioncols.old pool.old) }
{
    let job = read_text(
        s, rows, cols, kinds, wraps, nums, ats, lens, regionrows, regioncols, pool,
    );
    if job.is_err() {
        clear_cells(rows, cols, kinds, wraps, nums, ats, lens, pool);
        regionrows.fill(0);
        regioncols.fill(0);
    }
    job
}

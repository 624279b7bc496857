// Cell lines of a job text, into lent columns, with the texts into a lent pool.
#![tactic(auto)]

ghost use Rattle.std.specs.Prelude.{◌≡◌, length, replicate, set};
ghost use Rattle.grammar.specs.Parts.{times_p};
ghost use Rattle.fields.specs.Room.{Room};
ghost use Rattle.jobtext.specs.Fields.{value};
ghost use Rattle.jobtext.specs.Text.{cell_line};
ghost use Rattle.celllines.specs.Columns.{columns, stored_cell, left_of, IsLeft, zero_columns, cells_at, section_of, columns_after, pool_after};
ghost use Rattle.celllines.specs.Lines.{value_of, ValueStored, cell_of, CellStored};

use fields::Malformed;

// A value as the columns hold it, the place after it, and up to where the pool is then used.
#[derive(Clone, Copy)]
struct ReadValue {
    kind: u8,
    num: u64,
    at: u32,
    len: u32,
    next: usize,
    used: usize,
}

#[derive(Clone, Copy)]
struct ReadCell {
    row: u32,
    col: u16,
    kind: u8,
    wraps: u8,
    num: u64,
    at: u32,
    len: u32,
    next: usize,
    used: usize,
}

// The place after some lines, and up to where the pool is then used.
#[derive(Clone, Copy)]
struct LinesRead {
    next: usize,
    used: usize,
}

// The same, and whether all cells fit the columns and their texts the pool.
#[derive(Clone, Copy)]
pub struct Section {
    pub fits: bool,
    pub next: usize,
    pub used: usize,
}

// A value with no text in the pool.
fn plain(kind: u8, num: u64, len: u32, next: usize, used: usize) -> ReadValue
    ensures { result ≡ record { kind = kind; num = num; at = 0; len = len; next = next; used = used } }
{
    ReadValue {
        kind,
        num,
        at: 0,
        len,
        next,
        used,
    }
}

// A value with the end of its line.
#[tactic(auto, using(crate::proofs::Told::reads), unfolding(jobtext::specs::Fields::value, grammar::specs::Parts::bytes, jobtext::specs::Laid::value_bytes, jobtext::specs::Laid::kind_of, jobtext::specs::Laid::num_of, jobtext::specs::Laid::at_of, jobtext::specs::Laid::len_of))]
fn read_value(s: &[u8], at: usize, pool: &mut [u8], used: usize) -> Result<ReadValue, Malformed>
    requires { Room s.now at used }
    ensures value { result ≡ value_of used (value.parse s.now at) }
    ensures value_stored { ValueStored (value.parse s.now at) used pool.old pool.new }
{
    if let Ok(n) = fields::byte(s, at, b'n') {
        let number = fields::bits(s, n, b'\n')?;
        return Ok(plain(1, number.value, 0, number.next, used));
    }
    if let Ok(d) = fields::byte(s, at, b'd') {
        let date = fields::bits(s, d, b'\n')?;
        return Ok(plain(2, date.value, 0, date.next, used));
    }
    if let Ok(t) = fields::byte(s, at, b't') {
        let text = fields::text(s, t, b'\n', pool, used)?;
        return Ok(ReadValue {
            kind: 3,
            num: 0,
            at: used as u32,
            len: text.length as u32,
            next: text.next,
            used: used + text.length,
        });
    }
    if let Ok(b) = fields::byte(s, at, b'b') {
        let bool = fields::either_word(s, b, b"0\n", b"1\n")?;
        return Ok(plain(4, 0, u32::from(bool.second), bool.next, used));
    }
    let next = fields::word(s, at, b"e\n")?;
    Ok(plain(5, 0, 0, next, used))
}

#[tactic(auto, using(crate::proofs::Told::reads), unfolding(jobtext::specs::Text::cell_line))]
fn read_cell(s: &[u8], at: usize, pool: &mut [u8], used: usize) -> Result<ReadCell, Malformed>
    requires { Room s.now at used }
    ensures cell { result ≡ cell_of used (cell_line.parse s.now at) }
    ensures cell_stored { CellStored (cell_line.parse s.now at) used pool.old pool.new }
{
    let row = fields::decimal(s, at, 4294967295, b' ')?;
    let col = fields::decimal(s, row.next, 65535, b' ')?;
    let wraps = fields::decimal(s, col.next, 255, b' ')?;
    let value = read_value(s, wraps.next, pool, used)?;
    Ok(ReadCell {
        row: row.value as u32,
        col: col.value as u16,
        kind: value.kind,
        wraps: wraps.value as u8,
        num: value.num,
        at: value.at,
        len: value.len,
        next: value.next,
        used: value.used,
    })
}

// Stores a value at an index, where there is room. Private: past the end it keeps what was lent, and its callers clear that.
fn store<T: Copy>(column: &mut [T], i: usize, x: T)
    ensures { column.new ≡ set column.old i x }
{
    if i < column.len() {
        column[i] = x;
    }
}

// Stores a cell at an index, where there is room.
fn store_cell(
    i: usize,
    c: ReadCell,
    rows: &mut [u32],
    cols: &mut [u16],
    kinds: &mut [u8],
    wraps: &mut [u8],
    nums: &mut [u64],
    ats: &mut [u32],
    lens: &mut [u32],
)
    ensures { columns rows.new cols.new kinds.new wraps.new nums.new ats.new lens.new ≡ stored_cell i c (columns rows.old cols.old kinds.old wraps.old nums.old ats.old lens.old) }
{
    store(rows, i, c.row);
    store(cols, i, c.col);
    store(kinds, i, c.kind);
    store(wraps, i, c.wraps);
    store(nums, i, c.num);
    store(ats, i, c.at);
    store(lens, i, c.len);
}

// Lines of cells, from index 0 on, where there is room.
fn read_lines(
    s: &[u8],
    at: usize,
    number: usize,
    used: usize,
    rows: &mut [u32],
    cols: &mut [u16],
    kinds: &mut [u8],
    wraps: &mut [u8],
    nums: &mut [u64],
    ats: &mut [u32],
    lens: &mut [u32],
    pool: &mut [u8],
) -> Result<LinesRead, Malformed>
    requires { Room s.now at used }
    ensures { IsLeft (left_of 0 used (times_p number cell_line.parse s.now at)
        (columns rows.old cols.old kinds.old wraps.old nums.old ats.old lens.old) pool.old)
        result (columns rows.new cols.new kinds.new wraps.new nums.new ats.new lens.new) pool.new }
{
    let mut next = at;
    let mut end = used;
    for i in 0..number {
        let cell = read_cell(s, next, pool, end)?;
        store_cell(i, cell, rows, cols, kinds, wraps, nums, ats, lens);
        next = cell.next;
        end = cell.used;
    }
    Ok(LinesRead { next, used: end })
}

// Zeros from end to end.
fn clear_columns(
    rows: &mut [u32],
    cols: &mut [u16],
    kinds: &mut [u8],
    wraps: &mut [u8],
    nums: &mut [u64],
    ats: &mut [u32],
    lens: &mut [u32],
)
    ensures { columns rows.new cols.new kinds.new wraps.new nums.new ats.new lens.new ≡ zero_columns (columns rows.old cols.old kinds.old wraps.old nums.old ats.old lens.old) }
{
    rows.fill(0);
    cols.fill(0);
    kinds.fill(0);
    wraps.fill(0);
    nums.fill(0);
    ats.fill(0);
    lens.fill(0);
}

// The same, and of the pool.
pub fn clear_cells(
    rows: &mut [u32],
    cols: &mut [u16],
    kinds: &mut [u8],
    wraps: &mut [u8],
    nums: &mut [u64],
    ats: &mut [u32],
    lens: &mut [u32],
    pool: &mut [u8],
)
    ensures lens_after { columns rows.new cols.new kinds.new wraps.new nums.new ats.new lens.new ≡ zero_columns (columns rows.old cols.old kinds.old wraps.old nums.old ats.old lens.old) }
    ensures pool_after { pool.new ≡ replicate (length pool.old) 0 }
{
    clear_columns(rows, cols, kinds, wraps, nums, ats, lens);
    pool.fill(0);
}

// Lines of cells alone in the columns, with their texts into the pool from `used` on. Where a line is malformed, the text is longer than
// 65,536 bytes, `used` is past `at`, or not all fits the columns and the pool, all that is lent becomes 0.
pub fn read_cells(
    s: &[u8],
    at: usize,
    number: usize,
    used: usize,
    rows: &mut [u32],
    cols: &mut [u16],
    kinds: &mut [u8],
    wraps: &mut [u8],
    nums: &mut [u64],
    ats: &mut [u32],
    lens: &mut [u32],
    pool: &mut [u8],
) -> Result<Section, Malformed>
    ensures value { result ≡ section_of used (cells_at s.now at number used) (columns rows.old cols.old kinds.old wraps.old nums.old ats.old lens.old) pool.old }
    ensures lens_after { (columns rows.new cols.new kinds.new wraps.new nums.new ats.new lens.new
        ≡ columns_after used (cells_at s.now at number used)
        (columns rows.old cols.old kinds.old wraps.old nums.old ats.old lens.old) pool.old)
        × (pool.new ≡ pool_after used (cells_at s.now at number used)
        (columns rows.old cols.old kinds.old wraps.old nums.old ats.old lens.old) pool.old) }
{
    if !fields::has_room(s, at, used) {
        clear_cells(rows, cols, kinds, wraps, nums, ats, lens, pool);
        return Err(Malformed { at });
    }
    clear_columns(rows, cols, kinds, wraps, nums, ats, lens);
    match read_lines(
        s, at, number, used, rows, cols, kinds, wraps, nums, ats, lens, pool,
    ) {
        Ok(lines) => {
            let sizes = [
                rows.len(),
                cols.len(),
                kinds.len(),
                wraps.len(),
                nums.len(),
                ats.len(),
                lens.len(),
            ];
            let fits = fields::within(number, &sizes) && lines.used <= pool.len();
            if !fits {
                clear_cells(rows, cols, kinds, wraps, nums, ats, lens, pool);
            }
            Ok(Section {
                fits,
                next: lines.next,
                used: lines.used,
            })
        }
        Err(malformed) => {
            clear_cells(rows, cols, kinds, wraps, nums, ats, lens, pool);
            Err(malformed)
        }
    }
}

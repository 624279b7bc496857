// A code for each key of the sheet, worked out once, by a table of places; or else the keys are sorted, and those that are the same then
// stand side by side.
ghost use Rattle.std.specs.Prelude.{ℕ, ◌<◌, ◌≤◌, min, ◌≡◌, true, List, length, replicate};
ghost use Rattle.cells.specs.Columns.{columns};
ghost use Rattle.model.specs.Options.{Key};
ghost use Rattle.keys.specs.Names.{keys_held, names_of};
ghost use Rattle.keys.specs.Held.{HeldBy, HeldIn};
ghost use Rattle.keys.specs.Codes.{code_after, Coded, Covering};

use crate::sort::{comes_before, sorted};
use crate::table::tabled_codes;
use crate::{KeyColumns, cell_count, tag, word};
use cells::cell_from;
use readings::key::conditional_value_key;

// ---- codes along an order

// The code of the key at i, next along an order after the key at prior, whose code is 0 where there is none yet. It is 0 if i has no key
// or does not come after prior.
fn code_after(keys: KeyColumns<'_>, code: u16, prior: usize, i: usize) -> u16
    requires { i < 1024 }
    ensures { (ks : List Key) → HeldIn keys.entry ks → result ≡ code_after keys.entry.pool.now ks code prior i }
{
    if keys.tag(i) == 0 {
        return 0;
    }
    if code == 0 {
        return i as u16 + 1;
    }
    if keys.same_held(i, prior) {
        if prior < i {
            return code;
        }
        return 0;
    }
    if comes_before(keys, prior, i) {
        return i as u16 + 1;
    }
    0
}

// Codes of the keys along an order, as far as it is one.
fn codes_along(keys: KeyColumns<'_>, order: &[u16]) -> [u16; 1024]
    ensures { (ks : List Key) → HeldIn keys.entry ks → Coded keys.entry.pool.now ks result }
{
    let mut codes = [0; 1024];
    let mut code = 0;
    let mut prior = 0;
    for id in order {
        let i = *id as usize;
        if i >= 1024 {
            return codes;
        }
        code = code_after(keys, code, prior, i);
        if code == 0 {
            return codes;
        }
        codes[i] = code;
        prior = i;
    }
    codes
}

// Whether each key has a code.
fn covered(tags: &[u8; 1024], codes: &[u16; 1024], n: usize) -> bool
    requires { n ≤ 1024 }
    ensures { result ≡ true → Covering tags.now codes.now n }
{
    for i in 0..n {
        if tags[i] != 0 && codes[i] == 0 {
            return false;
        }
    }
    true
}

fn pairwise(keys: KeyColumns<'_>, n: usize) -> [u16; 1024]
    requires { n ≤ 1024 }
    ensures { (ks : List Key) → HeldIn keys.entry ks → length ks ≡ n → result ≡ names_of keys.entry.pool.now ks }
{
    let mut codes = [0; 1024];
    for i in 0..n {
        codes[i] = keys.name_at(i);
    }
    codes
}

fn sorted_codes(keys: KeyColumns<'_>, n: usize) -> [u16; 1024]
    ensures { (ks : List Key) → HeldIn keys.entry ks → Coded keys.entry.pool.now ks result }
{
    let order = sorted(keys, n);
    codes_along(keys, &order.ids[..order.count])
}

// Where the words give too few places, the table leaves keys without a code: then they are sorted. That the sort sorts is not
// proved. What comes of it is looked at, and if it did not give each key a code, the keys would be compared by pairs.
fn code_keys(keys: KeyColumns<'_>, n: usize) -> [u16; 1024]
    requires { n ≤ 1024 }
    ensures { (ks : List Key) → HeldIn keys.entry ks → length ks ≡ n → result ≡ names_of keys.entry.pool.now ks }
{
    let tabled = tabled_codes(keys, n);
    if covered(keys.tags, &tabled, n) {
        return tabled;
    }
    let sorted = sorted_codes(keys, n);
    if covered(keys.tags, &sorted, n) {
        return sorted;
    }
    pairwise(keys, n)
}

// ---- of the sheet

// The tags and words of all cells of the sheet.
fn hold(
    rows: &[u32],
    kinds: &[u8],
    wraps: &[u8],
    nums: &[u64],
    ats: &[u32],
    lens: &[u32],
    pool: &[u8],
    tags: &mut [u8; 1024],
    words: &mut [u64; 1024],
)
    requires { (tags.old ≡ replicate 1024 0) × (words.old ≡ replicate 1024 0) }
    ensures { (cols : List ℕ) → HeldBy pool.now tags.new words.new ats.now lens.now
        (keys_held pool.now (columns rows.now cols kinds.now wraps.now nums.now
        ats.now lens.now) 0 (min (length rows.now) 1024)) }
{
    for i in 0..cell_count(rows) {
        let key = conditional_value_key(cell_from(kinds, wraps, nums, ats, lens, i), pool);
        tags[i] = tag(key);
        words[i] = word(key, pool);
    }
}

// The codes of the keys of the sheet's first 1,024 cells: the index of the first cell with the same key, plus one; 0 for a cell without
// a key, and past the last cell. Where the cells stand has no part in it.
pub fn codes(
    rows: &[u32],
    kinds: &[u8],
    wraps: &[u8],
    nums: &[u64],
    ats: &[u32],
    lens: &[u32],
    pool: &[u8],
) -> [u16; 1024]
    ensures { (cols : List ℕ) → result ≡ names_of pool.now (keys_held pool.now (columns rows.now cols
        kinds.now wraps.now nums.now ats.now lens.now)
        0 (min (length rows.now) 1024)) }
{
    let mut tags = [0; 1024];
    let mut words = [0; 1024];
    hold(
        rows, kinds, wraps, nums, ats, lens, pool, &mut tags, &mut words,
    );
    let keys = KeyColumns {
        tags: &tags,
        words: &words,
        ats,
        lens,
        pool,
    };
    code_keys(keys, cell_count(rows))
}

// Codes of equal keys, worked out once for a sheet: two cells have one code just when they have one key, so that keys are counted by
// comparing numbers.
#![tactic(auto)]

mod coding;
mod sort;
mod table;

ghost use Rattle.std.specs.Prelude.{◌<◌, ◌≤◌, min, ◌≡◌, true, ◌&&◌, List, eqb, length, get_or};
ghost use Rattle.model.specs.Options.{Key};
ghost use Rattle.model.specs.Readings.{has_key, same_key};
ghost use Rattle.keys.specs.Names.{first_same, name_of};
ghost use Rattle.keys.specs.Held.{next_code, code_of, tag_of, word_of, span_at, HeldIn};

pub use coding::codes;
use model::{ConditionalValueKey, Span};
use readings::text::{lower, same_letters, text_at};

// ---- a key as numbers

// The kind of a key as a column of bytes has it; 0 is no key. A column is fixed memory.
const NUMBER: u8 = 1;

const TEXT: u8 = 2;

const BOOL: u8 = 3;

fn next_code(code: u64, b: u8) -> u64
    ensures { result ≡ next_code code b }
{
    code % 0x80_0000_0000_0000 * 257 + u64::from(b)
}

// Texts that differ in case alone have one code.
fn text_code(text: &[u8]) -> u64
    ensures { result ≡ code_of text.now }
{
    let mut code = 1;
    for b in text {
        code = next_code(code, lower(*b));
    }
    code
}

#[tactic(auto, unfolding(crate::specs::Held::tag_of))]
fn tag(key: Option<ConditionalValueKey>) -> u8
    ensures { result ≡ tag_of key }
{
    match key {
        Some(ConditionalValueKey::Number(_)) => NUMBER,
        Some(ConditionalValueKey::Text(_)) => TEXT,
        Some(ConditionalValueKey::Bool(_)) => BOOL,
        None => 0,
    }
}

// A bool's word is no finite number's bits and no text's code, and an empty text's is not that of the number 0.
#[tactic(auto, unfolding(crate::specs::Held::word_of))]
fn word(key: Option<ConditionalValueKey>, pool: &[u8]) -> u64
    ensures { result ≡ word_of pool.now key }
{
    match key {
        Some(ConditionalValueKey::Number(x)) => x,
        Some(ConditionalValueKey::Text(span)) => text_code(text_at(pool, span)),
        Some(ConditionalValueKey::Bool(true)) => 0xffff_ffff_ffff_ffff,
        Some(ConditionalValueKey::Bool(false)) => 0xffff_ffff_ffff_fffe,
        None => 0,
    }
}

// Cells past the greatest number of them are not looked at.
fn cell_count(rows: &[u32]) -> usize
    ensures { result ≡ min (length rows.now) 1024 }
{
    rows.len().min(1024)
}

// ---- keys compared where they are held

fn same_span(a: Span, b: Span) -> bool
    ensures { result ≡ eqb a.at b.at && eqb a.len b.len }
{
    a.at == b.at && a.len == b.len
}

// The keys of the cells as columns: for each its tag, its word, and where a text stands in the pool.
#[derive(Clone, Copy)]
struct KeyColumns<'a> {
    tags: &'a [u8; 1024],
    words: &'a [u64; 1024],
    ats: &'a [u32],
    lens: &'a [u32],
    pool: &'a [u8],
}

impl KeyColumns<'_> {
    fn tag(self, i: usize) -> u8
        ensures { result ≡ get_or self.entry.tags.now i 0 }
    {
        let tags = self.tags;
        lent::at(tags, i, 0)
    }

    fn word(self, i: usize) -> u64
        ensures { result ≡ get_or self.entry.words.now i 0 }
    {
        let words = self.words;
        lent::at(words, i, 0)
    }

    fn span(self, i: usize) -> Span
        ensures { result ≡ span_at self.entry.ats.now self.entry.lens.now i }
    {
        Span {
            at: lent::at(self.ats, i, 0),
            len: lent::at(self.lens, i, 0),
        }
    }

    // Whether the keys at two indices are the same, where there is one at the first. The letters of two texts are read only if their words
    // are the same and they are not at one place.
    fn same_held(self, i: usize, j: usize) -> bool
        ensures { (ks : List Key) → HeldIn self.entry ks → has_key (get_or ks i None) ≡ true
            → result ≡ same_key self.entry.pool.now (get_or ks j None) (get_or ks i None) }
    {
        let word = self.word(i);
        if self.word(j) != word {
            return false;
        }
        let kind = self.tag(i);
        if self.tag(j) != kind {
            return false;
        }
        if kind == TEXT {
            let one = self.span(j);
            let other = self.span(i);
            if same_span(one, other) {
                return true;
            }
            return same_letters(text_at(self.pool, one), text_at(self.pool, other));
        }
        true
    }

    // The first index with the key at an index that has one.
    fn first_same(self, i: usize) -> usize
        ensures upper_bound { result ≤ i }
        ensures value { (ks : List Key) → HeldIn self.entry ks → i < length ks → has_key (get_or ks i None) ≡ true
            → result ≡ first_same self.entry.pool.now (get_or ks i None) ks }
    {
        for j in 0..i {
            if self.same_held(i, j) {
                return j;
            }
        }
        i
    }

    // The name of the key at an index.
    fn name_at(self, i: usize) -> u16
        requires { i < 1024 }
        ensures { (ks : List Key) → HeldIn self.entry ks → i < length ks
            → result ≡ name_of self.entry.pool.now ks (get_or ks i None) }
    {
        if self.tag(i) == 0 {
            return 0;
        }
        self.first_same(i) as u16 + 1
    }
}

// Readers of the fields of a job text. Each takes the text and a place, and gives the value and the place after it, or the place
// at which the text cannot be read on.
#![tactic(auto)]

ghost use Rattle.std.specs.Prelude.{◌+◌, ◌*◌, ◌%◌, ◌≤◌, ◌&&◌, [], ◌∷◌, ◌≡◌, leb, length, drop};
ghost use Rattle.std.specs.List.{list_all};
ghost use Rattle.std.proofs.lemmas.List.Edits.{sets};
ghost use Rattle.memory.specs.Memory.{fits};
ghost use Rattle.grammar.specs.Parts.{byte_p, word_p, ended, either};
ghost use Rattle.grammar.specs.Numbers.{decimal_from, decimal_at, decimal_p, digit_value, is_hex, hex_p, hex, pairs_from};
ghost use Rattle.fields.specs.Room.{roomy};
ghost use Rattle.fields.specs.Field.{field_of, word_of, either_of, digit_of, counted, text_of, pooled, pair_bytes};

// The text is malformed: the place at which it cannot be read on.
#[derive(Clone, Copy)]
pub struct Malformed {
    pub at: usize,
}

// A number, and the place after it.
#[derive(Clone, Copy)]
pub struct Field {
    pub value: u64,
    pub next: usize,
}

// Which of two words was read, and the place after it.
#[derive(Clone, Copy)]
pub struct Choice {
    pub second: bool,
    pub next: usize,
}

// A text: whether all of it was stored, its length, and the place after it.
#[derive(Clone, Copy)]
pub struct ReadText {
    pub fits: bool,
    pub length: usize,
    pub next: usize,
}

// ---- words

// The place after a byte.
#[tactic(auto, unfolding(grammar::specs::Parts::byte_p))]
pub fn byte(s: &[u8], at: usize, b: u8) -> Result<usize, Malformed>
    ensures { result ≡ word_of (byte_p b s.now at) }
{
    if at < s.len() && s[at] == b {
        return Ok(at + 1);
    }
    Err(Malformed { at })
}

// The place after a word.
#[tactic(auto, using(crate::proofs::Laws::reads, crate::proofs::Laws::steps))]
pub fn word(s: &[u8], at: usize, w: &[u8]) -> Result<usize, Malformed>
    ensures { result ≡ word_of (word_p w.now s.now at) }
{
    let mut next = at;
    for b in w {
        next = byte(s, next, *b)?;
    }
    Ok(next)
}

// One of two words.
#[tactic(auto, using(crate::proofs::Laws::reads), unfolding(grammar::specs::Parts::word_p))]
pub fn either_word(s: &[u8], at: usize, w: &[u8], v: &[u8]) -> Result<Choice, Malformed>
    ensures { result ≡ either_of ((either w.now v.now).parse s.now at) }
{
    if let Ok(next) = word(s, at, w) {
        return Ok(Choice {
            second: false,
            next,
        });
    }
    let next = word(s, at, v)?;
    Ok(Choice { second: true, next })
}

// ---- decimals

// The rest of a number whose first digits, read already, are acc.
fn more_digits(s: &[u8], at: usize, limit: u64, acc: u64) -> Result<Field, Malformed>
    requires { at ≤ length s.now }
    ensures { result ≡ field_of (decimal_from limit acc at (drop at s.now)) }
{
    let mut value = acc;
    for i in at..s.len() {
        let b = s[i];
        if !b.is_ascii_digit() {
            return Ok(Field { value, next: i });
        }
        let digit = u64::from(b - b'0');
        if limit / 10 < value || limit - value * 10 < digit {
            return Err(Malformed { at: i });
        }
        value = value * 10 + digit;
    }
    Ok(Field {
        value,
        next: s.len(),
    })
}

// A number without a leading zero, at most limit, up to the first byte that is no digit.
#[tactic(auto, using(crate::proofs::Laws::steps))]
pub fn digits(s: &[u8], at: usize, limit: u64) -> Result<Field, Malformed>
    ensures { result ≡ field_of (decimal_at limit at (drop at s.now)) }
{
    if s.len() <= at {
        return Err(Malformed { at });
    }
    let first = s[at];
    let zero = first == b'0';
    if zero {
        return Ok(Field {
            value: 0,
            next: at + 1,
        });
    }
    if !first.is_ascii_digit() {
        return Err(Malformed { at });
    }
    let value = u64::from(first - b'0');
    if limit < value {
        return Err(Malformed { at });
    }
    more_digits(s, at + 1, limit, value)
}

#[tactic(auto, using(crate::proofs::Laws::reads), unfolding(grammar::specs::Numbers::decimal_p))]
pub fn decimal(s: &[u8], at: usize, limit: u64, end: u8) -> Result<Field, Malformed>
    ensures { result ≡ field_of (decimal_p limit end s.now at) }
{
    let d = digits(s, at, limit)?;
    let next = byte(s, d.next, end)?;
    Ok(Field {
        value: d.value,
        next,
    })
}

// ---- hexadecimal digits

// The value of a digit in lower case.
#[tactic(auto, unfolding(grammar::specs::Numbers::is_hex, grammar::specs::Numbers::digit_value))]
fn digit_value(b: u8) -> Option<u8>
    ensures { result ≡ digit_of b }
{
    match b {
        b'0'..=b'9' => Some(b - b'0'),
        b'a'..=b'f' => Some(b - b'a' + 10),
        _ => None,
    }
}

fn is_hex(b: u8) -> bool
    ensures { result ≡ is_hex b }
{
    digit_value(b).is_some()
}

#[tactic(auto, using(crate::proofs::Hexadecimals::steps))]
fn hex_digits(s: &[u8], at: usize, number: usize) -> Result<Field, Malformed>
    requires { number ≤ 16 }
    ensures { result ≡ field_of (hex_p number 0 s.now at) }
{
    let mut value: u64 = 0;
    let mut next = at;
    for _ in 0..number {
        if s.len() <= next {
            return Err(Malformed { at: next });
        }
        let Some(digit) = digit_value(s[next]) else {
            return Err(Malformed { at: next });
        };
        value = value * 16 + u64::from(digit);
        next += 1;
    }
    Ok(Field { value, next })
}

// The two digits of a colour's channel.
pub fn channel(s: &[u8], at: usize) -> Result<Field, Malformed>
    ensures { result ≡ field_of (hex_p 2 0 s.now at) }
{
    hex_digits(s, at, 2)
}

// The 64 bits of a number, and the byte that ends them.
#[tactic(auto, using(crate::proofs::Laws::reads))]
pub fn bits(s: &[u8], at: usize, end: u8) -> Result<Field, Malformed>
    ensures { result ≡ field_of ((ended (hex 16) (end ∷ [])).parse s.now at) }
{
    let d = hex_digits(s, at, 16)?;
    let next = byte(s, d.next, end)?;
    Ok(Field {
        value: d.value,
        next,
    })
}

// ---- texts

// How many bytes are written as pairs of digits, and the place after the byte that ends them.
#[derive(Clone, Copy)]
struct Pairs {
    number: usize,
    next: usize,
}

#[tactic(auto, using(crate::proofs::Hexadecimals::pair_steps))]
fn count_pairs(s: &[u8], at: usize, end: u8) -> Result<Pairs, Malformed>
    ensures { result ≡ counted 0 (pairs_from end at (drop at s.now)) }
{
    let mut number = 0;
    let mut next = at;
    // a `while`: the place moves by two, and an end inside stops it
    while next < s.len() {
        if s[next] == end {
            return Ok(Pairs {
                number,
                next: next + 1,
            });
        }
        if s.len() - next < 2 {
            return Err(Malformed { at: next });
        }
        let first = is_hex(s[next]);
        if !first {
            return Err(Malformed { at: next });
        }
        let second = is_hex(s[next + 1]);
        if !second {
            return Err(Malformed { at: next });
        }
        number += 1;
        next += 2;
    }
    Err(Malformed { at: next })
}

#[tactic(auto, using(crate::proofs::Hexadecimals::digit_or))]
fn pair_byte(hi: u8, lo: u8) -> u8
    ensures { result ≡ (digit_value hi * 16 + digit_value lo) % 256 }
{
    let hi = u64::from(digit_value(hi).unwrap_or(16));
    let lo = u64::from(digit_value(lo).unwrap_or(16));
    ((hi * 16 + lo) % 256) as u8
}

// Stores the bytes of some pairs from `used` on.
#[tactic(auto, using(crate::proofs::Pooling::stored))]
fn decode(s: &[u8], at: usize, number: usize, pool: &mut [u8], used: usize)
    requires { (at + number * 2 ≤ length s.now) × (used + number ≤ length pool.old) }
    ensures { pool.new ≡ sets pool.old used (pair_bytes number s.now at) }
{
    for i in 0..number {
        let pair = at + 2 * i;
        pool[used + i] = pair_byte(s[pair], s[pair + 1]);
    }
}

// Whether so many bytes are, from `used` on, within a pool of this size.
fn has_space(number: usize, size: usize, used: usize) -> bool
    ensures { result ≡ fits size used number }
{
    used <= size && number <= size - used
}

// A text behind its `t`, with the byte that ends it: its length, whether it fits the pool, and its bytes into the pool from `used` on.
// Where it is malformed or does not fit, the pool becomes 0.
#[tactic(auto, using(crate::proofs::Pooling::stored))]
pub fn text(
    s: &[u8],
    at: usize,
    end: u8,
    pool: &mut [u8],
    used: usize,
) -> Result<ReadText, Malformed>
    ensures value { result ≡ text_of (pairs_from end at (drop at s.now)) used (length pool.old) }
    ensures pool_after { pool.new ≡ pooled (pairs_from end at (drop at s.now)) used pool.old }
{
    match count_pairs(s, at, end) {
        Ok(read) => {
            let fits = has_space(read.number, pool.len(), used);
            if fits {
                decode(s, at, read.number, pool, used);
            } else {
                pool.fill(0);
            }
            Ok(ReadText {
                fits,
                length: read.number,
                next: read.next,
            })
        }
        Err(malformed) => {
            pool.fill(0);
            Err(malformed)
        }
    }
}

// The bounds that a reader of texts keeps: no further in the pool than in the text, which has at most 65,536 bytes.
#[tactic(auto, unfolding(crate::specs::Room::roomy))]
pub fn has_room(s: &[u8], at: usize, used: usize) -> bool
    ensures { result ≡ roomy s.now at used }
{
    used <= at && at <= s.len() && s.len() <= 65536
}

// Whether a number of values is within each of some columns.
pub fn within(number: usize, sizes: &[usize]) -> bool
    ensures { result ≡ list_all (λ size. leb number size) sizes.now }
{
    sizes.iter().all(|size| number <= *size)
}

// Split: where a comparison is split at its first operator outside quotes, over any bytes.
#![tactic(auto)]

ghost use Rattle.std.specs.Prelude.{◌≡◌, false, [], ◌∷◌, reverse, ◌≤◌, length, get_or, take, drop};
ghost use Rattle.model.specs.Split.{blank, drop_blanks, trimmed, without_equals, formula, split_at, operator_at, scan, split, right_part, left_part};

use model::{ConditionalComparison, Split};

// ---- parts of the bytes

// The byte at a position, 0 past the end.
fn byte_at(bytes: &[u8], at: usize) -> u8
    ensures { result ≡ get_or bytes.now at 0 }
{
    bytes.get(at).copied().unwrap_or(0)
}

// The bytes from a position on, none past the end.
fn from(bytes: &[u8], at: usize) -> &[u8]
    ensures { result.now ≡ drop at bytes.now }
{
    &bytes[at.min(bytes.len())..]
}

// The bytes up to a position, all of them past the end.
fn up_to(bytes: &[u8], end: usize) -> &[u8]
    ensures { result.now ≡ take end bytes.now }
{
    &bytes[..end.min(bytes.len())]
}

// ---- the formula

#[tactic(auto, unfolding(model::specs::Split::blank))]
fn blank(byte: u8) -> bool
    ensures { result ≡ blank byte }
{
    matches!(byte, 9..=13 | b' ')
}

// Where the blanks at the start end.
fn first_kept(bytes: &[u8]) -> usize
    ensures { drop result bytes.now ≡ drop_blanks bytes.now }
{
    let kept = bytes.iter().position(|b| !blank(*b));
    kept.unwrap_or(bytes.len())
}

// Where the blanks at the end begin.
fn last_kept(bytes: &[u8]) -> usize
    ensures within { result ≤ length bytes.now }
    ensures kept { take result bytes.now ≡ reverse (drop_blanks (reverse bytes.now)) }
{
    let kept = bytes.iter().rev().position(|b| !blank(*b));
    bytes.len() - kept.unwrap_or(bytes.len())
}

// Without the blanks at both ends.
fn trimmed(bytes: &[u8]) -> &[u8]
    ensures { result.now ≡ trimmed bytes.now }
{
    let rest = from(bytes, first_kept(bytes));
    let end = last_kept(rest);
    &rest[..end]
}

// Without one leading `=`.
#[tactic(auto, unfolding(model::specs::Split::without_equals))]
fn without_equals(bytes: &[u8]) -> &[u8]
    ensures { result.now ≡ without_equals bytes.now }
{
    match bytes {
        [b'=', rest @ ..] => rest,
        _ => bytes,
    }
}

// The bytes in which positions are counted.
#[tactic(auto, unfolding(model::specs::Split::formula))]
pub fn formula(bytes: &[u8]) -> &[u8]
    ensures { result.now ≡ formula bytes.now }
{
    without_equals(trimmed(bytes))
}

// ---- the operator

fn split_at(op: ConditionalComparison, at: usize, width: usize) -> Option<Split>
    ensures { result ≡ split_at op at width }
{
    Some(Split { op, at, width })
}

// The operator that `byte` and `next` begin with, which stands at `at`.
#[tactic(auto, unfolding(model::specs::Split::operator_at, model::specs::Split::begins))]
fn operator(at: usize, byte: u8, next: u8) -> Option<Split>
    ensures { result ≡ operator_at at (byte ∷ next ∷ []) }
{
    match (byte, next) {
        (b'<', b'>') => split_at(ConditionalComparison::NotEqual, at, 2),
        (b'<', b'=') => split_at(ConditionalComparison::LessOrEqual, at, 2),
        (b'>', b'=') => split_at(ConditionalComparison::GreaterOrEqual, at, 2),
        (b'<', _) => split_at(ConditionalComparison::Less, at, 1),
        (b'>', _) => split_at(ConditionalComparison::Greater, at, 1),
        (b'=', _) => split_at(ConditionalComparison::Equal, at, 1),
        _ => None,
    }
}

// The first operator outside quotes. The second of `''` inside quotes opens them again.
fn scan(bytes: &[u8]) -> Option<Split>
    ensures { result ≡ scan false 0 bytes.now }
{
    let mut quoted = false;
    for (at, byte) in bytes.iter().enumerate() {
        if *byte == b'\'' {
            quoted = !quoted;
        } else if !quoted {
            let here = operator(at, *byte, byte_at(bytes, at + 1));
            if here.is_some() {
                return here;
            }
        }
    }
    None
}

// Port of parse_conditional_expression (conditional.rs), as far as its split.
#[tactic(auto, unfolding(model::specs::Split::split))]
pub fn split(bytes: &[u8]) -> Option<Split>
    ensures { result ≡ split bytes.now }
{
    scan(formula(bytes))
}

// The part from behind the operator to the end, none without an operator.
#[tactic(auto, using(crate::proofs::Scanning::drop_twice), unfolding(model::specs::Split::split, model::specs::Split::behind, model::specs::Split::right_part))]
pub fn right_part(bytes: &[u8]) -> &[u8]
    ensures { result.now ≡ right_part bytes.now }
{
    let part = formula(bytes);
    match scan(part) {
        Some(Split { at, width, .. }) => from(from(part, at), width),
        None => &part[..0],
    }
}

// The part up to the operator, none without one.
#[tactic(auto, unfolding(model::specs::Split::split, model::specs::Split::ahead, model::specs::Split::left_part))]
pub fn left_part(bytes: &[u8]) -> &[u8]
    ensures { result.now ≡ left_part bytes.now }
{
    let part = formula(bytes);
    match scan(part) {
        Some(Split { at, .. }) => up_to(part, at),
        None => &part[..0],
    }
}

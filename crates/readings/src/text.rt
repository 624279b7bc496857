// Texts of the pool, and bytes compared with and without regard to case.
ghost use Rattle.std.specs.Prelude.{◌≡◌};
ghost use Rattle.model.specs.Sheet.{text_at};
ghost use Rattle.model.specs.Readings.{lower as lowerOf, ascii, plain_text, same_bytes, same_letters};

use model::Span;

// The bytes of a text. Of a text that runs past the pool's end, those within it.
#[tactic(auto, using(crate::proofs::Texts::part_is))]
pub fn text_at(pool: &[u8], span: Span) -> &[u8]
    ensures { result.now ≡ text_at pool.now span }
{
    let from = (span.at as usize).min(pool.len());
    let to = (from + span.len as usize).min(pool.len());
    &pool[from..to]
}

// `is_ascii` of str.
pub fn is_ascii(text: &[u8]) -> bool
    ensures { result ≡ ascii text.now }
{
    text.iter().all(|b| *b < 128)
}

// ASCII without `*` and `?`: a text that has a key.
pub fn is_plain(text: &[u8]) -> bool
    ensures { result ≡ plain_text text.now }
{
    text.iter().all(|b| {
        let question = *b == b'?';
        *b < 128 && *b != b'*' && !question
    })
}

#[tactic(auto, using(crate::proofs::Bytes::bytes_are))]
pub fn same_bytes(a: &[u8], b: &[u8]) -> bool
    ensures { result ≡ same_bytes a.now b.now }
{
    a == b
}

// `to_ascii_lowercase` of u8.
#[tactic(auto, using(crate::proofs::Bytes::lower_is))]
pub fn lower(b: u8) -> u8
    ensures { result ≡ lowerOf b }
{
    b.to_ascii_lowercase()
}

// `eq_ignore_ascii_case` of str.
pub fn same_letters(a: &[u8], b: &[u8]) -> bool
    ensures { result ≡ same_letters a.now b.now }
{
    a.eq_ignore_ascii_case(b)
}

// An answer, and how it is written. The name of a reference, and a text, are in the bytes that were lent for them.
use model::{A1Reference, Normalized, Split};
use put::Cursor;
use ratio::shape_number;
use readings::text::text_at;

#[derive(Clone, Copy)]
pub(crate) enum Answer<'a> {
    Number(u64),
    Float(f64),
    Ratio(Normalized),
    Place(Split),
    Reference(Reference<'a>),
    Text(&'a [u8]),
    NotZero,
    Nothing,
}

// A reference, and the bytes in which its name lies.
#[derive(Clone, Copy)]
pub(crate) struct Reference<'a> {
    pub(crate) reference: A1Reference,
    pub(crate) names: &'a [u8],
}

impl From<bool> for Answer<'static> {
    fn from(holds: bool) -> Answer<'static> {
        Answer::Number(u64::from(holds))
    }
}

impl Answer<'_> {
    // With the end of its line.
    pub(crate) fn put(self, out: &mut Cursor) {
        match self {
            Answer::Number(n) => out.put_number(n, b'\n'),
            Answer::Float(x) if x.is_finite() => {
                out.put_byte(b'n');
                out.put_hex(16, x.to_bits());
                out.put_byte(b'\n');
            }
            Answer::Float(_) => out.put_bytes(b"not finite\n"),
            Answer::Ratio(Normalized { ppm, shape }) => {
                out.put_number(u64::from(ppm), b' ');
                out.put_number(u64::from(shape_number(shape)), b'\n');
            }
            Answer::Place(Split { op, at, width }) => {
                out.put_number(at as u64, b' ');
                out.put_number(width as u64, b' ');
                out.put_number(op as u64, b'\n');
            }
            Answer::Reference(reference) => reference.put(out, b'\n'),
            Answer::Text(bytes) => out.put_text(bytes, b'\n'),
            Answer::NotZero => out.put_bytes(b"not zero\n"),
            Answer::Nothing => out.put_bytes(b"none\n"),
        }
    }
}

// 1 for an absolute row plus 2 for an absolute column.
fn absolute_number(reference: A1Reference) -> u64 {
    match (reference.row_absolute, reference.col_absolute) {
        (false, false) => 0,
        (true, false) => 1,
        (false, true) => 2,
        (true, true) => 3,
    }
}

impl Reference<'_> {
    // As the operand of a job text, and the byte that ends it.
    pub(crate) fn put(self, out: &mut Cursor, end: u8) {
        let A1Reference {
            sheet,
            row,
            col,
            ..
        } = self.reference;
        out.put_byte(b'r');
        out.put_number(u64::from(row), b',');
        out.put_number(u64::from(col), b',');
        out.put_number(absolute_number(self.reference), b',');
        match sheet {
            None => out.put_bytes(&[b'-', end]),
            Some(name) => out.put_text(text_at(self.names, name), end),
        }
    }
}

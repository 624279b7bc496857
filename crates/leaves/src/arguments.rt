// The arguments of the leaves' lines, as the fields of a job text: each reader takes the next one.
use fields::Malformed;
use model::{A1Reference, Cell, CellValue, Span};
use readings::number::float_of_bits;

// Where the first text of a line lies: not at the pool's front, so that its place is not 0.
const FIRST_TEXT: u32 = 9;

// Lines and the place up to which they are read, and the pool and the place up to which texts of the last line lie in it.
#[derive(Drop)]
pub(crate) struct Arguments<'a> {
    lines: &'a [u8],
    at: usize,
    pool: &'a mut [u8],
    used: u32,
}

impl<'a> Arguments<'a> {
    pub(crate) fn new(lines: &'a [u8], pool: &'a mut [u8]) -> Arguments<'a> {
        Arguments {
            lines,
            at: 0,
            pool,
            used: FIRST_TEXT,
        }
    }

    pub(crate) fn pool(&self) -> &[u8] {
        self.pool
    }

    // Whether there is no further line.
    pub(crate) fn are_read(&self) -> bool {
        self.lines.len() <= self.at
    }

    pub(crate) fn malformed(&self) -> Malformed {
        Malformed { at: self.at }
    }

    // ---- words

    // The name of a leaf, with which a line begins, and the space behind it.
    pub(crate) fn leaf(&mut self) -> Result<&'a [u8], Malformed> {
        let start = self.at.min(self.lines.len());
        let rest = &self.lines[start..];
        let Some(space) = rest.iter().position(|b| *b == b' ') else {
            return Err(self.malformed());
        };
        self.at = start + space + 1;
        self.used = FIRST_TEXT;
        Ok(&rest[..space])
    }

    // Passes what is left of the line, with its end.
    pub(crate) fn pass_line(&mut self) {
        let start = self.at.min(self.lines.len());
        let rest = &self.lines[start..];
        self.at = match rest.iter().position(|b| *b == b'\n') {
            Some(length) => start + length + 1,
            None => self.lines.len(),
        };
    }

    pub(crate) fn word(&mut self, word: &[u8]) -> Result<(), Malformed> {
        self.at = fields::word(self.lines, self.at, word)?;
        Ok(())
    }

    fn letter(&mut self) -> Result<u8, Malformed> {
        let letter = *self.lines.get(self.at).ok_or(self.malformed())?;
        self.at += 1;
        Ok(letter)
    }

    // ---- numbers

    // A decimal, for a number or an operator.
    pub(crate) fn number<T: TryFrom<u64>>(&mut self, end: u8) -> Result<T, Malformed>
    where
        T::Error: Drop,
    {
        let field = fields::decimal(self.lines, self.at, u64::MAX, end)?;
        let number = T::try_from(field.value).map_err(|_| self.malformed())?;
        self.at = field.next;
        Ok(number)
    }

    fn bits(&mut self, end: u8) -> Result<u64, Malformed> {
        let field = fields::bits(self.lines, self.at, end)?;
        self.at = field.next;
        Ok(field.value)
    }

    pub(crate) fn float(&mut self, end: u8) -> Result<f64, Malformed> {
        self.word(b"n")?;
        Ok(float_of_bits(self.bits(end)?))
    }

    // A number of a list, and whether it is the last: a space is behind it, or the line's end behind the last.
    fn listed(&mut self) -> Result<(f64, bool), Malformed> {
        let start = self.at;
        if let Ok(x) = self.float(b' ') {
            return Ok((x, false));
        }
        self.at = start;
        Ok((self.float(b'\n')?, true))
    }

    // The finite numbers of a list up to the line's end, into memory that is lent for them.
    pub(crate) fn list<'v>(&mut self, values: &'v mut [f64]) -> Result<&'v [f64], Malformed> {
        for i in 0..values.len() {
            let (x, is_last) = self.listed()?;
            if !x.is_finite() {
                break;
            }
            values[i] = x;
            if is_last {
                return Ok(&values[..=i]);
            }
        }
        Err(self.malformed())
    }

    // ---- texts

    // Pairs of digits. The bytes go into the pool, behind the texts that are there.
    fn pairs(&mut self, end: u8) -> Result<Span, Malformed> {
        let read = fields::text(self.lines, self.at, end, self.pool, self.used as usize)?;
        let len = u32::try_from(read.length).map_err(|_| self.malformed())?;
        let used = self.used.checked_add(len).ok_or(self.malformed())?;
        if !read.fits {
            return Err(self.malformed());
        }
        let at = self.used;
        self.used = used;
        self.at = read.next;
        Ok(Span { at, len })
    }

    // `t` and pairs of digits.
    pub(crate) fn text(&mut self, end: u8) -> Result<Span, Malformed> {
        self.word(b"t")?;
        self.pairs(end)
    }

    // ---- cells

    fn value(&mut self, end: u8) -> Result<CellValue, Malformed> {
        match self.letter()? {
            b'n' => Ok(CellValue::Number(float_of_bits(self.bits(end)?))),
            b'd' => Ok(CellValue::Date(float_of_bits(self.bits(end)?))),
            b't' => Ok(CellValue::Text(self.pairs(end)?)),
            b'b' => Ok(CellValue::Bool(self.flag(end)?)),
            b'e' => {
                self.word(&[end])?;
                Ok(CellValue::Error)
            }
            _ => Err(self.malformed()),
        }
    }

    fn flag(&mut self, end: u8) -> Result<bool, Malformed> {
        match self.number(end)? {
            0u8 => Ok(false),
            1 => Ok(true),
            _ => Err(self.malformed()),
        }
    }

    // Wraps and a value.
    pub(crate) fn cell(&mut self, end: u8) -> Result<Cell, Malformed> {
        let wraps = self.number(b' ')?;
        let value = self.value(end)?;
        Ok(Cell { value, wraps })
    }

    // ---- references

    // `-` for no name.
    fn sheet_name(&mut self, end: u8) -> Result<Option<Span>, Malformed> {
        if let Ok(()) = self.word(&[b'-', end]) {
            return Ok(None);
        }
        Ok(Some(self.text(end)?))
    }

    pub(crate) fn reference(&mut self, end: u8) -> Result<A1Reference, Malformed> {
        self.word(b"r")?;
        let row = self.number(b',')?;
        let col = self.number(b',')?;
        let (row_absolute, col_absolute) = self.absolute()?;
        let sheet = self.sheet_name(end)?;
        Ok(A1Reference {
            sheet,
            row,
            col,
            row_absolute,
            col_absolute,
        })
    }

    // 1 for an absolute row plus 2 for an absolute column.
    fn absolute(&mut self) -> Result<(bool, bool), Malformed> {
        match self.number(b',')? {
            0u8 => Ok((false, false)),
            1 => Ok((true, false)),
            2 => Ok((false, true)),
            3 => Ok((true, true)),
            _ => Err(self.malformed()),
        }
    }
}

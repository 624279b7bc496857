// A list of numbers as text: decimals, each with a space or a line end behind it, and comments from `#` to the line's end.
ghost use Rattle.std.specs.Prelude.{◌≤◌, IfOk};

use lists::{Fault, Faulty, longer};

// What is left of the part of a list that is at hand, and the place in the list where it begins.
#[derive(Clone, Copy)]
pub(crate) struct List<'a> {
    rest: &'a [u8],
    pub(crate) place: u64,
}

// How many bytes stand before the first that is neither blank nor in a comment.
fn blanks(s: &[u8]) -> usize {
    let mut comment = false;
    for (i, b) in s.iter().enumerate() {
        match *b {
            b'\n' => comment = false,
            b'#' => comment = true,
            b' ' => (),
            _ if comment => (),
            _ => return i,
        }
    }
    s.len()
}

// The decimal that a text begins with, up to the blank behind it: its value and how many digits it has.
fn decimal(s: &[u8]) -> Result<(u64, usize), Fault> {
    let mut value = 0;
    for (i, b) in s.iter().enumerate() {
        if *b == b' ' || *b == b'\n' {
            return Ok((value, i));
        }
        value = longer(value, *b)?;
    }
    Err(Fault::EndsEarly)
}

impl<'a> List<'a> {
    pub(crate) fn new(part: &'a [u8], place: u64) -> List<'a> {
        List { rest: part, place }
    }

    fn pass(&mut self, n: usize) {
        self.rest = self.rest.get(n..).unwrap_or(&[]);
        self.place = self.place.wrapping_add(n as u64);
    }

    // The next number of the list, where its type has it.
    pub(crate) fn number<T: TryFrom<u64>>(&mut self) -> Result<T, Faulty>
    where
        T::Error: Drop,
    {
        self.pass(blanks(self.rest));
        let place = self.place;
        let (value, digits) = decimal(self.rest).map_err(|fault| Faulty { place, fault })?;
        self.pass(digits);
        let fault = Fault::TooLarge;
        T::try_from(value).map_err(|_| Faulty { place, fault })
    }

    // The next number of the list, which has to be at most `most`.
    pub(crate) fn count(&mut self, most: usize) -> Result<usize, Faulty>
        ensures { IfOk result (λ n. n ≤ most) }
    {
        self.pass(blanks(self.rest));
        let place = self.place;
        let number = self.number()?;
        if number > most {
            let fault = Fault::TooLarge;
            return Err(Faulty { place, fault });
        }
        Ok(number)
    }

    // Nothing may stand past the last number.
    pub(crate) fn end(&mut self) -> Result<(), Faulty> {
        self.pass(blanks(self.rest));
        if self.rest.is_empty() {
            return Ok(());
        }
        Err(Faulty {
            place: self.place,
            fault: Fault::PastLastRun,
        })
    }

    // As many elements of a lent column as the next number says.
    pub(crate) fn lend<'b, T>(&mut self, lent: &'b mut [T]) -> Result<&'b mut [T], Faulty> {
        let elements = self.count(lent.len())?;
        Ok(&mut lent[..elements])
    }

    // A column into what is lent for it: the length, how many numbers follow, and these. The others are 0.
    pub(crate) fn column<'b, T: TryFrom<u64> + Drop>(
        &mut self,
        lent: &'b mut [T],
    ) -> Result<&'b mut [T], Faulty>
    where
        T::Error: Drop,
    {
        let column = self.lend(lent)?;
        let given = self.count(column.len())?;
        for x in column[..given].iter_mut() {
            *x = self.number()?;
        }
        Ok(column)
    }
}

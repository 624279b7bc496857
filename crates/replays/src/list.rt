// A list in a file: a line `job N`, N bytes, a line `report M`, M bytes, and so on, at the end a line `end COUNT`.
use lists::{Fault, Faulty, longer, offset};
use std::fs::File;
use std::os::unix::fs::FileExt;

// A line `WORD NUMBER` of a list: its number and the place after it.
#[derive(Clone, Copy)]
pub(crate) struct Line {
    pub(crate) number: u64,
    pub(crate) next: u64,
}

// The first place at which two texts differ, be it that one of them ends there.
pub(crate) fn difference(a: &[u8], b: &[u8]) -> Option<usize> {
    if a == b {
        return None;
    }
    let place = a.iter().zip(b).position(|(x, y)| x != y);
    Some(place.unwrap_or(a.len().min(b.len())))
}

// The number that a text begins with, and how many bytes it has with the LF behind it. No number starts with 0 but 0 itself.
fn number(s: &[u8]) -> Result<(u64, usize), Fault> {
    let mut value = 0;
    for (i, b) in s.iter().enumerate() {
        if i > 0 && *b == b'\n' {
            return Ok((value, i + 1));
        }
        if i > 0 && value == 0 {
            return Err(Fault::NoNumber);
        }
        value = longer(value, *b)?;
    }
    Err(Fault::EndsEarly)
}

// The number behind a word, and how many bytes the line has.
fn line_of(s: &[u8], word: &[u8]) -> Result<(u64, usize), Fault> {
    let Some(rest) = s.strip_prefix(word) else {
        if word.starts_with(s) {
            return Err(Fault::EndsEarly);
        }
        return Err(Fault::OtherWord);
    };
    let (number, digits) = number(rest)?;
    Ok((number, word.len().wrapping_add(digits)))
}

// The line at a place, of at most 28 bytes, with a number of at most `most`.
pub(crate) fn read_line(file: &File, place: u64, word: &[u8], most: u64) -> Result<Line, Faulty> {
    let faulty = |fault| Faulty { place, fault };
    let mut part = [0u8; 32];
    let n = file
        .read_at(&mut part, offset(place))
        .map_err(|_| faulty(Fault::Unreadable))?;
    let (number, length) = line_of(&part[..n], word).map_err(faulty)?;
    if number > most {
        return Err(faulty(Fault::TooLarge));
    }
    Ok(Line {
        number,
        next: place.wrapping_add(length as u64),
    })
}

// As many bytes behind a line as its number says.
pub(crate) fn read_bytes<'b>(
    file: &File,
    line: Line,
    buffer: &'b mut [u8],
) -> Result<&'b mut [u8], Faulty> {
    let place = line.next;
    let faulty = |fault| Faulty { place, fault };
    let got = file
        .read_at(buffer, offset(place))
        .map_err(|_| faulty(Fault::Unreadable))?;
    let count = line.number as usize;
    if got < count {
        return Err(faulty(Fault::EndsEarly));
    }
    Ok(&mut buffer[..count])
}

// A list has to end at a place.
pub(crate) fn end(file: &File, place: u64) -> Result<(), Faulty> {
    let fault = match file.read_at(&mut [0u8; 1], offset(place)) {
        Ok(0) => return Ok(()),
        Ok(_) => Fault::PastEnd,
        Err(_) => Fault::Unreadable,
    };
    Err(Faulty { place, fault })
}

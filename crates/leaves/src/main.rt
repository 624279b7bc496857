// Answers argument lines of the leaves, one line for each, so that they can be compared with the original's answers. A line that is
// none of theirs is told in place of its answer, and the program stops there.
#![tactic(auto)]

mod answers;
mod arguments;
mod lines;
mod numbers;
mod texts;
mod typed;

use crate::arguments::Arguments;
use crate::lines::{BYTES, Lent, NUMBERS, answer_line};
use put::Cursor;
use std::io;
use std::io::{Read, Write};

// How many bytes a line may have before its end.
const LONGEST_LINE: usize = 65535;

// How many bytes are held at once: a line and its end.
const MOST_READ: usize = LONGEST_LINE + 1;

// Twice as many bytes: a quote of a name is two digits of a line, and four of its answer.
const MOST_WRITTEN: usize = 2 * MOST_READ;

// Why the answers end before the lines do.
#[derive(Drop)]
enum Stop {
    Malformed { number: u64 },
    Long { number: u64 },
    Unread(io::Error),
    Unwritten(io::Error),
}

// ---- lines

// Puts the answers to whole lines, behind so many that are answered: how many are answered then.
fn put_answers(
    lines: &[u8],
    answered: u64,
    answers: &mut Cursor,
    lent: &mut Lent,
) -> Result<u64, Stop> {
    let mut arguments = Arguments::new(lines, lent.pool);
    for number in answered..u64::MAX {
        if arguments.are_read() {
            return Ok(number);
        }
        let Ok(answer) = answer_line(&mut arguments, lent.written, lent.values) else {
            return Err(Stop::Malformed { number: number + 1 });
        };
        answer.put(answers);
    }
    Ok(u64::MAX)
}

// Writes the answers to whole lines at once, also those ahead of a malformed one. No answer is longer than twice its line, so they fit.
fn answer_lines<W: Write>(
    output: &mut W,
    lines: &[u8],
    answered: u64,
    answers: &mut [u8],
    lent: &mut Lent,
) -> Result<u64, Stop> {
    let mut cursor = Cursor {
        bytes: answers,
        at: 0,
    };
    let outcome = put_answers(lines, answered, &mut cursor, lent);
    let end = cursor.at;
    if answers.len() < end {
        let error = io::Error::from(io::ErrorKind::InvalidInput);
        return Err(Stop::Unwritten(error));
    }
    output.write_all(&answers[..end]).map_err(Stop::Unwritten)?;
    outcome
}

// Answers the lines of each read, and keeps what waits for the rest of its line at the text's front. The last line may lack its end.
fn answer_all<R: Read, W: Write>(
    input: &mut R,
    output: &mut W,
    text: &mut [u8; MOST_READ],
    answers: &mut [u8],
    lent: &mut Lent,
) -> Result<(), Stop> {
    let mut held = 0;
    let mut answered = 0u64;
    // a proved loop has to end, and no input has so many reads
    for _ in 0..u64::MAX {
        if text.len() <= held {
            let number = answered.wrapping_add(1);
            return Err(Stop::Long { number });
        }
        let more = input.read(&mut text[held..]).map_err(Stop::Unread)?;
        if more == 0 {
            break;
        }
        let filled = held + more;
        let Some(last) = text[held..filled].iter().rposition(|b| *b == b'\n') else {
            held = filled;
            continue;
        };
        let end = held + last + 1;
        answered = answer_lines(output, &text[..end], answered, answers, lent)?;
        text.copy_within(end..filled, 0);
        held = filled - end;
    }
    if held > 0 && held < text.len() {
        text[held] = b'\n';
        answer_lines(output, &text[..=held], answered, answers, lent)?;
    }
    Ok(())
}

// ---- messages

fn tell(rt: &(impl Print + Eprint), stop: Stop) -> io::Result<()> {
    match stop {
        Stop::Malformed { number } => println!(rt; "line {number} is none of the leaves' lines"),
        Stop::Long { number } => println!(rt; "line {number} is longer than 65,535 bytes"),
        Stop::Unread(e) => {
            let _ = eprintln!(rt; "leaves: standard input cannot be read");
            Err(e)
        }
        Stop::Unwritten(e) => {
            let _ = eprintln!(rt; "leaves: standard output cannot be written");
            Err(e)
        }
    }
}

fn main(rt: HostRuntime) -> io::Result<()> {
    let mut text = [0; MOST_READ];
    let mut answers = [0; MOST_WRITTEN];
    let mut pool = [0; BYTES];
    let mut written = [0; BYTES];
    let mut values = [0.0; NUMBERS];
    let mut lent = Lent {
        pool: &mut pool,
        written: &mut written,
        values: &mut values,
    };
    let answered = answer_all(
        &mut rt.stdin(),
        &mut io::writer(&rt),
        &mut text,
        &mut answers,
        &mut lent,
    );
    match answered {
        Ok(()) => Ok(()),
        Err(stop) => tell(&rt, stop),
    }
}

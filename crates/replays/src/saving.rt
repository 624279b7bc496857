// A job text saved again: the same text, or the report of a job that saving refuses as deciding does.
use crate::list::difference;

// What saving again comes to; a difference with the first byte that differs.
#[derive(Clone, Copy)]
pub(crate) enum Outcome {
    Equal,
    RefusedAlike,
    Differs(usize),
}

// What stands behind the first line.
fn behind_line(report: &[u8]) -> &[u8] {
    match report.iter().position(|b| *b == b'\n') {
        Some(end) => &report[end + 1..],
        None => &[],
    }
}

// Whether the report's number is one that saving gives too: 2, 3, 4, 10 or 11.
fn is_refused(report: &[u8]) -> bool {
    let line = behind_line(report);
    line.starts_with(b"2 ")
        || line.starts_with(b"3 ")
        || line.starts_with(b"4 ")
        || line.starts_with(b"10 ")
        || line.starts_with(b"11 ")
}

// Saves a job text whose report is at hand.
pub(crate) fn save_again(text: &[u8], report: &[u8]) -> Outcome {
    let mut saved = [0u8; 65536];
    let n = resave::save_job(text, &mut saved).min(saved.len());
    let refused = is_refused(report);
    let expected = if refused { report } else { text };
    match difference(expected, &saved[..n]) {
        Some(place) => Outcome::Differs(place),
        None if refused => Outcome::RefusedAlike,
        None => Outcome::Equal,
    }
}

// Lists of jobs: their numbers, and what is wrong with a list.
#![tactic(auto)]

ghost use Rattle.std.specs.Prelude.{◌≡◌, ◌<◌, ◌≤◌};
ghost use Rattle.lists.specs.Faults.{told, longer};

use std::fmt;

// What is wrong with a list.
#[derive(Clone, Copy, Debug, PartialEq, Eq)]
pub enum Fault {
    EndsEarly,
    OtherWord,
    NoNumber,
    TooLarge,
    OtherCount,
    PastLastRun,
    PastEnd,
    Unreadable,
}

impl fmt::Display for Fault {
    ghost output = { told };

    fn fmt<W: fmt::Write>(&self, f: &mut fmt::Formatter<W>) -> fmt::Result {
        match self {
            Fault::EndsEarly => write!(f, "the list ends early"),
            Fault::OtherWord => write!(f, "another word is due"),
            Fault::NoNumber => write!(f, "no number"),
            Fault::TooLarge => write!(f, "a number too large"),
            Fault::OtherCount => write!(f, "the list has another number of jobs"),
            Fault::PastLastRun => write!(f, "the list goes on past its last run"),
            Fault::PastEnd => write!(f, "the list goes on past its end"),
            Fault::Unreadable => write!(f, "the list cannot be read"),
        }
    }
}

// A fault and the byte of the list that it stands at.
#[derive(Clone, Copy, Debug)]
pub struct Faulty {
    pub place: u64,
    pub fault: Fault,
}

impl fmt::Display for Faulty {
    fn fmt<W: fmt::Write>(&self, f: &mut fmt::Formatter<W>) -> fmt::Result {
        let place = self.place;
        let fault = self.fault;
        write!(f, "FAULTY LIST at byte {place}: {fault}")
    }
}

// A number with one digit more.
pub fn longer(number: u64, digit: u8) -> Result<u64, Fault>
    ensures { result ≡ longer number digit }
{
    if !digit.is_ascii_digit() {
        return Err(Fault::NoNumber);
    }
    let tens = number.checked_mul(10).ok_or(Fault::TooLarge)?;
    tens.checked_add(u64::from(digit - b'0'))
        .ok_or(Fault::TooLarge)
}

// A place in a file, as the system takes it: below 2^63 - 1, else 0.
pub fn offset(place: u64) -> u64
    ensures inside { place < 0x7fff_ffff_ffff_ffff → result ≡ place }
    ensures outside { 0x7fff_ffff_ffff_ffff ≤ place → result ≡ 0 }
{
    if place < 0x7fff_ffff_ffff_ffff {
        place
    } else {
        0
    }
}

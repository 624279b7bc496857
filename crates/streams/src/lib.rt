// How a program that reads a text and writes what it makes of it may fail.
#![tactic(auto)]

ghost use Rattle.std.specs.Prelude.{◌≡◌};
ghost use Rattle.streams.specs.Failures.{cause};

use std::{fmt, io};

// Which of both failed, and why.
#[derive(Debug, Drop)]
pub enum Failure {
    Reading(io::Error),
    Writing(io::Error),
}

impl fmt::Display for Failure {
    fn fmt<W: fmt::Write>(&self, f: &mut fmt::Formatter<W>) -> fmt::Result {
        match self {
            Failure::Reading(e) => write!(f, "reading standard input: {e}"),
            Failure::Writing(e) => write!(f, "writing standard output: {e}"),
        }
    }
}

impl From<Failure> for io::Error {
    ghost from_gives = { λ f e. e ≡ cause f };

    fn from(failure: Failure) -> io::Error {
        match failure {
            Failure::Reading(e) | Failure::Writing(e) => e,
        }
    }
}

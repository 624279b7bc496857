// A line: the leaf's name and its arguments. tools/oracle/README.md has the lines.
use crate::answers::Answer;
use crate::arguments::Arguments;
use crate::numbers::{
    answer_axis, answer_cell_is, answer_channel, answer_expression, answer_midpoint,
    answer_normalized, answer_ratio,
};
use crate::texts::{answer_key, answer_number, answer_split};
use crate::typed::{answer_reads, answer_typed, answer_writes};
use fields::Malformed;

// As many bytes as the longest line.
pub(crate) const BYTES: usize = 65536;

// As many numbers as a line can hold.
pub(crate) const NUMBERS: usize = 4096;

// What the leaves are lent: for the texts of a line, for what a leaf writes, and for a list of numbers.
#[derive(Drop)]
pub(crate) struct Lent<'a> {
    pub(crate) pool: &'a mut [u8],
    pub(crate) written: &'a mut [u8],
    pub(crate) values: &'a mut [f64],
}

// The answer to the line at which the arguments stand. Bytes are lent for what a leaf writes, values for a list of numbers.
pub(crate) fn answer_line<'a>(
    arguments: &mut Arguments,
    written: &'a mut [u8],
    values: &mut [f64],
) -> Result<Answer<'a>, Malformed> {
    match arguments.leaf()? {
        b"ratio" => answer_ratio(arguments),
        b"normalized" => answer_normalized(arguments),
        b"channel" => answer_channel(arguments),
        b"cellis" => answer_cell_is(arguments),
        b"expr" => answer_expression(arguments),
        b"midpoint" => answer_midpoint(arguments, values),
        b"axis" => answer_axis(arguments),
        b"split" => answer_split(arguments),
        b"number" => answer_number(arguments),
        b"key" => answer_key(arguments),
        b"reads" => answer_reads(arguments, written),
        b"writes" => answer_writes(arguments, written),
        b"typed" => answer_typed(arguments, written),
        _ => Err(arguments.malformed()),
    }
}

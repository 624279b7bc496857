// The parts of a rule line that are no operands: flags and words, the priority, and colours.
ghost use Rattle.std.specs.Prelude.{◌≡◌};
ghost use Rattle.grammar.specs.Parts.{either};
ghost use Rattle.jobtext.specs.Fields.{of_absolute, colour, priority};
ghost use Rattle.put.specs.Put.{Puts};

use model::Rgb;
use put::Cursor;

// The second of two words where `second` holds, else the first.
pub(crate) fn put_either(text: &mut Cursor<'_>, second: bool, w: &[u8], v: &[u8])
    ensures { Puts text.old ((either w.now v.now).text second) text.new }
{
    text.put_bytes(if second { v } else { w });
}

#[tactic(auto, unfolding(grammar::specs::Parts::bytes, jobtext::specs::Fields::priority))]
pub(crate) fn put_priority(text: &mut Cursor<'_>, p: Option<u32>)
    ensures { Puts text.old (priority.text p) text.new }
{
    match p {
        None => text.put_bytes(b"- "),
        Some(n) => text.put_number(n as u64, b' '),
    }
}

// Six digits, and what ends the field.
pub(crate) fn put_colour(text: &mut Cursor<'_>, c: Rgb, end: &[u8])
    ensures { Puts text.old ((colour end.now).text c) text.new }
{
    text.put_hex(2, c.red as u64);
    text.put_hex(2, c.green as u64);
    text.put_hex(2, c.blue as u64);
    text.put_bytes(end);
}

// 1 for an absolute row plus 2 for an absolute column.
pub(crate) fn absolute_code(row: bool, col: bool) -> u64
    ensures { result ≡ of_absolute (row, col) }
{
    u64::from(row) + 2 * u64::from(col)
}

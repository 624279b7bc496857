// The rule words, each with its parameters, `-` where one is not used.
ghost use Rattle.jobtext.specs.Rules.{kind as kindGram};
ghost use Rattle.model.specs.declared.CfRule.{CfRule};
ghost use Rattle.jobtext.specs.Written.{Kind};
ghost use Rattle.jobtext.specs.Said.{kind_said};
ghost use Rattle.put.specs.Put.{Puts};

use crate::operand::{put_operand, put_second};
use crate::parts::{put_colour, put_either};
use comparison::uses_second;
use model::{CfRule, ConditionalComparison, ConditionalOperand, DvOp, Rgb};
use put::Cursor;

fn put_cell_is(
    text: &mut Cursor<'_>,
    pool: &[u8],
    op: DvOp,
    first: ConditionalOperand,
    second: ConditionalOperand,
    fill: Rgb,
)
    ensures { Puts text.old (kindGram.text (kind_said pool.now (CfRule.CellIs op first second fill))) text.new }
{
    text.put_bytes(b"cellis ");
    text.put_number(op as u64, b' ');
    put_operand(text, pool, first);
    put_second(text, pool, uses_second(op), second);
    put_colour(text, fill, b"\n");
}

fn put_scale2(text: &mut Cursor<'_>, min: Rgb, max: Rgb)
    ensures { Puts text.old (kindGram.text (Kind.scale2 min max)) text.new }
{
    text.put_bytes(b"scale2 ");
    put_colour(text, min, b" ");
    put_colour(text, max, b" - -\n");
}

fn put_scale3(text: &mut Cursor<'_>, min: Rgb, mid: Rgb, max: Rgb)
    ensures { Puts text.old (kindGram.text (Kind.scale3 min mid max)) text.new }
{
    text.put_bytes(b"scale3 ");
    put_colour(text, min, b" ");
    put_colour(text, mid, b" ");
    put_colour(text, max, b" -\n");
}

fn put_bar(text: &mut Cursor<'_>, color: Rgb)
    ensures { Puts text.old (kindGram.text (Kind.bar color)) text.new }
{
    text.put_bytes(b"bar ");
    put_colour(text, color, b" - - -\n");
}

fn put_rank(text: &mut Cursor<'_>, rank: u32, bottom: bool, percent: bool, fill: Rgb)
    ensures { Puts text.old (kindGram.text (Kind.rank rank bottom percent fill)) text.new }
{
    text.put_bytes(b"rank ");
    text.put_number(rank as u64, b' ');
    put_either(text, bottom, b"top ", b"bottom ");
    put_either(text, percent, b"count ", b"percent ");
    put_colour(text, fill, b"\n");
}

fn put_mean(text: &mut Cursor<'_>, below: bool, fill: Rgb)
    ensures { Puts text.old (kindGram.text (Kind.mean below fill)) text.new }
{
    text.put_bytes(b"mean ");
    put_either(text, below, b"above - - ", b"below - - ");
    put_colour(text, fill, b"\n");
}

fn put_same(text: &mut Cursor<'_>, unique: bool, fill: Rgb)
    ensures { Puts text.old (kindGram.text (Kind.same unique fill)) text.new }
{
    text.put_bytes(b"same ");
    put_either(text, unique, b"duplicate - - ", b"unique - - ");
    put_colour(text, fill, b"\n");
}

fn put_expression(
    text: &mut Cursor<'_>,
    pool: &[u8],
    op: ConditionalComparison,
    left: ConditionalOperand,
    right: ConditionalOperand,
    fill: Rgb,
)
    ensures { Puts text.old (kindGram.text (kind_said pool.now (CfRule.Expression op left right fill))) text.new }
{
    text.put_bytes(b"expr ");
    text.put_number(op as u64, b' ');
    put_operand(text, pool, left);
    put_operand(text, pool, right);
    put_colour(text, fill, b"\n");
}

#[tactic(auto, unfolding(jobtext::specs::Said::kind_said))]
pub(crate) fn put_kind(text: &mut Cursor<'_>, pool: &[u8], kind: CfRule)
    ensures { Puts text.old (kindGram.text (kind_said pool.now kind)) text.new }
{
    match kind {
        CfRule::CellIs {
            op,
            first,
            second,
            fill,
        } => put_cell_is(text, pool, op, first, second, fill),
        CfRule::ColorScale2 { min, max } => put_scale2(text, min, max),
        CfRule::ColorScale3 { min, mid, max } => put_scale3(text, min, mid, max),
        CfRule::DataBar { color } => put_bar(text, color),
        CfRule::TopBottom {
            rank,
            bottom,
            percent,
            fill,
        } => put_rank(text, rank, bottom, percent, fill),
        CfRule::AboveAverage { below, fill } => put_mean(text, below, fill),
        CfRule::DuplicateValues { unique, fill } => put_same(text, unique, fill),
        CfRule::Expression {
            op,
            left,
            right,
            fill,
        } => put_expression(text, pool, op, left, right, fill),
    }
}

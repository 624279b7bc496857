// Rules from a list: the number that the call is told, and a column with 32 words for each record.
// A word that does not fit its field counts as 0.
use crate::list::List;
use lists::Faulty;
use model::{
    A1Reference, CfRule, ConditionalComparison, ConditionalOperand, DvOp, Range, Rgb, Rule, Rules,
    Span,
};
use readings::number::float_of_bits;

// The words of a record: the range stands in words 0 to 3, whether the priority is written in 4, the priority in 5, stop in 6, imported in
// 7, the kind in 8; operators, and whether bottom, below or unique, in 9, rank in 10, percent in 11, colours in 12 to 14, operands in 15 to
// 22 and 23 to 30.
type Words = [u64; 32];

fn narrow<T: TryFrom<u64> + Default + Drop>(x: u64) -> T
where
    T::Error: Drop,
{
    T::try_from(x).unwrap_or_default()
}

fn rgb(x: u64) -> Rgb {
    Rgb {
        red: narrow(x / 65536),
        green: narrow(x / 256 % 256),
        blue: narrow(x % 256),
    }
}

// An operand: 0 unread, or 1 and the literal's bits, or 2, row, col, the absolute flags of both, whether a sheet is named, and the name's
// place in the pool.
fn operand(w: [u64; 8]) -> ConditionalOperand {
    let [kind, row, col, row_absolute, col_absolute, named, at, len] = w;
    match kind {
        0 => ConditionalOperand::Unread,
        1 => ConditionalOperand::Literal(float_of_bits(row)),
        _ => {
            let span = Span {
                at: narrow(at),
                len: narrow(len),
            };
            ConditionalOperand::Reference(A1Reference {
                sheet: if named == 0 { None } else { Some(span) },
                row: narrow(row),
                col: narrow(col),
                row_absolute: row_absolute == 1,
                col_absolute: col_absolute == 1,
            })
        }
    }
}

fn first(w: &Words) -> ConditionalOperand {
    operand([w[15], w[16], w[17], w[18], w[19], w[20], w[21], w[22]])
}

fn second(w: &Words) -> ConditionalOperand {
    operand([w[23], w[24], w[25], w[26], w[27], w[28], w[29], w[30]])
}

fn expression(w: &Words, fill: Rgb) -> CfRule {
    let op = ConditionalComparison::try_from(w[9]);
    CfRule::Expression {
        op: op.unwrap_or(ConditionalComparison::GreaterOrEqual),
        left: first(w),
        right: second(w),
        fill,
    }
}

fn kind_of(w: &Words) -> CfRule {
    let fill = rgb(w[12]);
    match w[8] {
        1 => CfRule::CellIs {
            op: DvOp::try_from(w[9]).unwrap_or(DvOp::LessThanOrEqual),
            first: first(w),
            second: second(w),
            fill,
        },
        2 => CfRule::ColorScale2 {
            min: fill,
            max: rgb(w[13]),
        },
        3 => CfRule::ColorScale3 {
            min: fill,
            mid: rgb(w[13]),
            max: rgb(w[14]),
        },
        4 => CfRule::DataBar { color: fill },
        5 => CfRule::TopBottom {
            rank: narrow(w[10]),
            bottom: w[9] == 1,
            percent: w[11] == 1,
            fill,
        },
        6 => CfRule::AboveAverage {
            below: w[9] == 1,
            fill,
        },
        7 => CfRule::DuplicateValues {
            unique: w[9] == 1,
            fill,
        },
        _ => expression(w, fill),
    }
}

fn rule_of(w: &Words) -> Rule {
    let priority: u32 = narrow(w[5]);
    Rule {
        range: Range {
            top: narrow(w[0]),
            left: narrow(w[1]),
            bottom: narrow(w[2]),
            right: narrow(w[3]),
        },
        priority: if w[4] == 1 { Some(priority) } else { None },
        stop: w[6] == 1,
        imported: w[7] == 1,
        kind: kind_of(w),
    }
}

// Not inlined: the words would stay in the caller's frame, below the call that is tried.
#[inline(never)]
pub(crate) fn read_rules(list: &mut List) -> Result<Rules, Faulty> {
    let number = list.number()?;
    let mut words = [[0; 32]; 64];
    list.column(words.as_flattened_mut())?;
    Ok(Rules {
        records: words.map(|w| rule_of(&w)),
        number,
    })
}

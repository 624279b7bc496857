// Rules with all that a text has no place for filled at random, and their names where the second pool has them.
use crate::layout::Layout;
use crate::random::{drawn, low8, low16, low32};
use comparison::uses_second;
use model::{
    A1Reference, CfRule, ConditionalComparison, ConditionalOperand, DvOp, Range, Rgb, Rule, Rules,
    Span,
};
use readings::number::float_of_bits;

// ---- records that have no meaning

fn any_rgb(x: u64) -> Rgb {
    Rgb {
        red: low8(x),
        green: low8(x / 256),
        blue: low8(x / 65536),
    }
}

fn any_dv_op(x: u64) -> DvOp {
    DvOp::try_from(x % 8).unwrap_or(DvOp::LessThanOrEqual)
}

fn any_comparison(x: u64) -> ConditionalComparison {
    ConditionalComparison::try_from(x % 6).unwrap_or(ConditionalComparison::GreaterOrEqual)
}

// A text that runs past every pool's end.
fn outside(x: u64) -> Span {
    Span {
        at: low32(x),
        len: 65537 + low16(x / 4294967296) as u32,
    }
}

// A literal that is no finite number.
fn no_number(x: u64) -> ConditionalOperand {
    match x % 3 {
        0 => ConditionalOperand::Literal(1.0 / 0.0),
        1 => ConditionalOperand::Literal(-1.0 / 0.0),
        _ => ConditionalOperand::Literal(0.0 / 0.0),
    }
}

fn any_reference(x: u64, y: u64) -> ConditionalOperand {
    ConditionalOperand::Reference(A1Reference {
        sheet: Some(outside(x)),
        row: low32(y),
        col: low16(y / 4294967296),
        row_absolute: x % 2 == 0,
        col_absolute: y % 2 == 0,
    })
}

fn any_operand(x: u64, y: u64) -> ConditionalOperand {
    match x % 4 {
        0 => ConditionalOperand::Literal(float_of_bits(y)),
        1 => no_number(y),
        2 => any_reference(x, y),
        _ => ConditionalOperand::Unread,
    }
}

fn any_cell_is(x: u64, y: u64) -> CfRule {
    CfRule::CellIs {
        op: any_dv_op(y / 256),
        first: any_operand(x / 8, y),
        second: any_operand(y, x),
        fill: any_rgb(x),
    }
}

fn any_expression(x: u64, y: u64) -> CfRule {
    CfRule::Expression {
        op: any_comparison(y / 256),
        left: any_operand(x / 8, y),
        right: any_operand(y, x),
        fill: any_rgb(x),
    }
}

fn any_scale(x: u64, y: u64) -> CfRule {
    if x % 16 < 8 {
        return CfRule::ColorScale2 {
            min: any_rgb(x),
            max: any_rgb(y),
        };
    }
    CfRule::ColorScale3 {
        min: any_rgb(x),
        mid: any_rgb(y),
        max: any_rgb(x / 65536),
    }
}

fn any_top_bottom(x: u64, y: u64) -> CfRule {
    CfRule::TopBottom {
        rank: low32(y),
        bottom: x % 16 < 8,
        percent: y % 2 == 0,
        fill: any_rgb(x),
    }
}

fn any_kind(x: u64, y: u64) -> CfRule {
    match x % 8 {
        0 | 1 => any_cell_is(x, y),
        2 => any_scale(x, y),
        3 => CfRule::DataBar { color: any_rgb(y) },
        4 => any_top_bottom(x, y),
        5 => CfRule::AboveAverage {
            below: y % 2 == 0,
            fill: any_rgb(x),
        },
        6 => CfRule::DuplicateValues {
            unique: y % 2 == 0,
            fill: any_rgb(x),
        },
        _ => any_expression(x, y),
    }
}

fn any_rule(x: u64, y: u64) -> Rule {
    Rule {
        range: Range {
            top: low32(x),
            left: low16(y),
            bottom: low32(y),
            right: low16(x),
        },
        priority: if y % 2 == 0 { None } else { Some(low32(y)) },
        stop: x % 2 == 0,
        imported: y % 2 == 0,
        kind: any_kind(x, y),
    }
}

// ---- records of the job

fn filled_reference(l: Layout, reference: A1Reference) -> A1Reference {
    A1Reference {
        sheet: reference.sheet.map(|span| l.moved(span)),
        ..reference
    }
}

// An unread operand is written as a literal that is no finite number is.
fn filled_operand(l: Layout, operand: ConditionalOperand, x: u64) -> ConditionalOperand {
    match operand {
        ConditionalOperand::Reference(a) => ConditionalOperand::Reference(filled_reference(l, a)),
        ConditionalOperand::Unread if x % 2 == 0 => no_number(x / 2),
        _ => operand,
    }
}

fn filled_second(
    l: Layout,
    used: bool,
    operand: ConditionalOperand,
    x: u64,
    y: u64,
) -> ConditionalOperand {
    if used {
        return filled_operand(l, operand, x);
    }
    any_operand(x, y)
}

fn filled_kind(l: Layout, kind: CfRule, x: u64, y: u64) -> CfRule {
    match kind {
        CfRule::CellIs {
            op,
            first,
            second,
            fill,
        } => CfRule::CellIs {
            op,
            first: filled_operand(l, first, x),
            second: filled_second(l, uses_second(op), second, y, x),
            fill,
        },
        CfRule::Expression {
            op,
            left,
            right,
            fill,
        } => CfRule::Expression {
            op,
            left: filled_operand(l, left, x),
            right: filled_operand(l, right, y),
            fill,
        },
        _ => kind,
    }
}

fn filled_rule(l: Layout, rule: Rule, x: u64, y: u64) -> Rule {
    Rule {
        kind: filled_kind(l, rule.kind, x, y),
        ..rule
    }
}

// A record that is not used becomes any rule.
fn free_rule(l: Layout, used: bool, rule: Rule, i: usize) -> Rule {
    let x = drawn(l.seed, 4, i);
    let y = drawn(l.seed, 5, i);
    if used {
        return filled_rule(l, rule, x, y);
    }
    any_rule(x, y)
}

pub(crate) fn filled_rules(l: Layout, rules: &Rules) -> Rules {
    let mut filled = *rules;
    for (i, record) in filled.records.iter_mut().enumerate() {
        *record = free_rule(l, i < rules.number, *record, i);
    }
    filled
}

// ---- names into the second pool

fn copy_operand(l: Layout, first: &[u8], second: &mut [u8], operand: ConditionalOperand) {
    if let ConditionalOperand::Reference(a) = operand {
        if let Some(span) = a.sheet {
            l.copy_text(first, second, span);
        }
    }
}

fn copy_kind(l: Layout, first: &[u8], second: &mut [u8], kind: CfRule) {
    let (one, two) = match kind {
        CfRule::CellIs { first, second, .. } => (first, second),
        CfRule::Expression { left, right, .. } => (left, right),
        _ => return,
    };
    copy_operand(l, first, second, one);
    copy_operand(l, first, second, two);
}

pub(crate) fn copy_names(l: Layout, first: &[u8], second: &mut [u8], rules: &Rules) {
    for rule in rules.declared() {
        copy_kind(l, first, second, rule.kind);
    }
}

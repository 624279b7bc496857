// The declared types of a job: its sheet, its rules, what a rule comes to, and the answer.
// Names are those of conditional.rs where it has them.
#![tactic(auto)]

use charging::ChargeError;

// ---- the sheet

// A text of the pool: `len` bytes from `at`.
#[derive(Clone, Copy)]
pub struct Span {
    pub at: u32,
    pub len: u32,
}

#[derive(Clone, Copy)]
pub struct CellCoordinate {
    pub row: u32,
    pub col: u16,
}

#[derive(Clone, Copy)]
pub enum CellValue {
    Number(f64),
    Date(f64),
    Text(Span),
    Bool(bool),
    Error,
}

// A cell: its innermost value, and how many boxes of `Cell::Formula` the Rust has around it.
#[derive(Clone, Copy)]
pub struct Cell {
    pub value: CellValue,
    pub wraps: u8,
}

// A text stays where it is in the pool; its letters count without regard to case.
#[derive(Clone, Copy)]
pub enum ConditionalValueKey {
    Number(u64),
    Text(Span),
    Bool(bool),
}

// ---- the rules

// A colour that a text can write, and no more.
#[derive(Clone, Copy)]
pub struct Rgb {
    pub red: u8,
    pub green: u8,
    pub blue: u8,
}

// First row, first column, last row, last column, all inclusive.
#[derive(Clone, Copy)]
pub struct Range {
    pub top: u32,
    pub left: u16,
    pub bottom: u32,
    pub right: u16,
}

// No sheet name means this sheet.
#[derive(Clone, Copy)]
pub struct A1Reference {
    pub sheet: Option<Span>,
    pub row: u32,
    pub col: u16,
    pub row_absolute: bool,
    pub col_absolute: bool,
}

#[derive(Clone, Copy)]
pub enum ConditionalOperand {
    Literal(f64),
    Reference(A1Reference),
    Unread,
}

#[derive(Clone, Copy)]
pub enum DvOp {
    Between,
    NotBetween,
    Equal,
    NotEqual,
    GreaterThan,
    LessThan,
    GreaterThanOrEqual,
    LessThanOrEqual,
}

#[derive(Clone, Copy)]
pub enum ConditionalComparison {
    Equal,
    NotEqual,
    Less,
    LessOrEqual,
    Greater,
    GreaterOrEqual,
}

// A number that no operator has.
#[derive(Clone, Copy)]
pub struct NoOperator;

impl TryFrom<u64> for DvOp {
    type Error = NoOperator;

    ghost use Rattle.std.specs.Prelude.{◌≡◌};
    ghost use Rattle.model.specs.Numbers.{dv_op_numbered};

    ghost try_from_gives = { λ n r. r ≡ dv_op_numbered n };

    fn try_from(number: u64) -> Result<DvOp, NoOperator> {
        match number {
            0 => Ok(DvOp::Between),
            1 => Ok(DvOp::NotBetween),
            2 => Ok(DvOp::Equal),
            3 => Ok(DvOp::NotEqual),
            4 => Ok(DvOp::GreaterThan),
            5 => Ok(DvOp::LessThan),
            6 => Ok(DvOp::GreaterThanOrEqual),
            7 => Ok(DvOp::LessThanOrEqual),
            _ => Err(NoOperator),
        }
    }
}

impl TryFrom<u64> for ConditionalComparison {
    type Error = NoOperator;

    ghost use Rattle.std.specs.Prelude.{◌≡◌};
    ghost use Rattle.model.specs.Numbers.{comparison_numbered};

    ghost try_from_gives = { λ n r. r ≡ comparison_numbered n };

    fn try_from(number: u64) -> Result<ConditionalComparison, NoOperator> {
        match number {
            0 => Ok(ConditionalComparison::Equal),
            1 => Ok(ConditionalComparison::NotEqual),
            2 => Ok(ConditionalComparison::Less),
            3 => Ok(ConditionalComparison::LessOrEqual),
            4 => Ok(ConditionalComparison::Greater),
            5 => Ok(ConditionalComparison::GreaterOrEqual),
            _ => Err(NoOperator),
        }
    }
}

// Where a comparison is split: its operator, the operator's position and how many bytes it has.
#[derive(Clone, Copy)]
pub struct Split {
    pub op: ConditionalComparison,
    pub at: usize,
    pub width: usize,
}

#[derive(Clone, Copy)]
pub enum CfRule {
    CellIs {
        op: DvOp,
        first: ConditionalOperand,
        second: ConditionalOperand,
        fill: Rgb,
    },
    ColorScale2 {
        min: Rgb,
        max: Rgb,
    },
    ColorScale3 {
        min: Rgb,
        mid: Rgb,
        max: Rgb,
    },
    DataBar {
        color: Rgb,
    },
    TopBottom {
        rank: u32,
        bottom: bool,
        percent: bool,
        fill: Rgb,
    },
    AboveAverage {
        below: bool,
        fill: Rgb,
    },
    DuplicateValues {
        unique: bool,
        fill: Rgb,
    },
    Expression {
        op: ConditionalComparison,
        left: ConditionalOperand,
        right: ConditionalOperand,
        fill: Rgb,
    },
}

#[derive(Clone, Copy)]
pub struct Rule {
    pub range: Range,
    pub priority: Option<u32>,
    pub stop: bool,
    pub imported: bool,
    pub kind: CfRule,
}

// The rules of a job: the first `number` of the records. What stands in the others has no meaning.
#[derive(Clone, Copy)]
pub struct Rules {
    pub records: [Rule; 64],
    pub number: usize,
}

impl Rules {
    ghost use Rattle.std.specs.Prelude.{◌≡◌, take};

    // All records where the number is larger than that of the records.
    pub fn declared(&self) -> &[Rule]
        ensures { result.now ≡ take self.now.number self.now.records }
    {
        match self.records.get(..self.number) {
            Some(first) => first,
            None => &self.records,
        }
    }
}

// ---- lent columns

// The cells of a sheet, a column for each of their parts.
#[derive(Clone, Copy)]
pub struct LentCells<'a> {
    pub rows: &'a [u32],
    pub cols: &'a [u16],
    pub kinds: &'a [u8],
    pub wraps: &'a [u8],
    pub nums: &'a [u64],
    pub ats: &'a [u32],
    pub lens: &'a [u32],
}

// The regions that may be marked.
#[derive(Clone, Copy)]
pub struct LentRegions<'a> {
    pub rows: &'a [u32],
    pub cols: &'a [u16],
}

// A job: its sheet, its rules and the evaluations before it.
#[derive(Clone, Copy)]
pub struct LentJob<'a> {
    pub cells: LentCells<'a>,
    pub regions: LentRegions<'a>,
    pub pool: &'a [u8],
    pub name: Span,
    pub rules: &'a Rules,
    pub start: u64,
}

// ---- what a rule comes to

// What a region in range is tested against: the rule's kind, with what the values of its range come to.
#[derive(Clone, Copy)]
pub enum Test {
    CellIs {
        op: DvOp,
        first: ConditionalOperand,
        second: ConditionalOperand,
        fill: Rgb,
    },
    ColorScale2 {
        min: Rgb,
        max: Rgb,
        least: f64,
        greatest: f64,
    },
    ColorScale3 {
        min: Rgb,
        mid: Rgb,
        max: Rgb,
        least: f64,
        midpoint: f64,
        greatest: f64,
    },
    DataBar {
        color: Rgb,
        least: f64,
        greatest: f64,
    },
    TopBottom {
        bottom: bool,
        threshold: f64,
        fill: Rgb,
    },
    AboveAverage {
        below: bool,
        average: f64,
        fill: Rgb,
    },
    DuplicateValues {
        unique: bool,
        fill: Rgb,
    },
    Expression {
        op: ConditionalComparison,
        left: ConditionalOperand,
        right: ConditionalOperand,
        fill: Rgb,
    },
}

// A rule ahead of its regions: deferred, skipped, or the test of each region.
#[derive(Clone, Copy)]
pub enum Plan {
    Deferred,
    Skipped,
    Tested(Test),
}

// What a ratio says of its ends: it is a place between them, they are flat, or their difference is not finite. `Ratio.antt` gives document
// 02's number for each case.
#[derive(Clone, Copy)]
pub enum Shape {
    Plain,
    Flat,
    TooWide,
}

// A ratio: the place of a value between two ends, in parts per million, and what it says of the ends.
#[derive(Clone, Copy)]
pub struct Normalized {
    pub ppm: u32,
    pub shape: Shape,
}

// A mark without its place, as the mark columns hold it: kind 1 fill, 2 imported style, 3 bar, 4 bar with imported style; shape the number
// of its ratio's shape, 3 more in the upper half of a scale with three colours, 0 for rules other than scales and bars.
#[derive(Clone, Copy)]
pub struct Paint {
    pub kind: u32,
    pub colour: u32,
    pub ppm: u32,
    pub shape: u32,
}

// What a rule says of one region: it is stopped, it gets no mark, an operand reads to no number, or it gets a mark.
#[derive(Clone, Copy)]
pub enum Outcome {
    Stopped,
    Passed,
    Unresolved,
    Painted(Paint),
}

// ---- the answer

// What an answered job comes to: the evaluations, the marks, and how many rules are deferred and simplified.
#[derive(Clone, Copy)]
pub struct Answered {
    pub count: u64,
    pub marks: u64,
    pub deferred: u64,
    pub simplified: u64,
}

// Why a job is refused. `Answer.antt` gives document 01's number and values for each case.
#[derive(Clone, Copy)]
pub enum Refusal {
    // 1
    LengthsDiffer { count: u64 },
    // 2
    TooMany { count: u64 },
    // 3
    OutOfBounds { place: u64, count: u64 },
    // 4
    NotRising { place: u64, count: u64 },
    // 5
    NameOutside { place: u64, count: u64 },
    // 6
    SpaceShort { count: u64 },
    // 7
    LimitExceeded { count: u64, actual: u64 },
    // 8
    CoordinateOverflow { count: u64 },
    // 9
    MarksExceedSpace { count: u64, actual: u64 },
}

impl From<ChargeError> for Refusal {
    ghost use Rattle.std.specs.Prelude.{◌≡◌};
    ghost use Rattle.model.specs.Answer.{not_charged};

    ghost from_gives = { λ e r. r ≡ not_charged e };

    fn from(error: ChargeError) -> Refusal {
        match error {
            ChargeError::LimitExceeded(counter, actual) => Refusal::LimitExceeded {
                count: counter.count,
                actual,
            },
            ChargeError::CoordinateOverflow(counter) => Refusal::CoordinateOverflow {
                count: counter.count,
            },
        }
    }
}

// The answer of the call over lent columns.
pub type Answer = Result<Answered, Refusal>;

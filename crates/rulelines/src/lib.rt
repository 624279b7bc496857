// Rule lines of a job text, with the names of references into a lent pool.
#![tactic(auto)]

mod compared;
mod kinds;
mod operand;
mod parts;
mod words;

ghost use Rattle.std.specs.Prelude.{◌≤◌, ◌&&◌, ◌≡◌, leb, length, replicate};
ghost use Rattle.grammar.specs.Parts.{times_p};
ghost use Rattle.fields.specs.Room.{Room, roomy};
ghost use Rattle.jobtext.specs.Rules.{rule_line};
ghost use Rattle.jobtext.specs.Laid.{blank_rule, rule_bytes};
ghost use Rattle.rulelines.specs.RuleLines.{rule_of, rest, behind_range, rule_bytes_of};
ghost use Rattle.rulelines.specs.RuleSections.{rules_left, answer_of, rules_at, section_of, pool_after};
ghost use Rattle.rulelines.specs.Lines.{Pooled};

use crate::parts::read_priority;
use crate::words::read_kind;
use fields::Malformed;
use model::{CfRule, Range, Rgb, Rule, Rules};

// A value that was read, and the place after it.
#[derive(Clone, Copy)]
struct Placed<T> {
    value: T,
    next: usize,
}

// A value whose names are in the pool, the place after it, and up to where the pool is then used.
#[derive(Clone, Copy)]
struct Laid<T> {
    value: T,
    next: usize,
    used: usize,
}

fn blank_rule() -> Rule
    ensures { result ≡ blank_rule }
{
    let range = Range {
        top: 0,
        left: 0,
        bottom: 0,
        right: 0,
    };
    let color = Rgb {
        red: 0,
        green: 0,
        blue: 0,
    };
    Rule {
        range,
        priority: None,
        stop: false,
        imported: false,
        kind: CfRule::DataBar { color },
    }
}

// No rules.
pub fn blank_rules() -> Rules
    ensures { result ≡ record { records = replicate 64 blank_rule; number = 0 } }
{
    let blank = blank_rule();
    Rules {
        records: [blank; 64],
        number: 0,
    }
}

// What stands behind the range: priority, flags and rule word.
#[tactic(auto, using(crate::proofs::Told::reads), unfolding(crate::specs::RuleLines::rest, crate::specs::RuleLines::rule_bytes_of, jobtext::specs::Laid::rule_at, grammar::specs::Parts::bytes))]
fn read_behind(
    s: &[u8],
    at: usize,
    range: Range,
    pool: &mut [u8],
    used: usize,
) -> Result<Laid<Rule>, Malformed>
    requires { Room s.now at used }
    ensures rule { result ≡ rule_of (behind_range range (rest.parse s.now at)) used }
    ensures pooled { Pooled rule_bytes_of (behind_range range (rest.parse s.now at)) used pool.old pool.new }
{
    let priority = read_priority(s, at)?;
    let stop = fields::either_word(s, priority.next, b"0 ", b"1 ")?;
    let imported = fields::either_word(s, stop.next, b"0 ", b"1 ")?;
    let kind = read_kind(s, imported.next, pool, used)?;
    let value = Rule {
        range,
        priority: priority.value,
        stop: stop.second,
        imported: imported.second,
        kind: kind.value,
    };
    Ok(Laid {
        value,
        next: kind.next,
        used: kind.used,
    })
}

#[tactic(auto, using(crate::proofs::Told::reads), unfolding(jobtext::specs::Rules::rule_line, crate::specs::RuleLines::rest))]
fn read_rule(s: &[u8], at: usize, pool: &mut [u8], used: usize) -> Result<Laid<Rule>, Malformed>
    requires { Room s.now at used }
    ensures rule { result ≡ rule_of (rule_line.parse s.now at) used }
    ensures pooled { Pooled rule_bytes_of (rule_line.parse s.now at) used pool.old pool.new }
{
    let top = fields::decimal(s, at, 4294967295, b' ')?;
    let left = fields::decimal(s, top.next, 65535, b' ')?;
    let bottom = fields::decimal(s, left.next, 4294967295, b' ')?;
    let right = fields::decimal(s, bottom.next, 65535, b' ')?;
    let range = Range {
        top: top.value as u32,
        left: left.value as u16,
        bottom: bottom.value as u32,
        right: right.value as u16,
    };
    read_behind(s, right.next, range, pool, used)
}

// ---- the section of rules

// The rules, the place after their lines, up to where the pool is then used, and whether it is so long.
#[derive(Clone, Copy)]
pub struct RuleSection {
    pub fits: bool,
    pub next: usize,
    pub used: usize,
    pub rules: Rules,
}

fn read_rule_lines(
    s: &[u8],
    at: usize,
    number: usize,
    pool: &mut [u8],
    used: usize,
) -> Result<RuleSection, Malformed>
    requires { Room s.now at used × (number ≤ 64) }
    ensures value { result ≡ answer_of (rules_left 0 used (times_p number rule_line.parse s.now at) (replicate 64 blank_rule))
        (length pool.old) number }
    ensures pooled { Pooled rule_bytes (times_p number rule_line.parse s.now at) used pool.old pool.new }
{
    // the records by themselves: as a part of `Rules` each of them is moved field by field
    let blank = blank_rule();
    let mut records = [blank; 64];
    let mut next = at;
    let mut used = used;
    for i in 0..number {
        let rule = read_rule(s, next, pool, used)?;
        records[i] = rule.value;
        next = rule.next;
        used = rule.used;
    }
    let rules = Rules { records, number };
    Ok(RuleSection {
        fits: used <= pool.len(),
        next,
        used,
        rules,
    })
}

fn has_room(s: &[u8], at: usize, number: usize, used: usize) -> bool
    ensures { result ≡ (roomy s.now at used && leb number 64) }
{
    fields::has_room(s, at, used) && number <= 64
}

// Lines of rules, with the names of their references into the pool from `used` on; where they do not fit, the pool becomes 0. Where a
// line is malformed, or there are more than 64, or the text is longer than 65,536 bytes or `used` past `at`, no rule is left and the
// pool becomes 0.
pub fn read_rules(
    s: &[u8],
    at: usize,
    number: usize,
    pool: &mut [u8],
    used: usize,
) -> Result<RuleSection, Malformed>
    ensures value { result ≡ section_of used (length pool.old) (rules_at s.now at number used) }
    ensures pool_after { pool.new ≡ pool_after used (rules_at s.now at number used) pool.old }
{
    if !has_room(s, at, number, used) {
        pool.fill(0);
        return Err(Malformed { at });
    }
    match read_rule_lines(s, at, number, pool, used) {
        Ok(section) => {
            if !section.fits {
                pool.fill(0);
            }
            Ok(section)
        }
        Err(malformed) => {
            pool.fill(0);
            Err(malformed)
        }
    }
}

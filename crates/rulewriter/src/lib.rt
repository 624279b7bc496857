// The section of rules of a job text, from the declared rules and the pool that holds their names.
#![tactic(auto)]

ghost use Rattle.std.specs.Prelude.{map, ◌++◌, take};
ghost use Rattle.grammar.specs.Parts.{times_text};
ghost use Rattle.jobtext.specs.Rules.{rule_line};
ghost use Rattle.jobtext.specs.Text.{rule_names};
ghost use Rattle.jobtext.specs.Said.{rule_said};
ghost use Rattle.put.specs.Put.{Puts, Ready};
ghost use Rattle.rulewriter.specs.Ranges.{range_text};

use kinds::put_kind;
use model::{Range, Rule, Rules};
use parts::{put_either, put_priority};
use put::Cursor;

mod kinds;
mod operand;
mod parts;

// First row, first column, last row, last column.
fn put_range(text: &mut Cursor<'_>, range: Range)
    ensures { Puts text.old (range_text range) text.new }
{
    text.put_number(range.top as u64, b' ');
    text.put_number(range.left as u64, b' ');
    text.put_number(range.bottom as u64, b' ');
    text.put_number(range.right as u64, b' ');
}

fn put_rule(text: &mut Cursor<'_>, pool: &[u8], rule: Rule)
    ensures { Puts text.old (rule_line.text (rule_said pool.now rule)) text.new }
{
    put_range(text, rule.range);
    put_priority(text, rule.priority);
    put_either(text, rule.stop, b"0 ", b"1 ");
    put_either(text, rule.imported, b"0 ", b"1 ");
    put_kind(text, pool, rule.kind);
}

// The lines of the rules.
fn put_lines(text: &mut Cursor<'_>, pool: &[u8], rules: &[Rule])
    requires { Ready text.old.bytes.now text.old.at }
    ensures { Puts text.old (times_text rule_line.text (map (rule_said pool.now) rules.now)) text.new }
{
    for &rule in rules {
        put_rule(text, pool, rule);
    }
}

// The names of the rules' line, and a line for each rule of the first `number` records.
pub fn put_rules(text: &mut Cursor<'_>, pool: &[u8], rules: &Rules)
    ensures { Puts text.old (rule_names ++ times_text rule_line.text (map (rule_said pool.now)
        (take rules.now.number rules.now.records))) text.new }
{
    text.put_bytes(b"top left bottom right priority stop imported rule p1 p2 p3 p4\n");
    put_lines(text, pool, rules.declared());
}

// The choice of a rule word.
ghost use Rattle.std.specs.Prelude.{◌≡◌};
ghost use Rattle.fields.specs.Room.{Room};
ghost use Rattle.jobtext.specs.Rules.{kind};
ghost use Rattle.jobtext.specs.Laid.{kind_bytes};
ghost use Rattle.rulelines.specs.RuleWords.{kind_of};
ghost use Rattle.rulelines.specs.Lines.{Pooled};

use crate::Laid;
use crate::compared::{read_cell_is, read_expr};
use crate::kinds::{read_bar, read_mean, read_rank, read_same, read_scale2, read_scale3};
use fields::{Malformed, word};
use model::CfRule;

// A rule word with its parameters and the end of its line.
#[tactic(auto, using(crate::proofs::Told::reads), unfolding(jobtext::specs::Rules::kind, jobtext::specs::Laid::kind_bytes, grammar::specs::Parts::bytes))]
pub(crate) fn read_kind(
    s: &[u8],
    at: usize,
    pool: &mut [u8],
    used: usize,
) -> Result<Laid<CfRule>, Malformed>
    requires { Room s.now at used }
    ensures kind { result ≡ kind_of (kind.parse s.now at) used }
    ensures pooled { Pooled kind_bytes (kind.parse s.now at) used pool.old pool.new }
{
    if let Ok(next) = word(s, at, b"cellis ") {
        return read_cell_is(s, next, pool, used);
    }
    if let Ok(next) = word(s, at, b"scale2 ") {
        return read_scale2(s, next, used);
    }
    if let Ok(next) = word(s, at, b"scale3 ") {
        return read_scale3(s, next, used);
    }
    if let Ok(next) = word(s, at, b"bar ") {
        return read_bar(s, next, used);
    }
    if let Ok(next) = word(s, at, b"rank ") {
        return read_rank(s, next, used);
    }
    if let Ok(next) = word(s, at, b"mean ") {
        return read_mean(s, next, used);
    }
    if let Ok(next) = word(s, at, b"same ") {
        return read_same(s, next, used);
    }
    let next = word(s, at, b"expr ")?;
    read_expr(s, next, pool, used)
}

// The rule words that have no operands: they leave the pool as it is.
ghost use Rattle.std.specs.Prelude.{◌≡◌};
ghost use Rattle.jobtext.specs.Rules.{scale2, scale3, bar, rank, mean, same};
ghost use Rattle.rulelines.specs.Lines.{placed_of};
ghost use Rattle.rulelines.specs.RuleWords.{kind_of, flagged, made_scale2, made_scale3, made_bar, made_rank, made_mean, made_same};

use crate::parts::read_colour;
use crate::{Laid, Placed};
use fields::Malformed;
use model::{CfRule, Rgb};

#[tactic(auto, using(crate::proofs::Told::reads), unfolding(jobtext::specs::Rules::scale2, grammar::specs::Parts::bytes, jobtext::specs::Laid::kind_at, jobtext::specs::Laid::kind_bytes))]
pub(crate) fn read_scale2(s: &[u8], at: usize, used: usize) -> Result<Laid<CfRule>, Malformed>
    ensures { result ≡ kind_of (made_scale2 (scale2.parse s.now at)) used }
{
    let min = read_colour(s, at, b" ")?;
    let max = read_colour(s, min.next, b" - -\n")?;
    let value = CfRule::ColorScale2 {
        min: min.value,
        max: max.value,
    };
    Ok(Laid {
        value,
        next: max.next,
        used,
    })
}

#[tactic(auto, using(crate::proofs::Told::reads), unfolding(jobtext::specs::Rules::scale3, grammar::specs::Parts::bytes, jobtext::specs::Laid::kind_at, jobtext::specs::Laid::kind_bytes))]
pub(crate) fn read_scale3(s: &[u8], at: usize, used: usize) -> Result<Laid<CfRule>, Malformed>
    ensures { result ≡ kind_of (made_scale3 (scale3.parse s.now at)) used }
{
    let min = read_colour(s, at, b" ")?;
    let mid = read_colour(s, min.next, b" ")?;
    let max = read_colour(s, mid.next, b" -\n")?;
    let value = CfRule::ColorScale3 {
        min: min.value,
        mid: mid.value,
        max: max.value,
    };
    Ok(Laid {
        value,
        next: max.next,
        used,
    })
}

#[tactic(auto, using(crate::proofs::Told::reads), unfolding(jobtext::specs::Rules::bar, grammar::specs::Parts::bytes, jobtext::specs::Laid::kind_at, jobtext::specs::Laid::kind_bytes))]
pub(crate) fn read_bar(s: &[u8], at: usize, used: usize) -> Result<Laid<CfRule>, Malformed>
    ensures { result ≡ kind_of (made_bar (bar.parse s.now at)) used }
{
    let color = read_colour(s, at, b" - - -\n")?;
    let value = CfRule::DataBar { color: color.value };
    Ok(Laid {
        value,
        next: color.next,
        used,
    })
}

#[tactic(auto, using(crate::proofs::Told::reads), unfolding(jobtext::specs::Rules::rank, grammar::specs::Parts::bytes, jobtext::specs::Laid::kind_at, jobtext::specs::Laid::kind_bytes))]
pub(crate) fn read_rank(s: &[u8], at: usize, used: usize) -> Result<Laid<CfRule>, Malformed>
    ensures { result ≡ kind_of (made_rank (rank.parse s.now at)) used }
{
    let rank = fields::decimal(s, at, 4294967295, b' ')?;
    let bottom = fields::either_word(s, rank.next, b"top ", b"bottom ")?;
    let percent = fields::either_word(s, bottom.next, b"count ", b"percent ")?;
    let fill = read_colour(s, percent.next, b"\n")?;
    let value = CfRule::TopBottom {
        rank: rank.value as u32,
        bottom: bottom.second,
        percent: percent.second,
        fill: fill.value,
    };
    Ok(Laid {
        value,
        next: fill.next,
        used,
    })
}

// Which of two words, and the colour behind it.
#[tactic(auto, using(crate::proofs::Told::reads), unfolding(crate::specs::RuleWords::flagged, grammar::specs::Parts::bytes))]
fn read_flagged(
    s: &[u8],
    at: usize,
    first: &[u8],
    second: &[u8],
) -> Result<Placed<(bool, Rgb)>, Malformed>
    ensures { result ≡ placed_of ((flagged first.now second.now).parse s.now at) }
{
    let word = fields::either_word(s, at, first, second)?;
    let fill = read_colour(s, word.next, b"\n")?;
    Ok(Placed {
        value: (word.second, fill.value),
        next: fill.next,
    })
}

#[tactic(auto, using(crate::proofs::Told::reads), unfolding(jobtext::specs::Rules::mean, crate::specs::RuleWords::flagged, grammar::specs::Parts::bytes, jobtext::specs::Laid::kind_at, jobtext::specs::Laid::kind_bytes))]
pub(crate) fn read_mean(s: &[u8], at: usize, used: usize) -> Result<Laid<CfRule>, Malformed>
    ensures { result ≡ kind_of (made_mean (mean.parse s.now at)) used }
{
    let read = read_flagged(s, at, b"above - - ", b"below - - ")?;
    let (below, fill) = read.value;
    Ok(Laid {
        value: CfRule::AboveAverage { below, fill },
        next: read.next,
        used,
    })
}

pub(crate) fn read_same(s: &[u8], at: usize, used: usize) -> Result<Laid<CfRule>, Malformed>
    ensures { result ≡ kind_of (made_same (same.parse s.now at)) used }
{
    let read = read_flagged(s, at, b"duplicate - - ", b"unique - - ")?;
    let (unique, fill) = read.value;
    Ok(Laid {
        value: CfRule::DuplicateValues { unique, fill },
        next: read.next,
        used,
    })
}

// The answer of a job whose rules have run, under the space for marks.
#![tactic(auto)]

ghost use Rattle.std.specs.Prelude.{◌≡◌};
ghost use Rattle.settling.specs.Settling.{told, settled_to};

use charging::Charged;
use model::{Answer, Answered, Refusal};

// What the rules came to: the charges, and how many marks, deferred and simplified rules there are.
#[derive(Clone, Copy)]
pub struct Ran {
    pub charged: Charged,
    pub marks: u32,
    pub deferred: u64,
    pub simplified: u64,
}

// 7 and 8 as the charges ended, and 9 only when all of them were accepted.
#[tactic(auto, unfolding(model::specs::Answer::summary, model::specs::Answer::refused_by, model::specs::Answer::refusal, model::specs::Answer::answer))]
pub fn settle(ran: Ran, space: usize) -> Answer
    ensures { told result ≡ settled_to space ran }
{
    let marks = ran.marks as u64;
    let counter = ran.charged?;
    let count = counter.count;
    if space < ran.marks as usize {
        return Err(Refusal::MarksExceedSpace {
            count,
            actual: marks,
        });
    }
    Ok(Answered {
        count,
        marks,
        deferred: ran.deferred,
        simplified: ran.simplified,
    })
}

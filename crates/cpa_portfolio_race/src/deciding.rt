//! Which answer counts: the first that is TRUE or FALSE (`IsFirstDecided` of `specs/Races.antt`).
ghost use Rattle.std.specs.Prelude.{◌<◌, ◌^◌, ◌↔◌, length, IsTrue};
ghost use Rattle.cpa_engine.specs.Decided.{IsVerdict};
ghost use Rattle.cpa_portfolio_race.specs.Races.{IsFirstDecided};

use cpa_engine::Answer;

/// Whether the answer is TRUE or FALSE.
fn is_verdict(answer: &Answer) -> bool
    ensures { IsTrue result ↔ IsVerdict answer.now }
{
    match answer {
        Answer::True { .. } | Answer::False { .. } => true,
        Answer::Unknown { .. } => false,
    }
}

/// The place of the first answer that is TRUE or FALSE, or 0 where there is none. Takes no memory.
pub fn first_decided(answers: &[Answer]) -> u32
    requires some { 0 < length answers.now }
    requires few { length answers.now < 2 ^ 32 }
    ensures first { IsFirstDecided answers.now result }
    ensures inside { result < length answers.now }
{
    for (place, answer) in answers.iter().enumerate() {
        if is_verdict(answer) {
            return place as u32;
        }
    }
    0
}

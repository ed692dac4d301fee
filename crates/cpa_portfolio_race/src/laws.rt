//! A law on the answers of a race, for `race`; shown in `proofs/Agreeing.antt`.
ghost use Rattle.std.specs.Prelude.{List};
ghost use Rattle.cpa_model.specs.declared.automaton.Cfa.{Cfa};
ghost use Rattle.cpa_model.specs.Automata.{IsAutomaton};
ghost use Rattle.cpa_composite.specs.Components.{Component};
ghost use Rattle.cpa_config.specs.declared.config.Config.{Config};
ghost use Rattle.cpa_engine.specs.declared.answers.Answer.{Answer};
ghost use Rattle.cpa_portfolio_race.specs.Races.{Agree, AreAnswers};

use cpa_model::covers_are_safe;

/// A law: no two configurations give TRUE and FALSE on one automaton, since TRUE says that no
/// execution calls `reach_error`, and FALSE shows one that does.
pub(crate) fn answers_agree()
    ensures { (cfa : Cfa) (rows : List (List Component)) (configs : List Config)
        (answers : List Answer) → IsAutomaton cfa → AreAnswers cfa rows configs answers
        → Agree answers }
{
    covers_are_safe();
}

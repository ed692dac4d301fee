//! Laws on what is told, in the words of the program (`specs/Reports.antt`). Each function does
//! nothing: its contract is the law.
ghost use Rattle.std.specs.Prelude.{◌≡◌, ℕ, ℤ, List, length};
ghost use Rattle.cpa_model.specs.declared.automaton.Cfa.{Cfa};
ghost use Rattle.cpa_model.specs.declared.program.Program.{Program};
ghost use Rattle.cpa_model.specs.Automata.{IsAutomatonOf};
ghost use Rattle.cpa_model.specs.Programs.{IsWellFormed};
ghost use Rattle.cpa_iface.specs.declared.entries.Entry.{Entry};
ghost use Rattle.cpa_iface.specs.declared.merging.Pick.{Pick};
ghost use Rattle.cpa_iface.specs.Meanings.{Meaning};
ghost use Rattle.cpa_composite.specs.Components.{ArePlaces, Component, picked};
ghost use Rattle.cpa_config.specs.declared.config.Config.{Config};
ghost use Rattle.cpa_config.specs.Configurations.{Configures};
ghost use Rattle.cpa_engine.specs.declared.answers.Answer.TheVariants.{True, False};
ghost use Rattle.cpa_engine.specs.Answers.{IsAnswer};
ghost use Rattle.cpa_path.specs.Paths.{ReplaysTo};
ghost use Rattle.cpa_report_print.specs.declared.report.Verdict.TheVariants as verdict;
ghost use Rattle.cpa_top_verdict.specs.declared.reporting.Told.{Told};
ghost use Rattle.cpa_top_verdict.specs.Reports.{IsSafeReport, IsErrorReport, IsTextOf};
ghost use Rattle.cpa_top_verdict.specs.Verdicts.{IsTold, report_of};

use cpa_model::covers_are_safe;

/// A law: a program of which TRUE is told is safe. Its text is the report of entries that show it.
pub fn true_is_safe()
    ensures answer { (P : Program) (cfa : Cfa) (cs : List Component) (config : Config)
        (entries : List Entry) → IsWellFormed P → IsAutomatonOf P cfa
        → IsAnswer cfa cs config (True entries)
        → IsSafeReport config.model (length cs) P
        (report_of config.model P cfa (True entries)) }
    ensures told { (P : Program) (cs : List Component) (config : Config) (told : Told)
        → IsWellFormed P → IsTold P cs config told → told.verdict ≡ verdict.True
        → IsTextOf (IsSafeReport config.model (length cs) P) told.text.items }
{
    covers_are_safe();
}

/// A law: a program of which FALSE is told calls `reach_error`. Its text is the report of the
/// inputs with which it does, and of the steps after which.
pub fn false_calls_the_error()
    ensures answer { (P : Program) (cfa : Cfa) (cs : List Component) (config : Config)
        (inputs : List ℤ) (steps : ℕ) → IsWellFormed P → IsAutomatonOf P cfa
        → IsAnswer cfa cs config (False inputs steps) → ReplaysTo P inputs steps }
    ensures told { (P : Program) (cs : List Component) (config : Config) (told : Told)
        → IsWellFormed P → IsTold P cs config told → told.verdict ≡ verdict.False
        → IsTextOf (IsErrorReport config.model P) told.text.items }
{}

/// A law: the picks of a configuration name handed analyses, and each of them makes a component.
pub fn picks_are_places()
    ensures places { (text : List ℕ) (handed : List (List ℕ)) (config : Config)
        → Configures text handed config → ArePlaces (length handed) config.picks }
    ensures components { (ms : List Meaning) (picks : List Pick) → ArePlaces (length ms) picks
        → length (picked ms picks) ≡ length picks }
{}

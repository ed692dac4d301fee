//! Laws of configurations (`specs/Laws.antt`). Each function does nothing: its contract is the law.
ghost use Rattle.std.specs.Prelude.{ℕ, List, []};
ghost use Rattle.cpa_config.specs.declared.config.Config.{Config};
ghost use Rattle.cpa_config.specs.Configurations.{Configures};
ghost use Rattle.cpa_config.specs.Laws.{AreTheRanges, AreTheWords, HasOneAnswer, IsDefault};

/// The tables of the keys, in numbers and words.
pub fn the_tables()
    ensures ranges { AreTheRanges }
    ensures words { AreTheWords }
{}

/// A text gives one configuration or breaks one rule at one key, and never both.
pub fn texts_have_one_answer()
    ensures { (text : List ℕ) (handed : List (List ℕ)) → HasOneAnswer text handed }
{}

/// The empty text gives the defaults.
pub fn the_empty_text_gives_the_defaults()
    ensures { (handed : List (List ℕ)) (config : Config) → Configures [] handed config
        → IsDefault handed config }
{}

//! Laws of words (`specs/Laws.antt`). Each function does nothing: its contract is the law.
ghost use Rattle.std.specs.Prelude.{◌≡◌, ℕ, ◌≤◌, List};
ghost use Rattle.cpa_top_words.specs.Jobs.{Asks, Job, bench};
ghost use Rattle.cpa_top_words.specs.Laws.{AskForAJobWhereTaken, AskAsIsCustomary};
ghost use Rattle.cpa_top_words.specs.declared.job.TheConstants.{MAX_BENCH};

/// Words ask for one job at most.
pub fn words_ask_for_one_job()
    ensures { (words : List (List ℕ)) (j k : Job) → Asks words j → Asks words k → j ≡ k }
{}

/// Words ask for measurements of few functions alone.
pub fn words_ask_for_small_benches()
    ensures { (words : List (List ℕ)) (n : ℕ) → Asks words (bench n) → n ≤ MAX_BENCH }
{}

/// Words that clap takes ask for a job exactly where the data model that they name is one.
pub fn taken_words_ask_for_a_job()
    ensures { (words : List (List ℕ)) → AskForAJobWhereTaken words }
{}

/// What the plain words of each subcommand ask for.
pub fn customary_words_ask()
    ensures { AskAsIsCustomary }
{}

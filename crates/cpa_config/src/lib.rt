//! What a run is asked to do, read from a TOML text: `Configures` and `Refuses` of
//! `specs/Configurations.antt`.
#![tactic(auto)]

mod config;
mod faults;
mod keys;
mod laws;
mod line;
mod listing;
mod picking;
mod reading;
mod rules;
mod values;

pub use config::Config;
pub use faults::{ConfigError, ConfigFault, ConfigRule};
pub use keys::{
    DEFAULT_MODEL, DEFAULT_ORDER, DEFAULT_TRACKED, GATES, KEYS, Kind, LEARNT, LIMIT, MERGE_RULES,
    MODELS, ORDERS, ROUNDS, Range, TRACKED, TURNS, WIDENED,
};
pub use laws::{texts_have_one_answer, the_empty_text_gives_the_defaults, the_tables};
pub use reading::read;
pub use values::model_named;

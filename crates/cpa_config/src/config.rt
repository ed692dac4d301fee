//! The configuration of a run, plain data: what a text says is `IsConfig` of
//! `specs/Configurations.antt`.

use cpa_iface::{Order, Pick, Settings};
use cpa_ints::{DataModel, Seq};

/// What a run is asked to do.
#[derive(Drop)]
pub struct Config {
    /// The analyses that are used, by their places among the handed ones.
    pub picks: Seq<Pick>,
    /// Which waiting entry is taken.
    pub order: Order,
    /// How many entries a round may take.
    pub turns: u64,
    /// How many refinements may be made.
    pub rounds: u32,
    /// What each analysis is told.
    pub settings: Settings,
    /// The data model in which the program is read.
    pub model: DataModel,
}

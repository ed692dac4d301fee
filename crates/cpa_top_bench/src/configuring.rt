//! The configuration of a measurement: `IsBenchConfig` of `specs/Configurations.antt`.
ghost use Rattle.std.specs.Prelude.{◌≡◌, length, map, None, IfOk, IfSome};
ghost use Rattle.std.specs.String.{string_bytes};
ghost use Rattle.cpa_composite.specs.Components.{ArePlaces};
ghost use Rattle.cpa_config.specs.Values.{place_of};
ghost use Rattle.cpa_top_bench.specs.Configurations.{IsBenchConfig, IsKeptApart, LacksOne, used};
ghost use Rattle.std.specs.List.{AllZip};

use cpa_config::{Config, DEFAULT_ORDER, GATES, LEARNT, LIMIT, ROUNDS};
use cpa_iface::{MergeRule, Pick, Settings};
use cpa_ints::{DataModel, Seq};
use std::alloc::{AllocError, Global};

/// The turns of a measurement.
const TURNS: u64 = 1_000_000;

/// The place of the first handed analysis of this name.
fn place_of(handed: &[String], name: &str) -> Option<usize>
    ensures { result ≡ place_of (map string_bytes handed.now) name.now }
{
    handed.iter().position(|other| other.as_str() == name)
}

/// The pick of a name, where an analysis of that name is handed in. A place beyond 32 bits counts
/// as want of memory.
fn pick_of(handed: &[String], name: &str) -> Result<Option<Pick>, AllocError>
    ensures pick { IfOk result (λ found.
        IfSome found (IsKeptApart (map string_bytes handed.now) name.now)) }
    ensures none { IfOk result (λ found. found ≡ None
        → place_of (map string_bytes handed.now) name.now ≡ None) }
{
    match place_of(handed, name) {
        Some(place) => match u32::try_from(place) {
            Ok(place) => Ok(Some(Pick {
                place,
                rule: MergeRule::Sep,
            })),
            Err(_) => Err(AllocError),
        },
        None => Ok(None),
    }
}

/// The picks of a measurement, where all its analyses are handed in.
fn picks_of(alloc: Global, handed: &[String]) -> Result<Option<Seq<Pick>>, AllocError>
    ensures picks { IfOk result (λ found.
        IfSome found (AllZip (IsKeptApart (map string_bytes handed.now)) used)) }
    ensures none { IfOk result (λ found. found ≡ None → LacksOne (map string_bytes handed.now)) }
{
    let Some(location) = pick_of(handed, "location")? else {
        return Ok(None);
    };
    let Some(callstack) = pick_of(handed, "callstack")? else {
        return Ok(None);
    };
    let Some(value) = pick_of(handed, "value")? else {
        return Ok(None);
    };
    let picks = Vec::from_slice(alloc, &[location, callstack, value])?;
    Ok(Some(Seq::from_vec(picks)))
}

/// The configuration of a measurement for the names of the handed analyses, where all that it uses
/// are handed in.
pub fn bench_config(alloc: Global, handed: &[String]) -> Result<Option<Config>, AllocError>
    ensures config { IfOk result (λ found.
        IfSome found (IsBenchConfig (map string_bytes handed.now))) }
    ensures places { IfOk result (λ found.
        IfSome found (λ config. ArePlaces (length handed.now) config.picks)) }
    ensures none { IfOk result (λ found. found ≡ None → LacksOne (map string_bytes handed.now)) }
{
    let Some(picks) = picks_of(alloc, handed)? else {
        return Ok(None);
    };
    Ok(Some(Config {
        picks,
        order: DEFAULT_ORDER,
        turns: TURNS,
        rounds: ROUNDS.default as u32,
        settings: Settings {
            tracked_all: true,
            limit: LIMIT.default as u32,
            learnt: LEARNT.default as u32,
            gates: GATES.default,
        },
        model: DataModel::Lp64,
    }))
}

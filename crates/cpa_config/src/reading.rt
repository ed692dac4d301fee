//! The configuration of a text (`Configures` and `IsCause` of `specs/Configurations.antt`).
ghost use Rattle.std.specs.Prelude.{◌≡◌, ℕ, List, map, IfOk, IfErr, OnOk};
ghost use Rattle.std.specs.String.{string_bytes};
ghost use Rattle.toml.specs.View.{items_view, table_view};
ghost use Rattle.cpa_config.specs.Configurations.{Configures, IsCause, IsTableCause};
ghost use Rattle.cpa_config.specs.Configurations.{IsConfig, items_of_names, table_of};
ghost use Rattle.cpa_config.specs.Rules.{at};

use crate::config::Config;
use crate::faults::{ConfigError, ConfigFault, ConfigRule};
use crate::listing::value_of;
use crate::picking::config_of;
use crate::rules::first_fault;
use std::alloc::{AllocError, Global};
use toml::{Table, Value};

/// The names as the items of a list.
fn items_of_names(alloc: Global, names: &[String]) -> Result<Vec<Value>, AllocError>
    ensures { IfOk result (λ items. items_view items.items
        ≡ items_of_names (map string_bytes names.now)) }
{
    let mut items = Vec::new(alloc);
    for name in names {
        items.push(Value::string(alloc, name.as_str())?)?;
    }
    Ok(items)
}

/// Puts all handed names at `analyses`, where the table has no such key.
fn add_default(alloc: Global, handed: &[String], table: &mut Table) -> Result<(), AllocError>
    ensures { OnOk result ((key : List ℕ) → at (table_view table.new) key
        ≡ table_of (map string_bytes handed.now) (table_view table.old) key) }
{
    if value_of(table, "analyses").is_none() {
        let names = items_of_names(alloc, handed)?;
        table.insert(String::from_str(alloc, "analyses")?, Value::Array(names))?;
    }
    Ok(())
}

/// The configuration of a table whose `analyses` are there.
fn settle(alloc: Global, handed: &[String], table: &Table) -> Result<Config, ConfigError>
    ensures given { IfOk result
        (IsConfig (map string_bytes handed.now) (at (table_view table.now))) }
    ensures refused { IfErr result
        (IsTableCause (map string_bytes handed.now) (at (table_view table.now))) }
{
    match first_fault(alloc, handed, table)? {
        Some(fault) => Err(ConfigError::Fault(fault)),
        None => Ok(config_of(alloc, handed, table)?),
    }
}

/// The configuration of the table of a text.
fn complete(alloc: Global, handed: &[String], table: Table) -> Result<Config, ConfigError>
    ensures given { IfOk result
        (IsConfig (map string_bytes handed.now)
        (table_of (map string_bytes handed.now) (table_view table))) }
    ensures refused { IfErr result
        (IsTableCause (map string_bytes handed.now)
        (table_of (map string_bytes handed.now) (table_view table))) }
{
    let mut table = table;
    add_default(alloc, handed, &mut table)?;
    settle(alloc, handed, &table)
}

/// The configuration that a text gives for the names of the handed analyses.
///
/// The empty text gives the defaults.
pub fn read(alloc: Global, text: &[u8], names: &[String]) -> Result<Config, ConfigError>
    // The text is a TOML document in which no key breaks a rule, and this is what it says.
    ensures configures { IfOk result (Configures text.now (map string_bytes names.now)) }
    // The text is no TOML document, or this rule is broken at this key and none before it.
    ensures refuses { IfErr result (IsCause text.now (map string_bytes names.now)) }
{
    match toml::table_from_slice(alloc, text) {
        Ok(table) => complete(alloc, names, table),
        Err(error) if error.is_memory() => Err(ConfigError::OutOfMemory),
        Err(_) => Err(ConfigError::Fault(ConfigFault {
            rule: ConfigRule::C1,
            key: String::new(alloc),
        })),
    }
}

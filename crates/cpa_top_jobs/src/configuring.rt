//! The configuration of a job: that of the named file, or of the empty text (`Configures` of
//! `cpa_config`, `IsHalted` of `specs/Refusals.antt`); shown in `proofs/Configurations.antt`.
ghost use Rattle.std.specs.Prelude.{◌≡◌, [], Some, length, map, option_map};
ghost use Rattle.std.specs.Prelude.{IfOk, IfErr, OnOk};
ghost use Rattle.std.specs.String.{string_bytes};
ghost use Rattle.cpa_composite.specs.Components.{ArePlaces};
ghost use Rattle.cpa_config.specs.Configurations.{Configures};
ghost use Rattle.cpa_top_jobs.specs.Ends.{config_bytes};
ghost use Rattle.cpa_top_jobs.specs.Files.{files_of};
ghost use Rattle.cpa_top_jobs.specs.Jobs.{config_stages};
ghost use Rattle.cpa_top_jobs.specs.Lines.{config_line};
ghost use Rattle.cpa_top_jobs.specs.Refusals.{IsConfigRefused, IsHalted, IsTaken};

use crate::Role;
use crate::files::read_file;
use crate::refusal::Refusal;
use cpa_config::{Config, ConfigError, ConfigFault};
use cpa_outside::Inputs;
use cpa_top_verdict::picks_are_places;
use std::alloc::{AllocError, Global};

/// The line that refuses a configuration.
fn config_line(alloc: Global, fault: &ConfigFault) -> Result<String, AllocError>
    ensures { IfOk result (λ line. string_bytes line
        ≡ config_line fault.now.rule (string_bytes fault.now.key)) }
{
    format!(in alloc; "{fault}\n")
}

/// What the bytes say for the names of the handed analyses.
fn config_of(alloc: Global, bytes: &[u8], names: &[String]) -> Result<Config, Refusal>
    ensures config { IfOk result (Configures bytes.now (map string_bytes names.now)) }
    ensures places { IfOk result (λ config. ArePlaces (length names.now) config.picks) }
    ensures refused { IfErr result (IsConfigRefused (map string_bytes names.now) bytes.now) }
{
    picks_are_places();
    match cpa_config::read(alloc, bytes, names) {
        Ok(config) => Ok(config),
        Err(ConfigError::Fault(fault)) => Err(Refusal::NoConfig {
            line: config_line(alloc, &fault)?,
        }),
        Err(ConfigError::OutOfMemory) => Err(Refusal::OutOfMemory),
    }
}

/// The configuration where no file is named.
fn default_config(alloc: Global, names: &[String]) -> Result<Config, Refusal>
    ensures config { IfOk result (Configures [] (map string_bytes names.now)) }
    ensures places { IfOk result (λ config. ArePlaces (length names.now) config.picks) }
    ensures refused { IfErr result (IsConfigRefused (map string_bytes names.now) []) }
{
    config_of(alloc, b"", names)
}

/// The configuration of the file of a name.
fn read_config<I: Inputs>(
    alloc: Global,
    inputs: &mut I,
    names: &[String],
    file: &str,
) -> Result<Config, Refusal>
    ensures told { I.bytes_of inputs.new ≡ I.bytes_of inputs.old }
    ensures config { IfOk result (λ config. IsTaken (I.bytes_of inputs.old file.now)
        (λ bytes. Configures bytes (map string_bytes names.now) config)) }
    ensures places { IfOk result (λ config. ArePlaces (length names.now) config.picks) }
    ensures reads { OnOk result (I.faults_of inputs.new ≡ I.faults_of inputs.old) }
    ensures refused { IfErr result (IsHalted
        (files_of (I.bytes_of inputs.old) (I.faults_of inputs.old) (I.faults_of inputs.new))
        (config_stages (map string_bytes names.now) (Some file.now))) }
{
    let bytes = read_file(alloc, inputs, Role::Config, file)?;
    config_of(alloc, bytes.as_slice(), names)
}

/// The configuration that the file of the name gives for the names of the handed analyses, or that
/// the empty text gives, where no file is named.
pub(crate) fn take_config<I: Inputs>(
    alloc: Global,
    inputs: &mut I,
    names: &[String],
    file: Option<&str>,
) -> Result<Config, Refusal>
    ensures told { I.bytes_of inputs.new ≡ I.bytes_of inputs.old }
    ensures config { IfOk result (λ config.
        IsTaken (config_bytes (I.bytes_of inputs.old) (option_map (λ s. s.now) file.entry))
        (λ bytes. Configures bytes (map string_bytes names.now) config)) }
    ensures places { IfOk result (λ config. ArePlaces (length names.now) config.picks) }
    ensures reads { OnOk result (I.faults_of inputs.new ≡ I.faults_of inputs.old) }
    ensures refused { IfErr result (IsHalted
        (files_of (I.bytes_of inputs.old) (I.faults_of inputs.old) (I.faults_of inputs.new))
        (config_stages (map string_bytes names.now) (option_map (λ s. s.now) file.entry))) }
{
    match file {
        Some(file) => read_config(alloc, inputs, names, file),
        None => default_config(alloc, names),
    }
}

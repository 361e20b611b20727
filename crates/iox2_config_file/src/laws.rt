//! Laws of files of settings that no single call carries, and how values are copied.
ghost use Rattle.std.specs.Prelude.{◌≡◌, IfOk, IfErr, IsOkAnd};
ghost use Rattle.iox2_config_file.specs.Answers.{TableIsComplete};
ghost use Rattle.iox2_config_file.specs.Answers.{AreConfig, IsNoMemory};

use crate::fault::{Fault, Kind, SettingFault, TomlType};
use crate::read::{ConfigFileError, FileContents, read_config};
use crate::section::{Row, Section};
use crate::value::SettingValue;
use crate::write::{ConfigWriteError, Misfit, write_config};
use iox2_config::config::Config;
use std::alloc::{AllocError, Global};

/// What `write_config` writes, `read_config` reads: each setting has the value that it had, none is
/// refused, and no key is unknown. Only refused memory is reported.
#[tactic(auto, using(crate::proofs::ReadBack::config_is_back, crate::proofs::ReadBack::only_memory))]
pub fn what_is_written_is_read_back(
    alloc: Global,
    config: &Config,
) -> Result<Result<FileContents, ConfigFileError>, ConfigWriteError>
    ensures same { IfOk result (λ read. IfOk read (AreConfig config.now)) }
    ensures refused { IfOk result (λ read. IfErr read IsNoMemory) }
{
    let text = write_config(alloc, config)?;
    Ok(read_config(alloc, text.as_str()))
}

/// The table of settings is complete: two configurations that are equal in each of its rows are
/// equal in all fields, durations by their nanoseconds.
pub fn table_is_complete()
    ensures { TableIsComplete }
{}

/// What a setting holds, a key of a table, what its value may be and what it is, what is wrong with
/// it, and why a configuration gives no text.
pub type Settings<'a> = (
    SettingValue<'a>,
    Row,
    Section,
    Kind,
    TomlType,
    Fault,
    SettingFault,
    Misfit,
    ConfigWriteError,
);

/// A clone of what is said of a setting is the same and takes no memory.
pub fn settings_are_cloned<'a>(settings: &Settings<'a>) -> Result<Settings<'a>, AllocError>
    ensures { IsOkAnd result (λ copy. copy ≡ settings.now) }
{
    settings.clone()
}

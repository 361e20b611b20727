//! How a configuration is written as the text of a file.
ghost use Rattle.std.specs.Prelude.{◌≡◌, ◌++◌, ℕ, List, Some, OnOk, IfOk, option_map, slice_get};
ghost use Rattle.std.specs.Prelude.{flat_map, string_bytes};
ghost use Rattle.iox2_config_file.specs.Write.{value_view, entry_text, assignment, section_misfits};
ghost use Rattle.iox2_config_file.specs.Write.{located_misfits, FirstMisfitOf, IsHeaderText};
ghost use Rattle.iox2_config_file.specs.Write.{IsEntriesText, IsTableText};
ghost use Rattle.iox2_config_file.specs.Write.{IsConfigText, Writes, WritesOver};
ghost use Rattle.iox2_config_file.specs.Answers.{ReadsBack, AreLegal};
ghost use Rattle.iox2_config_file.specs.Settings as table_of;

use crate::section::{Row, SECTIONS, Section, header, rows};
use crate::value::{SettingValue, value_at};
use iox2_config::config::{Config, Node, Service};
use std::alloc::{AllocError, Global};
use std::fmt;
use thiserror::Error;

/// Why a configuration gives no text.
#[derive(Clone, Copy, Debug, PartialEq, Eq, Error)]
pub enum ConfigWriteError {
    /// A number, or the seconds of a duration, are 2^63 or more, which TOML does not have.
    #[error("{0}")]
    OutOfRange(Misfit),
    /// Memory was refused.
    #[error("no memory")]
    NoMemory,
}

/// A setting whose value TOML does not have.
#[derive(Clone, Copy, Debug, PartialEq, Eq, Error)]
#[error("{}{key}: is above 9223372036854775807, the greatest integer of TOML", section.prefix())]
pub struct Misfit {
    /// The table of the setting.
    pub section: Section,
    /// Its key.
    pub key: &'static str,
}

/// The first lines of a file.
const TITLE: &str = "# The settings of the middleware. A key that is left out has its default.\n";

/// A setting in the text, below a comment.
#[derive(Clone, Copy)]
struct Entry<'a> {
    row: &'static Row,
    default: SettingValue<'a>,
    value: SettingValue<'a>,
}

impl fmt::Display for Entry<'_> {
    ghost output = { λ e. Some (entry_text e.row.now (value_view e.default) (value_view e.value)) };

    fn fmt<W: fmt::Write>(&self, f: &mut fmt::Formatter<W>) -> fmt::Result {
        let about = self.row.about;
        let default = self.default;
        let assignment = Assignment {
            key: self.row.key,
            value: self.value,
        };
        write!(f, "\n# {about} By default {default}.\n{assignment}")
    }
}

/// What stands below the comment of a setting.
#[derive(Clone, Copy)]
struct Assignment<'a> {
    key: &'static str,
    value: SettingValue<'a>,
}

impl fmt::Display for Assignment<'_> {
    ghost output = { λ a. Some (assignment a.key.now (value_view a.value)) };

    fn fmt<W: fmt::Write>(&self, f: &mut fmt::Formatter<W>) -> fmt::Result {
        let key = self.key;
        let value = self.value;
        if value.is_set() {
            write!(f, "{key} = {value}\n")
        } else {
            write!(f, "# {key} is not set\n")
        }
    }
}

/// The text of a configuration, `iceoryx2.toml`: each setting below a comment that says what it is
/// and what it is by default.
///
/// Refused is a configuration with a number of 2^63 or more, or with a duration of as many
/// seconds, since TOML has no such integer: the first such setting is reported. A configuration
/// for which memory is refused is refused at any point. `read_config` reads the text as the same
/// configuration.
#[tactic(auto, using(crate::proofs::ReadBack::wrote_back))]
pub fn write_config(alloc: Global, config: &Config) -> Result<String, ConfigWriteError>
    ensures written { Writes config.now result }
    ensures reads_back { IfOk result (λ text. ReadsBack config.now (string_bytes text)) }
{
    texts_are_legal(config);
    written(alloc, config, &Config::default())
}

/// The text of a configuration, with what the settings of another are as the defaults.
fn written(alloc: Global, config: &Config, default: &Config) -> Result<String, ConfigWriteError>
    ensures { WritesOver default.now config.now result }
{
    if let Some(misfit) = misfit_among(config, &SECTIONS) {
        return Err(ConfigWriteError::OutOfRange(misfit));
    }
    match text_of(alloc, config, default) {
        Ok(text) => Ok(text),
        Err(_) => Err(ConfigWriteError::NoMemory),
    }
}

/// The first setting of some tables whose value TOML does not have.
#[tactic(auto, using(crate::proofs::Rowed::misfit_first, crate::proofs::Rowed::misfit_next))]
fn misfit_among(config: &Config, sections: &[Section]) -> Option<Misfit>
    ensures { FirstMisfitOf (flat_map (located_misfits config.now) sections.now) result }
{
    for section in sections {
        if let Some(key) = misfit_in(config, *section) {
            return Some(Misfit {
                section: *section,
                key,
            });
        }
    }
    None
}

/// The first setting of a table whose value TOML does not have.
#[tactic(auto, using(crate::proofs::Rowed::misfits_end))]
fn misfit_in(config: &Config, section: Section) -> Option<&'static str>
    ensures { option_map (λ key. key.now) result
        ≡ slice_get (section_misfits section config.now) 0 }
{
    let rows = rows(section);
    for index in 0..rows.len() {
        if let Some(value) = value_at(config, section, index) {
            if !value.fits() {
                return Some(rows[index].key);
            }
        }
    }
    None
}

/// The text of a configuration whose values TOML has.
fn text_of(alloc: Global, config: &Config, default: &Config) -> Result<String, AllocError>
    ensures { IfOk result (λ text. IsConfigText default.now config.now (string_bytes text)) }
{
    let mut out = String::new(alloc);
    out.push_str(TITLE)?;
    for section in &SECTIONS {
        write_table(&mut out, *section, config, default)?;
    }
    Ok(out)
}

/// Appends a table.
fn write_table(
    out: &mut String,
    section: Section,
    config: &Config,
    default: &Config,
) -> Result<(), AllocError>
    ensures { OnOk result ((table : List ℕ)
        × (string_bytes out.new ≡ string_bytes out.old ++ table)
        × IsTableText default.now config.now section table) }
{
    write_header(out, section)?;
    write_entries(out, section, config, default)
}

/// Appends the header of a table that has settings.
fn write_header(out: &mut String, section: Section) -> Result<(), AllocError>
    ensures { OnOk result ((head : List ℕ)
        × (string_bytes out.new ≡ string_bytes out.old ++ head) × IsHeaderText section head) }
{
    match header(section) {
        Some((name, about)) => write!(out, "\n# {about}\n[{name}]\n"),
        None => Ok(()),
    }
}

/// Appends the settings of a table.
fn write_entries(
    out: &mut String,
    section: Section,
    config: &Config,
    default: &Config,
) -> Result<(), AllocError>
    ensures { OnOk result ((entries : List ℕ)
        × (string_bytes out.new ≡ string_bytes out.old ++ entries)
        × IsEntriesText default.now config.now section entries) }
{
    let rows = rows(section);
    for index in 0..rows.len() {
        let Some(value) = value_at(config, section, index) else {
            return Ok(());
        };
        let Some(usual) = value_at(default, section, index) else {
            return Ok(());
        };
        let entry = Entry {
            row: &rows[index],
            default: usual,
            value,
        };
        write!(out, "{entry}")?;
    }
    Ok(())
}

/// Read for what they promise alone: the texts of a configuration are legal.
fn texts_are_legal(config: &Config)
    ensures global { AreLegal (table_of.global_settings config.now.global) }
    ensures service { AreLegal (table_of.service_settings config.now.global.service) }
    ensures node { AreLegal (table_of.node_settings config.now.global.node) }
{
    let _path = config.global.root_path().as_bytes();
    let _name = config.global.prefix.as_bytes();
    service_texts_are_legal(&config.global.service);
    node_texts_are_legal(&config.global.node);
}

/// Those of services' files.
fn service_texts_are_legal(settings: &Service)
    ensures { AreLegal (table_of.service_settings settings.now) }
{
    let _path = settings.directory.as_bytes();
    let _name = settings.data_segment_suffix.as_bytes();
    let _name = settings.static_config_storage_suffix.as_bytes();
    let _name = settings.dynamic_config_storage_suffix.as_bytes();
    let _name = settings.connection_suffix.as_bytes();
    let _name = settings.event_connection_suffix.as_bytes();
    let _name = settings.blackboard_mgmt_suffix.as_bytes();
    let _name = settings.blackboard_data_suffix.as_bytes();
}

/// Those of nodes' files.
fn node_texts_are_legal(settings: &Node)
    ensures { AreLegal (table_of.node_settings settings.now) }
{
    let _path = settings.directory.as_bytes();
    let _name = settings.monitor_suffix.as_bytes();
    let _name = settings.static_config_suffix.as_bytes();
    let _name = settings.service_tag_suffix.as_bytes();
    let _name = settings.port_tag_suffix.as_bytes();
    let _name = settings.global_mgmt_suffix.as_bytes();
}

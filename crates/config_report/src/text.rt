//! All settings, and the directories, the files and the chunks that follow, as text.
ghost use Rattle.std.specs.Prelude.{◌≡◌, ◌<◌, ◌++◌, ◌↔◌, ℕ, List, IsTrue, OnOk, Some, string_bytes};
ghost use Rattle.std.specs.Prelude.{length, map, flat_map, option_map, slice_get};
ghost use Rattle.iox2_config_file.specs.Read.{row_view, rows_in};
ghost use Rattle.iox2_config_file.specs.Write.{value_view};
ghost use Rattle.config_report.specs.Text.{is_same, IsReportOver, setting_line, setting_text};
ghost use Rattle.config_report.specs.Text.{table_lines};
ghost use Rattle.config_report.specs.Text.{value_pair, value_pairs};
ghost use Rattle.config_report.specs.Text.{directory_text, directories_text, named_line};
ghost use Rattle.config_report.specs.Text.{file_line, files_text, kind_view, kinds_of};
ghost use Rattle.config_report.specs.Text.{sample_limits_of, request_limits_of};
ghost use Rattle.config_report.specs.Text.{all_limits, response_limits_of};
ghost use Rattle.config_report.specs.Text.{need_text, IsNeedLine, IsNeedsText};
ghost use Rattle.iox2_static.specs.Chunks.{ReportsGreatest};
ghost use Rattle.std.specs.Duration.{as_nanos};
ghost use Rattle.iox2_config_file.specs.Values.{duration};
ghost use Rattle.iox2_texts.specs.Path.{MakesJoined};

use crate::printable::write_printable_line;
use iox2_config::config::{Config, Node, Service};
use iox2_config_file::{Row, SECTIONS, Section, SettingValue, rows, value_at};
use iox2_static::static_config::{publish_subscribe, request_response};
use iox2_texts::bounded::SemanticStringError;
use iox2_texts::paths::{FileName, Path};
use std::alloc::{AllocError, Global};
use std::fmt;
use std::time::Duration;

/// Appends all settings, each marked where it differs from a default, and what follows from them.
pub(crate) fn write_text(
    alloc: Global,
    out: &mut String,
    config: &Config,
    default: &Config,
) -> Result<(), AllocError>
    ensures { OnOk result ((text : List ℕ)
        × (string_bytes out.new ≡ string_bytes out.old ++ text)
        × IsReportOver default.now config.now text) }
{
    write!(
        out,
        "settings, with ! where they differ from the defaults\n"
    )?;
    write_tables(alloc, out, &SECTIONS, config, default)?;
    write_directories(alloc, out, config)?;
    write_files(alloc, out, config)?;
    write_needs(out, config)
}

/// Appends the settings of some tables.
fn write_tables(
    alloc: Global,
    out: &mut String,
    sections: &[Section],
    config: &Config,
    default: &Config,
) -> Result<(), AllocError>
    ensures { OnOk result (string_bytes out.new ≡ string_bytes out.old
        ++ flat_map (table_lines default.now config.now) sections.now) }
{
    for section in sections {
        write_table(alloc, out, *section, config, default)?;
    }
    Ok(())
}

/// Appends the settings of a table.
#[tactic(auto, using(crate::proofs::Pairs::walk_next, crate::proofs::Pairs::walk_past, crate::proofs::Pairs::walk_end), unfolding(crate::specs::Text::table_lines))]
fn write_table(
    alloc: Global,
    out: &mut String,
    section: Section,
    config: &Config,
    default: &Config,
) -> Result<(), AllocError>
    ensures { OnOk result (string_bytes out.new
        ≡ string_bytes out.old ++ table_lines default.now config.now section) }
{
    let rows = rows(section);
    for index in 0..rows.len() {
        let Some(pair) = pair_at(config, default, section, rows, index) else {
            return Ok(());
        };
        write_setting(alloc, out, section, pair)?;
    }
    Ok(())
}

/// Appends the line of a setting.
#[tactic(auto, unfolding(crate::specs::Text::setting_line))]
fn write_setting(
    alloc: Global,
    out: &mut String,
    section: Section,
    pair: ValuePair<'_>,
) -> Result<(), AllocError>
    ensures { OnOk result (string_bytes out.new
        ≡ string_bytes out.old ++ setting_line section (value_pair pair.entry)) }
{
    let line = format!(in alloc; "{}", Setting(section, pair))?;
    write_printable_line(out, line.as_str())
}

/// A setting in two configurations.
#[derive(Clone, Copy)]
pub struct ValuePair<'a> {
    /// Its key.
    pub key: &'static str,
    /// Its value.
    pub value: SettingValue<'a>,
    /// Its value in the other configuration.
    pub other: SettingValue<'a>,
}

/// The setting of this number among those of a table, which has these rows, in two configurations.
#[tactic(auto, using(crate::proofs::Pairs::no_value, crate::proofs::Pairs::no_other))]
pub fn pair_at<'a>(
    one: &'a Config,
    other: &'a Config,
    section: Section,
    rows: &'static [Row],
    index: usize,
) -> Option<ValuePair<'a>>
    requires rows { map row_view rows.now ≡ rows_in section one.now }
    requires inside { index < length rows.now }
    ensures { option_map value_pair result
        ≡ slice_get (value_pairs one.now other.now section) index }
{
    let value = value_at(one, section, index)?;
    let other = value_at(other, section, index)?;
    let key = rows[index].key;
    Some(ValuePair { key, value, other })
}

/// A setting, beside its default where it differs from that.
#[derive(Clone, Copy)]
struct Setting<'a>(Section, ValuePair<'a>);

impl fmt::Display for Setting<'_> {
    ghost output = { λ setting. Some (setting_text setting.0 (value_pair setting.1)) };

    #[tactic(auto, unfolding(crate::specs::Text::setting_text))]
    fn fmt<W: fmt::Write>(&self, f: &mut fmt::Formatter<W>) -> fmt::Result {
        let Setting(section, pair) = *self;
        let ValuePair { key, value, other } = pair;
        let prefix = section.prefix();
        if is_same(value, other) {
            write!(f, "  {prefix}{key} = {value}")
        } else {
            write!(f, "! {prefix}{key} = {value}, by default {other}")
        }
    }
}

/// Whether two settings have one value.
#[tactic(auto, using(crate::proofs::Pairs::same_is))]
pub fn is_same(value: SettingValue<'_>, usual: SettingValue<'_>) -> bool
    ensures test { result ≡ is_same (value_view value.entry) (value_view usual.entry) }
    ensures equal { IsTrue result ↔ (value_view value.entry ≡ value_view usual.entry) }
{
    match value {
        SettingValue::Duration(time) => is_time(usual, time),
        _ => value == usual,
    }
}

/// Whether a setting is a time of this length.
fn is_time(value: SettingValue<'_>, time: Duration) -> bool
    ensures { IsTrue result ↔ (duration (as_nanos time) ≡ value_view value.entry) }
{
    match value {
        SettingValue::Duration(other) => time.as_nanos() == other.as_nanos(),
        _ => false,
    }
}

/// Appends the directories.
fn write_directories(alloc: Global, out: &mut String, config: &Config) -> Result<(), AllocError>
    ensures { OnOk result
        (string_bytes out.new ≡ string_bytes out.old ++ directories_text config.now) }
{
    let services = config.global.service_dir();
    let nodes = config.global.node_dir();
    write!(out, "\ndirectories\n")?;
    write_named(alloc, out, "root", config.global.root_path().as_str())?;
    write_named(alloc, out, "services", directory_text(&services))?;
    write_named(alloc, out, "nodes", directory_text(&nodes))
}

/// The path of a directory, or why there is none.
fn directory_text(directory: &Result<Path, SemanticStringError>) -> &str
    ensures { (root entry : List ℕ) → MakesJoined root entry directory.now
        → result.now ≡ directory_text root entry }
{
    match directory {
        Ok(path) => path.as_str(),
        Err(_) => "none: its path would have more than 255 bytes",
    }
}

/// Appends a name, filled with spaces to 22 characters, and what stands beside it, as a line.
fn write_named(alloc: Global, out: &mut String, name: &str, text: &str) -> Result<(), AllocError>
    ensures { OnOk result
        (string_bytes out.new ≡ string_bytes out.old ++ named_line name.now text.now) }
{
    let line = format!(in alloc; "  {name:<22} {text}")?;
    write_printable_line(out, line.as_str())
}

/// A kind of files.
#[derive(Clone, Copy)]
struct FileKind<'a> {
    /// What the files are.
    name: &'static str,
    /// How their names end.
    suffix: &'a FileName,
}

/// Kinds of files, each with what they are and how their names end.
macro_rules! kinds_of {
    ($($name:literal, $suffix:expr;)*) => {
        [$(FileKind {
            name: $name,
            suffix: &$suffix,
        }),*]
    };
}

/// The kinds of services' and of nodes' files.
fn kinds<'a>(service: &'a Service, node: &'a Node) -> [FileKind<'a>; 12]
    ensures { map kind_view result ≡ kinds_of service.now node.now }
{
    kinds_of!(
        "static configuration", service.static_config_storage_suffix;
        "dynamic configuration", service.dynamic_config_storage_suffix;
        "data segments", service.data_segment_suffix;
        "connections", service.connection_suffix;
        "event connections", service.event_connection_suffix;
        "blackboard management", service.blackboard_mgmt_suffix;
        "blackboard data", service.blackboard_data_suffix;
        "node monitors", node.monitor_suffix;
        "node details", node.static_config_suffix;
        "service tags", node.service_tag_suffix;
        "port tags", node.port_tag_suffix;
        "global management", node.global_mgmt_suffix;
    )
}

/// Appends a line for each kind of files: how their names begin and end.
fn write_kinds(
    alloc: Global,
    out: &mut String,
    prefix: &FileName,
    kinds: &[FileKind<'_>],
) -> Result<(), AllocError>
    ensures { OnOk result (string_bytes out.new
        ≡ string_bytes out.old ++ flat_map (file_line prefix.now) (map kind_view kinds.now)) }
{
    for kind in kinds {
        let FileKind { name, suffix } = *kind;
        let names = format!(in alloc; "{prefix}*{suffix}")?;
        write_named(alloc, out, name, names.as_str())?;
    }
    Ok(())
}

/// Appends the names of files.
fn write_files(alloc: Global, out: &mut String, config: &Config) -> Result<(), AllocError>
    ensures { OnOk result (string_bytes out.new ≡ string_bytes out.old ++ files_text config.now) }
{
    let kinds = kinds(&config.global.service, &config.global.node);
    write!(
        out,
        "\nfiles, with * for what the configuration does not fix\n"
    )?;
    write_kinds(alloc, out, &config.global.prefix, &kinds)
}

/// How many samples of a publisher can be in use at once.
pub fn samples(config: &Config) -> Option<usize>
    ensures { ReportsGreatest (sample_limits_of config.now.defaults) result }
{
    let loans = config
        .defaults
        .publish_subscribe
        .publisher_max_loaned_samples;
    publish_subscribe::StaticConfig::new(config).required_amount_of_samples_per_data_segment(loans)
}

/// How many requests of a client can be in use at once.
pub fn requests(config: &Config) -> Option<usize>
    ensures { ReportsGreatest (request_limits_of config.now.defaults) result }
{
    let loans = config.defaults.request_response.max_loaned_requests;
    request_response::StaticConfig::new(config).required_amount_of_chunks_per_client_data_segment(
        loans,
    )
}

/// How many responses of a server can be in use at once.
pub fn responses(config: &Config) -> Option<usize>
    ensures { ReportsGreatest (response_limits_of config.now.defaults) result }
{
    let loans = config
        .defaults
        .request_response
        .server_max_loaned_responses_per_request;
    request_response::StaticConfig::new(config).required_amount_of_chunks_per_server_data_segment(
        loans,
    )
}

/// How many chunks all ports of a kind can have in use at once, by how many one of them can.
#[tactic(auto, using(crate::proofs::AllPorts::all_of_some, crate::proofs::AllPorts::all_of_many))]
fn of_all(one: Option<usize>, ports: usize) -> Option<usize>
    ensures { (limits : List ℕ) → ReportsGreatest limits one
        → ReportsGreatest (all_limits ports limits) result }
{
    match one {
        Some(chunks) => chunks.checked_mul(ports),
        None if ports == 0 => Some(0),
        None => None,
    }
}

/// A number of chunks, or none where 64 bits do not have it.
#[derive(Clone, Copy)]
struct Chunks(Option<usize>);

impl fmt::Display for Chunks {
    ghost output = { λ chunks. Some (need_text chunks.0) };

    fn fmt<W: fmt::Write>(&self, f: &mut fmt::Formatter<W>) -> fmt::Result {
        match self.0 {
            Some(count) => write!(f, "{count}"),
            None => f.write_str("more than 18446744073709551615"),
        }
    }
}

/// Appends how many chunks a port of each kind needs, and all ports of the kind.
fn write_needs(out: &mut String, config: &Config) -> Result<(), AllocError>
    ensures { OnOk result ((needs : List ℕ)
        × (string_bytes out.new ≡ string_bytes out.old ++ needs)
        × IsNeedsText config.now.defaults needs) }
{
    let publishers = config.defaults.publish_subscribe.max_publishers;
    let clients = config.defaults.request_response.max_clients;
    let servers = config.defaults.request_response.max_servers;
    write!(
        out,
        "\nchunks that a port needs at these limits, and all ports of its kind\n"
    )?;
    write_need(out, "publisher", samples(config), publishers)?;
    write_need(out, "client", requests(config), clients)?;
    write_need(out, "server", responses(config), servers)?;
    write!(
        out,
        "  event, blackboard      none: their ports send no messages\n"
    )
}

/// Appends how many chunks a port of one kind needs, and all of so many.
fn write_need(
    out: &mut String,
    port: &str,
    one: Option<usize>,
    ports: usize,
) -> Result<(), AllocError>
    ensures { OnOk result ((limits : List ℕ) → ReportsGreatest limits one → (line : List ℕ)
        × (string_bytes out.new ≡ string_bytes out.old ++ line)
        × IsNeedLine port.now limits ports line) }
{
    let all = Chunks(of_all(one, ports));
    let one = Chunks(one);
    write!(out, "  {port:<22} {one}, all {ports} together {all}\n")
}

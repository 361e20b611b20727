//! Settings that a caller filled, as the text of a file.
ghost use Rattle.std.specs.Prelude.{◌≡◌, IfErr, IfOk, OnOk, Ok, Err};
ghost use Rattle.iox2sd_config.specs.Writing.{IsPath, IsFileName, bytes_of, HasPaths, HasNames};
ghost use Rattle.iox2sd_config.specs.Writing.{HasServiceNames, HasNodeNames, with_paths};
ghost use Rattle.iox2sd_config.specs.Writing.{with_names, with_service_names, with_node_names};
ghost use Rattle.iox2sd_config.specs.Writing.{ReadsSystem, ReadsDefaults, ReadsConfig};
ghost use Rattle.iox2sd_config.specs.Writing.{written_answer, keyed_answer, unfit_answer};
ghost use Rattle.iox2sd_config.specs.Writing.{bad_status, bad_view, bad_path, bad_name, IsFirstBad};
ghost use Rattle.iox2sd_config.specs.Writing.{paths_of, service_names_of, node_names_of};
ghost use Rattle.iox2sd_config.specs.Writing.{IsFirstBadName, ReportsText, WritesConfig};

use crate::config::{PlainConfig, PlainText, PlainTexts};
use crate::fault::{cut, key_path};
use iox2_config::config::{Config, Defaults, Global, Node, Service};
use iox2_config_file::{ConfigWriteError, write_config};
use iox2_texts::paths::{FileName, Path};
use iox2sd_common::answers::{fit_status, put};
use iox2sd_common::given_or_return;
use iox2sd_common::read_settings::{
    Field, read_blackboard, read_event, read_global, read_publish_subscribe, read_request_response,
};
use iox2sd_common::status::Status;
use std::alloc;

/// What writing settings gave.
#[repr(C)]
#[derive(Clone, Copy)]
pub struct WriteAnswer {
    /// The number of a [`Status`].
    pub status: u32,
    /// The field of the settings that is not valid, as of their checks.
    pub field: u32,
    /// How many bytes the text has, whether they fitted or not; 0 where there is no text.
    pub length: usize,
    /// The first bytes of the path of the key whose text is refused, or whose number TOML does not
    /// have, and then zeros.
    pub key: [u8; 80],
    /// How many bytes this path has; 0 where the status is about no key.
    pub key_length: usize,
}

impl WriteAnswer {
    /// This status, of a text of so many bytes.
    fn of(status: Status, length: usize) -> WriteAnswer
        ensures { result ≡ written_answer status length }
    {
        WriteAnswer {
            status: status.code(),
            field: 0,
            length,
            key: [0; 80],
            key_length: 0,
        }
    }

    /// This status, of the value at a key.
    fn keyed(status: Status, key: &str) -> WriteAnswer
        ensures { result ≡ keyed_answer status key.now }
    {
        WriteAnswer {
            key: cut(key.as_bytes()),
            key_length: key.len(),
            ..WriteAnswer::of(status, 0)
        }
    }

    /// What is not valid in the settings.
    fn refused(unfit: Unfit) -> WriteAnswer
        ensures { result ≡ unfit_answer unfit }
    {
        match unfit {
            Unfit::Text(bad) => WriteAnswer::keyed(bad.status, bad.key),
            Unfit::Field(field) => {
                let answer = field.answer();
                WriteAnswer {
                    status: answer.status,
                    field: answer.field,
                    length: 0,
                    key: [0; 80],
                    key_length: 0,
                }
            }
        }
    }
}

/// What is not valid in settings.
#[derive(Clone, Copy)]
enum Unfit {
    /// This text is refused.
    Text(BadText),
    /// This field is invalid.
    Field(Field),
}

impl From<BadText> for Unfit {
    ghost use Rattle.iox2sd_config.specs.declared.write.Unfit.{Unfit};

    ghost from_gives = { λ bad unfit. unfit ≡ Unfit.Text bad };

    fn from(bad: BadText) -> Self {
        Unfit::Text(bad)
    }
}

impl From<Field> for Unfit {
    ghost use Rattle.iox2sd_config.specs.declared.write.Unfit.{Unfit};

    ghost from_gives = { λ field unfit. unfit ≡ Unfit.Field field };

    fn from(field: Field) -> Self {
        Unfit::Field(field)
    }
}

/// The bytes of a text.
fn bytes_of(text: &PlainText) -> &[u8]
    ensures { result.now ≡ bytes_of text.now }
{
    if text.length < 256 {
        &text.bytes[..text.length]
    } else {
        &text.bytes
    }
}

/// A text of the settings that is refused.
#[derive(Clone, Copy)]
pub(crate) struct BadText {
    /// Why it is refused.
    status: Status,
    /// The path of its key.
    key: &'static str,
}

/// The status of a text that is refused: its bytes are too many, or it is for another cause.
fn bad_status(text: &PlainText, otherwise: Status) -> Status
    ensures { result ≡ bad_status otherwise (bytes_of text.now) }
{
    if bytes_of(text).len() > 255 {
        Status::TooLong
    } else {
        otherwise
    }
}

/// The path that a text is, or why it is refused.
#[tactic(auto, unfolding(crate::specs::Writing::IsPath))]
fn read_path(text: &PlainText, key: &'static str) -> Result<Path, BadText>
    ensures ok { IfOk result (λ path. IsPath (bytes_of text.now)) }
    ensures made { IfOk result (λ path. path ≡ bytes_of text.now) }
    ensures err { IfErr result (λ bad. ¬ (IsPath (bytes_of text.now))) }
    ensures reported { IfErr result (λ bad. bad_view bad ≡ bad_path (key.now, bytes_of text.now)) }
{
    match Path::new(bytes_of(text)) {
        Ok(path) => Ok(path),
        Err(_) => Err(BadText {
            status: bad_status(text, Status::BadPath),
            key,
        }),
    }
}

/// The name of a file that a text is, or why it is refused.
#[tactic(auto, unfolding(crate::specs::Writing::IsFileName))]
fn read_name(text: &PlainText, key: &'static str) -> Result<FileName, BadText>
    ensures ok { IfOk result (λ name. IsFileName (bytes_of text.now)) }
    ensures made { IfOk result (λ name. name ≡ bytes_of text.now) }
    ensures err { IfErr result (λ bad. ¬ (IsFileName (bytes_of text.now))) }
    ensures reported { IfErr result (λ bad. bad_view bad ≡ bad_name (key.now, bytes_of text.now)) }
{
    match FileName::new(bytes_of(text)) {
        Ok(name) => Ok(name),
        Err(_) => Err(BadText {
            status: bad_status(text, Status::NoFileName),
            key,
        }),
    }
}

/// Sets the paths of a system's settings, or returns the first text that is none.
#[tactic(auto, using(crate::proofs::Listed::refused_texts))]
fn read_paths(texts: &PlainTexts, global: &mut Global) -> Result<(), BadText>
    ensures ok { OnOk result (HasPaths texts.now) }
    ensures made { OnOk result (global.new ≡ with_paths texts.now global.old) }
    ensures err { IfErr result (λ bad.
        IsFirstBad IsPath bad_path (paths_of texts.now) (bad_view bad)) }
{
    global.set_root_path(&read_path(&texts.root_path, "global.root-path")?);
    global.service.directory = read_path(&texts.service_directory, "global.service.directory")?;
    global.node.directory = read_path(&texts.node_directory, "global.node.directory")?;
    Ok(())
}

/// Sets what the names of services' files end with, or returns the first text that is none.
#[tactic(auto, using(crate::proofs::Listed::refused_texts))]
fn read_service_names(texts: &PlainTexts, service: &mut Service) -> Result<(), BadText>
    ensures ok { OnOk result (HasServiceNames texts.now) }
    ensures made { OnOk result (service.new ≡ with_service_names texts.now service.old) }
    ensures err { IfErr result (λ bad.
        IsFirstBad IsFileName bad_name (service_names_of texts.now) (bad_view bad)) }
{
    service.data_segment_suffix = read_name(
        &texts.data_segment_suffix,
        "global.service.data-segment-suffix",
    )?;
    service.static_config_storage_suffix = read_name(
        &texts.static_config_storage_suffix,
        "global.service.static-config-storage-suffix",
    )?;
    service.dynamic_config_storage_suffix = read_name(
        &texts.dynamic_config_storage_suffix,
        "global.service.dynamic-config-storage-suffix",
    )?;
    service.connection_suffix = read_name(
        &texts.connection_suffix,
        "global.service.connection-suffix",
    )?;
    service.event_connection_suffix = read_name(
        &texts.event_connection_suffix,
        "global.service.event-connection-suffix",
    )?;
    service.blackboard_mgmt_suffix = read_name(
        &texts.blackboard_mgmt_suffix,
        "global.service.blackboard-mgmt-suffix",
    )?;
    service.blackboard_data_suffix = read_name(
        &texts.blackboard_data_suffix,
        "global.service.blackboard-data-suffix",
    )?;
    Ok(())
}

/// Sets what the names of nodes' files end with, or returns the first text that is none.
#[tactic(auto, using(crate::proofs::Listed::refused_texts))]
fn read_node_names(texts: &PlainTexts, node: &mut Node) -> Result<(), BadText>
    ensures ok { OnOk result (HasNodeNames texts.now) }
    ensures made { OnOk result (node.new ≡ with_node_names texts.now node.old) }
    ensures err { IfErr result (λ bad.
        IsFirstBad IsFileName bad_name (node_names_of texts.now) (bad_view bad)) }
{
    node.monitor_suffix = read_name(&texts.monitor_suffix, "global.node.monitor-suffix")?;
    node.static_config_suffix = read_name(
        &texts.node_static_config_suffix,
        "global.node.static-config-suffix",
    )?;
    node.service_tag_suffix = read_name(
        &texts.service_tag_suffix,
        "global.node.service-tag-suffix",
    )?;
    node.port_tag_suffix = read_name(&texts.port_tag_suffix, "global.node.port-tag-suffix")?;
    node.global_mgmt_suffix = read_name(
        &texts.global_mgmt_suffix,
        "global.node.global-mgmt-suffix",
    )?;
    Ok(())
}

/// Sets the names of a system's settings, or returns the first text that is none.
fn read_names(texts: &PlainTexts, global: &mut Global) -> Result<(), BadText>
    ensures ok { OnOk result (HasNames texts.now) }
    ensures made { OnOk result (global.new ≡ with_names texts.now global.old) }
    ensures err { IfErr result (λ bad. IsFirstBadName texts.now (bad_view bad)) }
{
    global.prefix = read_name(&texts.prefix, "global.prefix")?;
    read_service_names(texts, &mut global.service)?;
    read_node_names(texts, &mut global.node)
}

/// Sets the settings of a system, or returns what is not valid in them.
fn read_system(given: &PlainConfig, global: &mut Global) -> Result<(), Unfit>
    ensures ok { OnOk result (ReadsSystem given.now (Ok global.new)) }
    ensures err { IfErr result (λ unfit. ReadsSystem given.now (Err unfit)) }
{
    read_paths(&given.texts, global)?;
    read_names(&given.texts, global)?;
    let settings = &given.global;
    global.creation_timeout = read_global(settings)?;
    global.service.cleanup_dead_nodes_on_open = settings.cleanup_dead_nodes_on_open;
    global.node.cleanup_dead_nodes_on_creation = settings.cleanup_dead_nodes_on_creation;
    global.node.cleanup_dead_nodes_on_destruction = settings.cleanup_dead_nodes_on_destruction;
    Ok(())
}

/// The settings of services, or the first field that is not valid.
fn read_defaults(given: &PlainConfig) -> Result<Defaults, Field>
    ensures { ReadsDefaults given.now result }
{
    Ok(Defaults {
        publish_subscribe: read_publish_subscribe(&given.publish_subscribe)?,
        event: read_event(&given.event)?,
        request_response: read_request_response(&given.request_response)?,
        blackboard: read_blackboard(&given.blackboard),
    })
}

/// All settings, or what is not valid in them.
fn read_given(given: &PlainConfig) -> Result<Config, Unfit>
    ensures { ReadsConfig given.now result }
{
    let mut config = Config::default();
    read_system(given, &mut config.global)?;
    config.defaults = read_defaults(given)?;
    Ok(config)
}

/// Writes the text of settings to the front of the buffer, where it fits.
fn write_text(alloc: alloc::Global, config: &Config, out: &mut [u8]) -> WriteAnswer
    ensures { ReportsText config.now out.old result out.new }
{
    match write_config(alloc, config) {
        Ok(text) => WriteAnswer::of(fit_status(put(text.as_bytes(), out)), text.len()),
        Err(ConfigWriteError::OutOfRange(misfit)) => {
            match key_path(alloc, misfit.section, misfit.key) {
                Ok(path) => WriteAnswer::keyed(Status::NoTomlInteger, path.as_str()),
                Err(_) => WriteAnswer::of(Status::NoMemory, 0),
            }
        }
        Err(ConfigWriteError::NoMemory) => WriteAnswer::of(Status::NoMemory, 0),
    }
}

/// Writes settings as the text of a file, each below a comment with what it is and its default, to
/// the front of the buffer where all of it fits.
///
/// Refused are, in this order, NULL (`Null`); the first path that is none, with the path of its
/// key, since it has more than 255 bytes (`TooLong`) or a byte that is not allowed (`BadPath`); so
/// the first text that is no name of a file (`TooLong`, `NoFileName`); the first field that is not
/// valid, of the system, of publish-subscribe, of event and of request-response services, as the
/// checks of settings report it (`BadDuration`, `UnknownStrategy`); a number above the greatest
/// integer of TOML, with the path of the first such key (`NoTomlInteger`); and too short a buffer
/// (`BufferTooShort`). Want of memory (`NoMemory`) is refused at any point after the fields. Then
/// the buffer is as it was.
#[unsafe(no_mangle)]
pub extern "C" fn iox2sd_config_write_at(
    alloc: alloc::Global,
    settings: &[PlainConfig],
    out: &mut [u8],
) -> WriteAnswer
    ensures { WritesConfig settings.now out.old result out.new }
{
    let given = given_or_return!(settings, WriteAnswer::of(Status::Null, 0));
    match read_given(given) {
        Ok(config) => write_text(alloc, &config, out),
        Err(unfit) => WriteAnswer::refused(unfit),
    }
}

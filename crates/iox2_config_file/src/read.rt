//! How the text of a file is read, and how a configuration is built of its tables.
ghost use Rattle.std.specs.Prelude.{◌≡◌, Some, IfOk, IfErr, map};
ghost use Rattle.iox2_config.specs.declared.config.Config.{Config};
ghost use Rattle.iox2_config_file.specs.Answers.{IsConfigOf, IsUnparsed, ReadsAll, ReportsFaults};
ghost use Rattle.iox2_config_file.specs.Answers.{ReportsUnknown};
ghost use Rattle.iox2_config_file.specs.Read.{read_setting, read_section, IsSettingsOf};
ghost use Rattle.iox2_config_file.specs.Settings as table_of;
ghost use Rattle.iox2_config_file.specs.declared.section.Section.TheVariants as section;
ghost use Rattle.toml.specs.Data.{Members, no_members};
ghost use Rattle.toml.specs.View.{table_view};
ghost use Rattle.toml.specs.Parse.{parse_document};

use crate::fault::{SettingFault, add_faults};
use crate::section::{SECTIONS, Section, node_settings, section_table, service_settings};
use crate::unknown::{UnknownKey, add_unknown};
use crate::value::read;
use crate::{
    blackboard_settings, event_settings, publish_subscribe_settings, request_response_settings,
};
use iox2_config::config::{
    Blackboard, Config, Defaults, Event, Global as GlobalSettings, Node, PublishSubscribe,
    RequestResonse, Service,
};
use std::alloc::{AllocError, Global};
use thiserror::Error;
use toml::Table;

/// Why the text of a file gives no settings.
#[derive(Debug, Drop, Error)]
pub enum ConfigFileError {
    /// The text is no TOML.
    #[error("{0}")]
    Syntax(toml::de::Error),
    /// Memory was refused.
    #[error("no memory")]
    NoMemory(AllocError),
}

/// All that a file says: its settings, and what is wrong with it.
#[derive(Debug, Drop)]
pub struct FileContents {
    /// The settings, those that the file does not have being the defaults; none where the file has
    /// a value that is not allowed.
    pub config: Option<Config>,
    /// The keys whose values are not allowed, in the order of the settings.
    pub faults: Vec<SettingFault>,
    /// The keys that no setting has, in the order of the tables and of the keys in each.
    pub unknown: Vec<UnknownKey>,
}

/// Reads all that the text of a file says. Only a text that is no TOML is refused, or one for which
/// memory is.
pub fn read_config(alloc: Global, text: &str) -> Result<FileContents, ConfigFileError>
    ensures ok { IfOk result (ReadsAll text.now) }
    ensures err { IfErr result (IsUnparsed text.now) }
{
    let file = parse(alloc, text)?;
    let empty = Table::new(alloc);
    let Ok((faults, unknown)) = wrong_in(alloc, &file, &empty) else {
        return Err(ConfigFileError::NoMemory(AllocError));
    };
    let config = config(&file, &empty, &Config::default());
    Ok(FileContents {
        config: settings_of(faults.as_slice(), config),
        faults,
        unknown,
    })
}

/// The values of a file that are not allowed, and its keys that no setting has, each in the order
/// of the tables and of the keys in each.
#[tactic(auto, unfolding(crate::specs::Read::faults_in, crate::specs::Unknown::unknown_in))]
fn wrong_in(
    alloc: Global,
    file: &Table,
    empty: &Table,
) -> Result<(Vec<SettingFault>, Vec<UnknownKey>), AllocError>
    requires { table_view empty.now ≡ no_members }
    ensures faults { IfOk result (λ wrong. ReportsFaults (table_view file.now) wrong.0.items) }
    ensures unknown { IfOk result (λ wrong. ReportsUnknown (table_view file.now) wrong.1.items) }
{
    let mut faults = Vec::new(alloc);
    let mut unknown = Vec::new(alloc);
    let sections = &SECTIONS;
    for section in sections {
        let table = section_table(file, *section, empty);
        add_faults(&mut faults, *section, table)?;
        add_unknown(alloc, &mut unknown, *section, table)?;
    }
    Ok((faults, unknown))
}

/// The settings of a file, unless it has faults.
fn settings_of(faults: &[SettingFault], config: Config) -> Option<Config>
    ensures { (default : Config) (file : Members) → ReportsFaults file faults.now
        → IsSettingsOf default file config → IsConfigOf default file result }
{
    match faults.first().copied() {
        Some(_) => None,
        None => Some(config),
    }
}

/// The table that a text is.
fn parse(alloc: Global, text: &str) -> Result<Table, ConfigFileError>
    ensures ok { IfOk result (λ file. parse_document text.now ≡ Some (table_view file)) }
    ensures err { IfErr result (IsUnparsed text.now) }
{
    match toml::table_from_str(alloc, text) {
        Ok(file) => Ok(file),
        Err(e) if e.is_memory() => Err(ConfigFileError::NoMemory(AllocError)),
        Err(e) => Err(ConfigFileError::Syntax(e)),
    }
}

/// The settings of a table, each read by its key, or else the default's.
macro_rules! settings_of {
    ($table:ident, $default:ident, $settings:ident, $(
        $number:literal => $field:ident: $key:literal, $kind:ident $($optional:ident)?,
            $about:literal;
    )*) => {
        $settings { $($field: read($table, $key, copy_of!($kind, $default.$field))),* }
    };
}

/// A copy of a setting of this kind.
macro_rules! copy_of {
    (Path, $setting:expr) => { $setting.copied() };
    (FileName, $setting:expr) => { $setting.copied() };
    ($kind:ident, $setting:expr) => { $setting };
}

/// The settings of services' files.
fn service(table: &Table, default: &Service) -> Service
    ensures { table_of.service_settings result
        ≡ map (read_setting (table_view table.now)) (table_of.service_settings default.now) }
{
    service_settings!(settings_of table, default, Service,)
}

/// The settings of nodes' files.
fn node(table: &Table, default: &Node) -> Node
    ensures { table_of.node_settings result
        ≡ map (read_setting (table_view table.now)) (table_of.node_settings default.now) }
{
    node_settings!(settings_of table, default, Node,)
}

/// The settings of publish-subscribe services.
fn publish_subscribe(table: &Table, default: &PublishSubscribe) -> PublishSubscribe
    ensures { table_of.publish_subscribe_settings result
        ≡ map (read_setting (table_view table.now))
        (table_of.publish_subscribe_settings default.now) }
{
    publish_subscribe_settings!(settings_of table, default, PublishSubscribe,)
}

/// The settings of event services.
fn event(table: &Table, default: &Event) -> Event
    ensures { table_of.event_settings result
        ≡ map (read_setting (table_view table.now)) (table_of.event_settings default.now) }
{
    event_settings!(settings_of table, default, Event,)
}

/// The settings of request-response services.
fn request_response(table: &Table, default: &RequestResonse) -> RequestResonse
    ensures { table_of.request_response_settings result
        ≡ map (read_setting (table_view table.now))
        (table_of.request_response_settings default.now) }
{
    request_response_settings!(settings_of table, default, RequestResonse,)
}

/// The settings of blackboard services.
fn blackboard(table: &Table, default: &Blackboard) -> Blackboard
    ensures { table_of.blackboard_settings result
        ≡ map (read_setting (table_view table.now)) (table_of.blackboard_settings default.now) }
{
    blackboard_settings!(settings_of table, default, Blackboard,)
}

/// The settings of a whole system, those of its services' and nodes' files among them.
fn system(file: &Table, empty: &Table, default: &GlobalSettings) -> GlobalSettings
    requires { table_view empty.now ≡ no_members }
    ensures global { table_of.global_settings result
        ≡ read_section section.Global (table_view file.now)
        (table_of.global_settings default.now) }
    ensures service { table_of.service_settings result.service
        ≡ read_section section.Service (table_view file.now)
        (table_of.service_settings default.now.service) }
    ensures node { table_of.node_settings result.node
        ≡ read_section section.Node (table_view file.now)
        (table_of.node_settings default.now.node) }
{
    let table = section_table(file, Section::Global, empty);
    let mut global = GlobalSettings::default();
    global.set_root_path(&read(table, "root-path", default.root_path().copied()));
    global.prefix = read(table, "prefix", default.prefix.copied());
    global.creation_timeout = read(table, "creation-timeout", default.creation_timeout);
    global.service = service(
        section_table(file, Section::Service, empty),
        &default.service,
    );
    global.node = node(section_table(file, Section::Node, empty), &default.node);
    global
}

/// The settings of a file, with those of a configuration where the file has none.
fn config(file: &Table, empty: &Table, default: &Config) -> Config
    requires { table_view empty.now ≡ no_members }
    ensures { IsSettingsOf default.now (table_view file.now) result }
{
    let defaults = &default.defaults;
    Config {
        global: system(file, empty, &default.global),
        defaults: Defaults {
            publish_subscribe: publish_subscribe(
                section_table(file, Section::PublishSubscribe, empty),
                &defaults.publish_subscribe,
            ),
            event: event(section_table(file, Section::Event, empty), &defaults.event),
            request_response: request_response(
                section_table(file, Section::RequestResponse, empty),
                &defaults.request_response,
            ),
            blackboard: blackboard(
                section_table(file, Section::Blackboard, empty),
                &defaults.blackboard,
            ),
        },
    }
}

//! Which settings of a configuration contradict each other.
ghost use Rattle.std.specs.Prelude.{◌≡◌, ◌++◌, IfOk, OnOk, flat_map, map};
ghost use Rattle.std.specs.Prelude.{option_copied};
ghost use Rattle.iox2_config_file.specs.Write.{value_view};
ghost use Rattle.config_report.specs.Contradictions.{candidate_view, contradiction_view};
ghost use Rattle.config_report.specs.Contradictions.{control_contradictions, control_text};
ghost use Rattle.config_report.specs.Contradictions.{global_texts, has_control, node_texts};
ghost use Rattle.config_report.specs.Contradictions.{service_texts};
ghost use Rattle.config_report.specs.Contradictions.{contradictions_in, default_contradictions};
ghost use Rattle.config_report.specs.Contradictions.{directory_contradictions, long_directory};
ghost use Rattle.config_report.specs.Contradictions.{event_contradictions, global_contradictions};
ghost use Rattle.config_report.specs.Contradictions.{has_small_buffer, history_contradictions};
ghost use Rattle.config_report.specs.Contradictions.{is_long, is_relative, limits_of, long_name};
ghost use Rattle.config_report.specs.Contradictions.{other_view, root_contradictions, same_suffix};
ghost use Rattle.config_report.specs.Contradictions.{side_view, suffix_contradictions, suffix_side};
ghost use Rattle.config_report.specs.Contradictions.{suffix_view, suffixes_of, unsent_event};
ghost use Rattle.config_report.specs.Contradictions.{useless_limit, where_so};
ghost use Rattle.iox2_texts.specs.Path.{MakesJoined};

use crate::contradiction::{Contradiction, Effect, Side};
use iox2_config::config::{
    Config, Defaults, Event, Global as GlobalSettings, Node, PublishSubscribe, Service,
};
use iox2_config_file::{Section, SettingValue};
use iox2_texts::bounded::SemanticStringError;
use iox2_texts::paths::{FileName, Path};
use std::alloc::{AllocError, Global};

/// How the names of a kind of services' files end.
#[derive(Clone, Copy)]
struct Suffix<'a> {
    key: &'static str,
    suffix: &'a FileName,
}

/// A contradiction, and whether it is one.
#[derive(Clone, Copy)]
struct Candidate<'a> {
    holds: bool,
    found: Contradiction<'a>,
}

/// A setting of this key and this value.
fn side<'a>(section: Section, key: &'static str, value: SettingValue<'a>) -> Side<'a>
    ensures { side_view result ≡ (section, key.now, value_view value.entry) }
{
    Side {
        section,
        key,
        value,
    }
}

/// The setting of a suffix.
fn suffix_of(found: Suffix<'_>) -> Side<'_>
    ensures { side_view result ≡ suffix_side (suffix_view found.entry) }
{
    let suffix = SettingValue::Text(found.suffix.as_str());
    side(Section::Service, found.key, suffix)
}

/// Adds a contradiction where this holds.
fn add_where<'a>(
    list: &mut Vec<Contradiction<'a>>,
    holds: bool,
    one: Side<'a>,
    other: Option<Side<'a>>,
    effect: Effect,
) -> Result<(), AllocError>
    ensures { OnOk result (map contradiction_view list.new.items
        ≡ map contradiction_view list.old.items
        ++ where_so holds (side_view one.entry) (other_view other.entry) effect) }
{
    if holds {
        list.push(Contradiction { one, other, effect })?;
    }
    Ok(())
}

/// Whether a path does not begin with `/`.
fn is_relative(path: &str) -> bool
    ensures { result ≡ is_relative path.now }
{
    !matches!(path.as_bytes(), [b'/', ..])
}

/// Adds a root path that does not begin with `/`.
fn add_root<'a>(
    list: &mut Vec<Contradiction<'a>>,
    global: &'a GlobalSettings,
) -> Result<(), AllocError>
    ensures { OnOk result (map contradiction_view list.new.items
        ≡ map contradiction_view list.old.items ++ root_contradictions global.now) }
{
    let path = global.root_path().as_str();
    let root = side(Section::Global, "root-path", SettingValue::Text(path));
    add_where(list, is_relative(path), root, None, Effect::ManyRoots)
}

/// The suffixes of services' files.
fn suffixes(service: &Service) -> [Suffix<'_>; 7]
    ensures { map suffix_view result ≡ suffixes_of service.now }
{
    let suffix = |key, suffix| Suffix { key, suffix };
    [
        suffix("data-segment-suffix", &service.data_segment_suffix),
        suffix(
            "static-config-storage-suffix",
            &service.static_config_storage_suffix,
        ),
        suffix(
            "dynamic-config-storage-suffix",
            &service.dynamic_config_storage_suffix,
        ),
        suffix("connection-suffix", &service.connection_suffix),
        suffix("event-connection-suffix", &service.event_connection_suffix),
        suffix("blackboard-mgmt-suffix", &service.blackboard_mgmt_suffix),
        suffix("blackboard-data-suffix", &service.blackboard_data_suffix),
    ]
}

/// Adds each of some kinds of files that has the suffix of another kind.
fn add_same<'a>(
    list: &mut Vec<Contradiction<'a>>,
    kind: Suffix<'a>,
    others: &[Suffix<'a>],
) -> Result<(), AllocError>
    ensures { OnOk result (map contradiction_view list.new.items
        ≡ map contradiction_view list.old.items
        ++ flat_map (same_suffix (suffix_view kind.entry)) (map suffix_view others.now)) }
{
    for other in others {
        let is_same = kind.suffix.as_str() == other.suffix.as_str();
        let beside = Some(suffix_of(*other));
        add_where(list, is_same, suffix_of(kind), beside, Effect::SameNames)?;
    }
    Ok(())
}

/// Adds each two of some kinds of files that have one suffix.
fn add_suffixes<'a>(
    list: &mut Vec<Contradiction<'a>>,
    kinds: &[Suffix<'a>],
) -> Result<(), AllocError>
    ensures { OnOk result (map contradiction_view list.new.items
        ≡ map contradiction_view list.old.items
        ++ suffix_contradictions (map suffix_view kinds.now)) }
{
    for i in 0..kinds.len() {
        add_same(list, kinds[i], &kinds[i + 1..])?;
    }
    Ok(())
}

/// Whether prefix, hash text and suffix have more than 255 bytes.
fn is_long(prefix: &FileName, suffix: &FileName) -> bool
    ensures { result ≡ is_long prefix.now suffix.now }
{
    prefix.as_str().len() + 27 + suffix.as_str().len() > 255
}

/// Adds each of some kinds of files whose names would be too long.
fn add_names<'a>(
    list: &mut Vec<Contradiction<'a>>,
    prefix: &'a FileName,
    kinds: &[Suffix<'a>],
) -> Result<(), AllocError>
    ensures { OnOk result (map contradiction_view list.new.items
        ≡ map contradiction_view list.old.items
        ++ flat_map (long_name prefix.now) (map suffix_view kinds.now)) }
{
    for kind in kinds {
        let text = SettingValue::Text(prefix.as_str());
        let beside = Some(side(Section::Global, "prefix", text));
        let holds = is_long(prefix, kind.suffix);
        add_where(list, holds, suffix_of(*kind), beside, Effect::LongNames)?;
    }
    Ok(())
}

/// A directory below the root path, if its path would be too long. `path` is what joining the two
/// gives.
fn directory<'a>(
    root: &'a Path,
    section: Section,
    entry: &'a Path,
    path: &Result<Path, SemanticStringError>,
) -> Candidate<'a>
    ensures { MakesJoined root.now entry.now path.now
        → candidate_view result ≡ long_directory root.now section entry.now }
{
    let entry = SettingValue::Text(entry.as_str());
    let root = SettingValue::Text(root.as_str());
    Candidate {
        holds: matches!(path, Err(_)),
        found: Contradiction {
            one: side(section, "directory", entry),
            other: Some(side(Section::Global, "root-path", root)),
            effect: Effect::LongPath,
        },
    }
}

/// The directories of services and of nodes.
fn directories(global: &GlobalSettings) -> [Candidate<'_>; 2]
    ensures { flat_map candidate_view result ≡ directory_contradictions global.now }
{
    let root = global.root_path();
    let services = global.service_dir();
    let nodes = global.node_dir();
    [
        directory(root, Section::Service, &global.service.directory, &services),
        directory(root, Section::Node, &global.node.directory, &nodes),
    ]
}

/// Whether a byte of a text is a control character.
fn has_control(text: &str) -> bool
    ensures { result ≡ has_control text.now }
{
    text.as_bytes().iter().any(|b| *b < 32 || *b == 127)
}

/// A path or a name that has a control character.
fn control<'a>(section: Section, key: &'static str, text: &'a str) -> Candidate<'a>
    ensures { candidate_view result ≡ control_text (section, key.now, text.now) }
{
    Candidate {
        holds: has_control(text),
        found: Contradiction {
            one: side(section, key, SettingValue::Text(text)),
            other: None,
            effect: Effect::ControlCharacter,
        },
    }
}

/// A path that has a control character.
fn path_control<'a>(section: Section, key: &'static str, path: &'a Path) -> Candidate<'a>
    ensures { candidate_view result ≡ control_text (section, key.now, path.now) }
{
    control(section, key, path.as_str())
}

/// A name that has a control character.
fn name_control<'a>(section: Section, key: &'static str, name: &'a FileName) -> Candidate<'a>
    ensures { candidate_view result ≡ control_text (section, key.now, name.now) }
{
    control(section, key, name.as_str())
}

/// The path and the name of a system.
fn global_controls(global: &GlobalSettings) -> [Candidate<'_>; 2]
    ensures { flat_map candidate_view result ≡ flat_map control_text (global_texts global.now) }
{
    let table = Section::Global;
    [
        path_control(table, "root-path", global.root_path()),
        name_control(table, "prefix", &global.prefix),
    ]
}

/// The path and the names of services' files.
fn service_controls(service: &Service) -> [Candidate<'_>; 8]
    ensures { flat_map candidate_view result ≡ flat_map control_text (service_texts service.now) }
{
    let table = Section::Service;
    [
        path_control(table, "directory", &service.directory),
        name_control(table, "data-segment-suffix", &service.data_segment_suffix),
        name_control(
            table,
            "static-config-storage-suffix",
            &service.static_config_storage_suffix,
        ),
        name_control(
            table,
            "dynamic-config-storage-suffix",
            &service.dynamic_config_storage_suffix,
        ),
        name_control(table, "connection-suffix", &service.connection_suffix),
        name_control(
            table,
            "event-connection-suffix",
            &service.event_connection_suffix,
        ),
        name_control(
            table,
            "blackboard-mgmt-suffix",
            &service.blackboard_mgmt_suffix,
        ),
        name_control(
            table,
            "blackboard-data-suffix",
            &service.blackboard_data_suffix,
        ),
    ]
}

/// The path and the names of nodes' files.
fn node_controls(node: &Node) -> [Candidate<'_>; 6]
    ensures { flat_map candidate_view result ≡ flat_map control_text (node_texts node.now) }
{
    let table = Section::Node;
    [
        path_control(table, "directory", &node.directory),
        name_control(table, "monitor-suffix", &node.monitor_suffix),
        name_control(table, "static-config-suffix", &node.static_config_suffix),
        name_control(table, "service-tag-suffix", &node.service_tag_suffix),
        name_control(table, "port-tag-suffix", &node.port_tag_suffix),
        name_control(table, "global-mgmt-suffix", &node.global_mgmt_suffix),
    ]
}

/// Adds each path and each name of a system that has a control character.
fn add_controls<'a>(
    list: &mut Vec<Contradiction<'a>>,
    global: &'a GlobalSettings,
) -> Result<(), AllocError>
    ensures { OnOk result (map contradiction_view list.new.items
        ≡ map contradiction_view list.old.items ++ control_contradictions global.now) }
{
    add_all(list, &global_controls(global))?;
    add_all(list, &service_controls(&global.service))?;
    add_all(list, &node_controls(&global.node))
}

/// Whether the history is larger than a subscriber's buffer, which may not overflow.
fn has_small_buffer(settings: &PublishSubscribe) -> bool
    ensures { result ≡ has_small_buffer settings.now }
{
    !settings.enable_safe_overflow
        && settings.subscriber_max_buffer_size < settings.publisher_history_size
}

/// A history that is larger than a subscriber's buffer, which may not overflow.
fn history<'a>(settings: &PublishSubscribe) -> Candidate<'a>
    ensures { candidate_view result ≡ history_contradictions settings.now }
{
    let history = SettingValue::Number(settings.publisher_history_size);
    let buffer = SettingValue::Number(settings.subscriber_max_buffer_size);
    let table = Section::PublishSubscribe;
    Candidate {
        holds: has_small_buffer(settings),
        found: Contradiction {
            one: side(table, "publisher-history-size", history),
            other: Some(side(table, "subscriber-max-buffer-size", buffer)),
            effect: Effect::SmallBuffer,
        },
    }
}

/// An event that is set and above the greatest one.
fn event<'a>(greatest: usize, key: &'static str, event: Option<usize>) -> Candidate<'a>
    ensures { candidate_view result ≡ unsent_event greatest (key.now, event) }
{
    let number = event.unwrap_or(0);
    let limit = SettingValue::Number(greatest);
    Candidate {
        holds: greatest < number,
        found: Contradiction {
            one: side(Section::Event, key, SettingValue::Number(number)),
            other: Some(side(Section::Event, "event-id-max-value", limit)),
            effect: Effect::UnsentEvent,
        },
    }
}

/// The events that report what happens to a notifier.
fn events<'a>(settings: &Event) -> [Candidate<'a>; 3]
    ensures { flat_map candidate_view result ≡ event_contradictions settings.now }
{
    let greatest = settings.event_id_max_value;
    [
        event(
            greatest,
            "notifier-created-event",
            settings.notifier_created_event,
        ),
        event(
            greatest,
            "notifier-dropped-event",
            settings.notifier_dropped_event,
        ),
        event(
            greatest,
            "notifier-dead-event",
            settings.notifier_dead_event,
        ),
    ]
}

/// Limits that are 0, each by a table, a key of it, and the value.
macro_rules! useless_limits {
    ($($section:ident, $key:literal, $value:expr;)*) => {
        [$(Candidate {
            holds: $value == 0,
            found: Contradiction {
                one: Side {
                    section: Section::$section,
                    key: $key,
                    value: SettingValue::Number($value),
                },
                other: None,
                effect: Effect::UselessLimit,
            },
        }),*]
    };
}

/// The limits that must not be 0.
fn limits<'a>(settings: &Defaults) -> [Candidate<'a>; 16]
    ensures { flat_map candidate_view result ≡ flat_map useless_limit (limits_of settings.now) }
{
    let samples = &settings.publish_subscribe;
    let event = &settings.event;
    let request = &settings.request_response;
    let board = &settings.blackboard;
    useless_limits!(
        PublishSubscribe, "max-subscribers", samples.max_subscribers;
        PublishSubscribe, "max-publishers", samples.max_publishers;
        PublishSubscribe, "max-nodes", samples.max_nodes;
        PublishSubscribe, "subscriber-max-buffer-size", samples.subscriber_max_buffer_size;
        PublishSubscribe, "subscriber-max-borrowed-samples",
            samples.subscriber_max_borrowed_samples;
        PublishSubscribe, "publisher-max-loaned-samples", samples.publisher_max_loaned_samples;
        Event, "max-listeners", event.max_listeners;
        Event, "max-notifiers", event.max_notifiers;
        Event, "max-nodes", event.max_nodes;
        RequestResponse, "max-active-requests-per-client", request.max_active_requests_per_client;
        RequestResponse, "max-servers", request.max_servers;
        RequestResponse, "max-clients", request.max_clients;
        RequestResponse, "max-nodes", request.max_nodes;
        RequestResponse, "max-loaned-requests", request.max_loaned_requests;
        Blackboard, "max-readers", board.max_readers;
        Blackboard, "max-nodes", board.max_nodes;
    )
}

/// Adds each of some candidates that is a contradiction.
fn add_all<'a>(
    list: &mut Vec<Contradiction<'a>>,
    candidates: &[Candidate<'a>],
) -> Result<(), AllocError>
    ensures { OnOk result (map contradiction_view list.new.items
        ≡ map contradiction_view list.old.items ++ flat_map candidate_view candidates.now) }
{
    for candidate in candidates {
        let Contradiction { one, other, effect } = candidate.found;
        add_where(list, candidate.holds, one, other, effect)?;
    }
    Ok(())
}

/// Adds all settings of a system that contradict each other.
fn add_global<'a>(
    list: &mut Vec<Contradiction<'a>>,
    global: &'a GlobalSettings,
) -> Result<(), AllocError>
    ensures { OnOk result (map contradiction_view list.new.items
        ≡ map contradiction_view list.old.items ++ global_contradictions global.now) }
{
    let kinds = suffixes(&global.service);
    add_root(list, global)?;
    add_suffixes(list, &kinds)?;
    add_names(list, &global.prefix, &kinds)?;
    add_all(list, &directories(global))?;
    add_controls(list, global)
}

/// Adds all settings of services that contradict each other.
fn add_defaults<'a>(
    list: &mut Vec<Contradiction<'a>>,
    defaults: &Defaults,
) -> Result<(), AllocError>
    ensures { OnOk result (map contradiction_view list.new.items
        ≡ map contradiction_view list.old.items ++ default_contradictions defaults.now) }
{
    add_all(list, &[history(&defaults.publish_subscribe)])?;
    add_all(list, &events(&defaults.event))?;
    add_all(list, &limits(defaults))
}

/// All settings that contradict each other, if there are settings.
pub(crate) fn contradictions_in<'a>(
    alloc: Global,
    config: Option<&'a Config>,
) -> Result<Vec<Contradiction<'a>>, AllocError>
    ensures { IfOk result (λ found. map contradiction_view found.items
        ≡ contradictions_in (option_copied config.entry)) }
{
    let mut list = Vec::new(alloc);
    if let Some(config) = config {
        add_global(&mut list, &config.global)?;
        add_defaults(&mut list, &config.defaults)?;
    }
    Ok(list)
}

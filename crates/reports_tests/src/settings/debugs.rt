//! What `Debug` prints of settings and of what is wrong with them: each variant by name, each field
//! by name and value.
use config_report::{FileConfig, Finding, Findings, Position, ReportError, Severity};
use iox2_config::config::{AllocationStrategy, BackpressureStrategy, Config};
use iox2_config_file::{
    ConfigFileError, ConfigWriteError, Fault, FileContents, Kind, Likeness, Misfit, NameFault,
    Proposal, Row, Section, SettingFault, SettingValue, TomlType, UnknownKey,
};
use iox2_texts::bounded::SemanticStringError;
use std::alloc::{AllocError, Global};
use std::process::Abort;
use std::test::Fail;
use std::time::Duration;
use test_support::printing::{are_shown_as, is_shown_as};

static TABLES: [(Section, &str); 9] = [
    (Section::Root, "Root"),
    (Section::Global, "Global"),
    (Section::Service, "Service"),
    (Section::Node, "Node"),
    (Section::Defaults, "Defaults"),
    (Section::PublishSubscribe, "PublishSubscribe"),
    (Section::Event, "Event"),
    (Section::RequestResponse, "RequestResponse"),
    (Section::Blackboard, "Blackboard"),
];

static KINDS: [(Kind, &str); 8] = [
    (Kind::Table, "Table"),
    (Kind::Number, "Number"),
    (Kind::Flag, "Flag"),
    (Kind::Path, "Path"),
    (Kind::FileName, "FileName"),
    (Kind::Backpressure, "Backpressure"),
    (Kind::Allocation, "Allocation"),
    (Kind::Duration, "Duration"),
];

static LIKENESSES: [(Likeness, &str); 4] = [
    (Likeness::Spelling, "Spelling"),
    (Likeness::OtherTable, "OtherTable"),
    (Likeness::Quoted, "Quoted"),
    (Likeness::Near, "Near"),
];

static SEVERITIES: [(Severity, &str); 2] = [
    (Severity::Error, "Error"),
    (Severity::Warning, "Warning"),
];

static TYPES: [(TomlType, &str); 7] = [
    (TomlType::String, "String"),
    (TomlType::Integer, "Integer"),
    (TomlType::Float, "Float"),
    (TomlType::Boolean, "Boolean"),
    (TomlType::Datetime, "Datetime"),
    (TomlType::Array, "Array"),
    (TomlType::Table, "Table"),
];

static FAULTS: [(Fault, &str); 7] = [
    (
        Fault::WrongType {
            found: TomlType::Float,
            wanted: Kind::Number,
        },
        "WrongType { found: Float, wanted: Number }",
    ),
    (Fault::OutOfRange, "OutOfRange"),
    (
        Fault::NoPath(SemanticStringError::ExceedsMaximumLength),
        "NoPath(ExceedsMaximumLength)",
    ),
    (Fault::NoFileName(NameFault::Dots), "NoFileName(Dots)"),
    (
        Fault::UnknownVariant(Kind::Backpressure),
        "UnknownVariant(Backpressure)",
    ),
    (Fault::NoDuration, "NoDuration"),
    (Fault::NanosTooLarge, "NanosTooLarge"),
];

static VALUES: [(SettingValue<'static>, &str); 6] = [
    (SettingValue::Number(7), "Number(7)"),
    (SettingValue::Flag(true), "Flag(true)"),
    (SettingValue::Text("a\"b"), "Text(\"a\\\"b\")"),
    (
        SettingValue::Backpressure(BackpressureStrategy::DiscardData),
        "Backpressure(DiscardData)",
    ),
    (
        SettingValue::Allocation(AllocationStrategy::PowerOfTwo),
        "Allocation(PowerOfTwo)",
    ),
    (SettingValue::Absent, "Absent"),
];

#[test]
fn tables_kinds_faults_and_values_are_shown_by_name(rt: HostRuntime) {
    assert_eq!(rt;
        [
            are_shown_as(&TABLES),
            are_shown_as(&KINDS),
            are_shown_as(&TYPES),
            are_shown_as(&FAULTS),
            are_shown_as(&VALUES),
            are_shown_as(&LIKENESSES),
            are_shown_as(&SEVERITIES),
            is_shown_as(
                &SettingValue::Duration(Duration::from_millis(9)),
                "Duration(9ms)",
            ),
        ],
        [true; 8]
    );
}

#[test]
fn errors_are_shown_by_field(rt: HostRuntime) {
    let misfit = Misfit {
        section: Section::Event,
        key: "max-nodes",
    };
    let fault = SettingFault {
        section: Section::Global,
        key: "prefix",
        fault: Fault::OutOfRange,
    };
    assert_eq!(rt;
        [
            is_shown_as(&misfit, "Misfit { section: Event, key: \"max-nodes\" }"),
            is_shown_as(
                &ConfigWriteError::OutOfRange(misfit),
                "OutOfRange(Misfit { section: Event, key: \"max-nodes\" })",
            ),
            is_shown_as(&ConfigWriteError::NoMemory, "NoMemory"),
            is_shown_as(
                &fault,
                "SettingFault { section: Global, key: \"prefix\", fault: OutOfRange }",
            ),
            is_shown_as(
                &ConfigFileError::NoMemory(AllocError),
                "NoMemory(AllocError)"
            ),
        ],
        [true; 5]
    );
}

#[test]
fn rows_and_settings_are_shown_by_field(rt: HostRuntime) {
    let row = Row {
        key: "a",
        kind: Kind::Path,
        about: "b",
    };
    assert!(rt; is_shown_as(&row, "Row { key: \"a\", kind: Path, about: \"b\" }"));
    let unknown = UnknownKey {
        section: Section::Node,
        key: String::from_str(rt.alloc(), "a").expect(&rt, "memory for a text"),
        meant: Some(Proposal {
            section: Section::Event,
            key: "b",
            likeness: Likeness::Near,
        }),
    };
    let key = "UnknownKey { section: Node, key: \"a\", meant: Some(Proposal { section: Event, \
               key: \"b\", likeness: Near }) }";
    assert!(rt; is_shown_as(&unknown, key));
}

/// A text of one letter.
fn letter(alloc: Global, text: &str) -> Result<String, Fail> {
    Ok(String::from_str(alloc, text)?)
}

#[test]
fn reports_are_shown_by_field(rt: HostRuntime) -> Result<(), Fail> {
    let file = FileConfig {
        config: Config::default(),
        warnings: letter(rt.alloc(), "c")?,
    };
    let config = Config::default();
    let shown = format!(in rt.alloc(); "FileConfig {{ config: {config:?}, warnings: \"c\" }}")?;
    let refused = ReportError::Refused(letter(rt.alloc(), "d")?);
    assert_eq!(rt;
        [
            is_shown_as(&file, shown.as_str()),
            is_shown_as(&refused, "Refused(\"d\")"),
            is_shown_as(&ReportError::NoMemory, "NoMemory"),
        ],
        [true; 3]
    );
    Ok(())
}

#[test]
fn contents_are_shown_by_field(rt: HostRuntime) {
    let contents = FileContents {
        config: Some(Config::default()),
        faults: Vec::new(rt.alloc()),
        unknown: Vec::new(rt.alloc()),
    };
    let config = Config::default();
    let shown = format!(in rt.alloc();
        "FileContents {{ config: Some({config:?}), faults: [], unknown: [] }}"
    ).expect(&rt, "memory for a text");
    assert!(rt; is_shown_as(&contents, shown.as_str()));
}

#[test]
fn findings_are_shown_by_field(rt: HostRuntime) -> Result<(), Fail> {
    let finding = Finding {
        position: Some(Position { line: 1, column: 2 }),
        severity: Severity::Warning,
        key: Some(letter(rt.alloc(), "a")?),
        message: letter(rt.alloc(), "b")?,
    };
    let shown = "Finding { position: Some(Position { line: 1, column: 2 }), severity: Warning, \
                 key: Some(\"a\"), message: \"b\" }";
    assert!(rt; is_shown_as(&finding, shown));
    let mut found = Findings {
        config: None,
        list: Vec::new(rt.alloc()),
    };
    found.list.push(finding).expect(&rt, "memory for a finding");
    let shown = format!(in rt.alloc(); "Findings {{ config: None, list: [{shown}] }}")?;
    assert!(rt; is_shown_as(&found, shown.as_str()));
    Ok(())
}

//! A service as text.
ghost use Rattle.std.specs.Prelude.{◌++◌, ◌≡◌, ℕ, ◌+◌, ◌*◌, ◌<◌, ◌≤◌, min};
ghost use Rattle.iox2_texts.specs.Name.{IsAllowed, MakesLegal};
ghost use Rattle.iox2_texts.specs.Path.{IsPlain};
ghost use Rattle.service_drawing.specs.Layout.{IsWhole};

use crate::description::{Description, Exchange, Message, Segment, segments};
use crate::layout::{MessageLayout, Part};
use crate::sentences::{Counted, Row, rows, write_memory};
use crate::settings::row;
use arrayvec::ArrayVec;
use iox2_config::config::Config;
use iox2_config::hash::ServiceHash;
use iox2_config::types::TypeDetail;
use iox2_texts::attribute::Attribute;
use iox2_texts::bounded::SemanticStringError;
use iox2_texts::paths::{FileName, FilePath};
use std::alloc::AllocError;
use std::ops::Range;

/// The name of the file of a service: the prefix, the hash text and the suffix. Refused where it
/// has more than 255 bytes.
pub(crate) fn file_name(
    prefix: &FileName,
    hash: &ServiceHash,
    suffix: &FileName,
) -> Result<FileName, SemanticStringError>
    ensures { MakesLegal (IsAllowed IsPlain 255) 255 (prefix.now ++ hash.now ++ suffix.now) result }
{
    let mut name: ArrayVec<u8, 574> = ArrayVec::new();
    // Never refused: 574 bytes are room for all three.
    let _fits = name.try_extend_from_slice(prefix.as_bytes());
    let _fits = name.try_extend_from_slice(hash.as_str().as_bytes());
    let _fits = name.try_extend_from_slice(suffix.as_bytes());
    FileName::new(name.as_slice())
}

/// Appends all that is described of a service.
pub(crate) fn write_text(out: &mut String, service: &Description) -> Result<(), AllocError> {
    writeln!(out, "service    {}", service.name.as_str())?;
    writeln!(out, "pattern    {}", service.kind.word())?;
    writeln!(out, "hash text  {}", service.hash.as_str())?;
    write_files(out, service)?;
    write_settings(out, service)?;
    write_exchange(out, service)?;
    write_attributes(out, service)
}

/// Appends the names of the service's files.
fn write_files(out: &mut String, service: &Description) -> Result<(), AllocError> {
    let global = &service.config.global;
    let names = &global.service;
    writeln!(
        out,
        "\nfiles, with * for what the configuration does not fix"
    )?;
    let name_with = |suffix| file_name(&global.prefix, &service.hash, suffix);
    write!(out, "  static configuration   ")?;
    let name = name_with(&names.static_config_storage_suffix);
    let path = match (global.service_dir(), name) {
        (Ok(directory), Ok(name)) => FilePath::from_path_and_file(&directory, &name).ok(),
        _ => None,
    };
    match path {
        Some(path) => writeln!(out, "{}", path.as_str())?,
        None => writeln!(out, "none: its path would have more than 255 bytes")?,
    }
    write!(out, "  dynamic configuration  ")?;
    match name_with(&names.dynamic_config_storage_suffix) {
        Ok(name) => writeln!(out, "{}", name.as_str())?,
        Err(_) => writeln!(out, "none: its name would have more than 255 bytes")?,
    }
    write_port_files(out, service)
}

/// Appends the names of the files of the service's ports.
fn write_port_files(out: &mut String, service: &Description) -> Result<(), AllocError> {
    let prefix = &service.config.global.prefix;
    let names = &service.config.global.service;
    let files = match service.exchange {
        Exchange::PublishSubscribe(_) | Exchange::RequestResponse(..) => [
            Some(("data segments          ", &names.data_segment_suffix)),
            Some(("connections            ", &names.connection_suffix)),
        ],
        Exchange::Event => [
            Some(("connections            ", &names.event_connection_suffix)),
            None,
        ],
        Exchange::Blackboard(_) => [
            Some(("management segment     ", &names.blackboard_mgmt_suffix)),
            Some(("data segment           ", &names.blackboard_data_suffix)),
        ],
    };
    for file in files {
        if let Some((what, suffix)) = file {
            writeln!(out, "  {what}{prefix}*{suffix}")?;
        }
    }
    Ok(())
}

/// Appends the settings of the service's pattern, each beside its default where it differs from
/// that.
fn write_settings(out: &mut String, service: &Description) -> Result<(), AllocError> {
    writeln!(
        out,
        "\nsettings, with ! where they differ from the defaults"
    )?;
    let usual = Config::default().defaults;
    for index in 0..32 {
        let (Some((name, value)), Some((_, default))) = (
            row(&service.config.defaults, service.kind, index),
            row(&usual, service.kind, index),
        ) else {
            return Ok(());
        };
        if value == default {
            writeln!(out, "  {name:<44} {value}")?;
        } else {
            writeln!(out, "! {name:<44} {value}, by default {default}")?;
        }
    }
    Ok(())
}

/// Appends the messages of the service, and the memory of its ports.
fn write_exchange(out: &mut String, service: &Description) -> Result<(), AllocError> {
    for segment in segments(service) {
        if let Some(segment) = segment {
            write_message(out, segment)?;
        }
    }
    match &service.exchange {
        Exchange::Event => writeln!(out, "\nno messages"),
        Exchange::Blackboard(key) => writeln!(
            out,
            "\nno messages, but values whose keys are of the type {}, {}, alignment {}",
            key.type_name(),
            Counted(key.size(), "byte"),
            key.alignment()
        ),
        _ => Ok(()),
    }
}

/// Appends the attributes of the service, those that an opener requires, and whether it gets them.
fn write_attributes(out: &mut String, service: &Description) -> Result<(), AllocError> {
    writeln!(out, "\nattributes")?;
    write_pairs(out, service.attributes.as_slice())?;
    writeln!(out, "\nrequired by an opener")?;
    write_pairs(out, service.required.required_attributes().as_slice())?;
    for key in service.required.required_keys() {
        writeln!(out, "  {key}")?;
    }
    match service.required.verify_requirements(&service.attributes) {
        Ok(()) => writeln!(out, "  verified"),
        Err(fault) => writeln!(out, "  refused: {fault}"),
    }
}

/// Appends a line for each attribute.
fn write_pairs(out: &mut String, attributes: &[Attribute]) -> Result<(), AllocError> {
    for attribute in attributes {
        writeln!(out, "  {} = {}", attribute.key(), attribute.value())?;
    }
    Ok(())
}

/// The greatest number of characters of a bar.
const WIDTH: usize = 64;

/// How many elements are listed one by one.
const LISTED: usize = 4;

/// Appends the layout of a message, and the memory of a port that sends it.
pub(super) fn write_message(out: &mut String, segment: Segment<'_>) -> Result<(), AllocError> {
    let title = segment.title;
    let message = segment.message;
    let Some(layout) = MessageLayout::of(&message.details, message.elements) else {
        return writeln!(
            out,
            "\n{title}: no layout, since it would pass 9223372036854775807 bytes"
        );
    };
    let size = Counted(layout.size, "byte");
    let alignment = message.details.header.alignment();
    writeln!(out, "\n{title}: {size}, alignment {alignment}\n")?;
    write_bar(out, &layout)?;
    write_table(out, message, &layout)?;
    if let Some(sentence) = segment.opener {
        writeln!(out, "  {sentence}")?;
    }
    write!(out, "  ")?;
    write_memory(out, segment, &layout)?;
    writeln!(out)
}

/// The character for what lies at a byte.
fn letter(part: Part) -> char {
    match part {
        Part::Header => 'H',
        Part::UserHeader => 'U',
        Part::Element(i) => (b'0' + (i % 10) as u8) as char,
        Part::Gap => '.',
        Part::Spare => '-',
    }
}

/// How many bytes a character of a bar stands for:
/// the fewest, from one on, with which the bar fits.
fn scale(size: usize) -> usize
    ensures positive { 0 < result }
    ensures fits { size ≤ result * WIDTH }
    ensures least { (other : ℕ) → 0 < other → size ≤ other * WIDTH → result ≤ other }
{
    size.div_ceil(WIDTH).max(1)
}

/// Appends a drawing to scale: each character is what lies at the first of as many bytes.
fn write_bar(out: &mut String, layout: &MessageLayout) -> Result<(), AllocError>
    requires { IsWhole layout.now }
{
    let scale = scale(layout.size);
    write!(out, "  ")?;
    for offset in (0..layout.size).step_by(scale) {
        out.push(letter(layout.part_at(offset)))?;
    }
    match scale {
        1 => writeln!(out, "\n  a character for each byte\n"),
        _ => writeln!(
            out,
            "\n  a character for each {scale} bytes, which shows what lies at the first\n"
        ),
    }
}

/// Appends the columns of numbers of a row: where it lies, and the alignments of types.
fn write_columns(
    out: &mut String,
    span: &Range<usize>,
    types: [Option<&TypeDetail>; 2],
) -> Result<(), AllocError> {
    let offset = span.start;
    let size = span.len();
    write!(out, "{offset:>10} {size:>10}")?;
    for detail in types {
        match detail {
            Some(detail) => write!(out, " {:>10}", detail.alignment())?,
            None => write!(out, "           ")?,
        }
    }
    Ok(())
}

/// Appends a row for each part of a message, for the padding between them and for the first
/// elements of the payload.
fn write_table(
    out: &mut String,
    message: &Message,
    layout: &MessageLayout,
) -> Result<(), AllocError>
    requires { IsWhole layout.now }
{
    let opener = if message.opener.is_some() {
        "opener's"
    } else {
        ""
    };
    writeln!(out, "    offset       size  alignment {opener:>10}  part")?;
    for row in rows(message, layout) {
        if row.is_shown() {
            write_row(out, row, layout)?;
        }
    }
    writeln!(out, "{:>10} {:>32}    end", layout.size, "")
}

/// Appends the row of a part or of padding, and below that of the payload its first elements.
fn write_row(out: &mut String, row: Row<'_>, layout: &MessageLayout) -> Result<(), AllocError>
    requires { IsWhole layout.now }
{
    let Some((detail, opener)) = row.types else {
        write_columns(out, row.span, [None; 2])?;
        return writeln!(out, "  {} {}", row.letter, row.name);
    };
    write_columns(out, row.span, [Some(detail), opener])?;
    let name = row.name;
    let type_name = detail.type_name();
    if !row.letter.is_empty() {
        return writeln!(out, "  {} {name} {type_name}", row.letter);
    }
    writeln!(out, "    {name} {} of {type_name}", layout.elements)?;
    write_elements(out, layout)
}

/// How many elements follow those that are listed.
fn others(elements: usize) -> usize
    ensures { min elements LISTED + result ≡ elements }
{
    elements.saturating_sub(LISTED)
}

/// Appends a row for each of the first elements, and one that says how many others there are.
fn write_elements(out: &mut String, layout: &MessageLayout) -> Result<(), AllocError>
    requires { IsWhole layout.now }
{
    for i in 0..layout.elements.min(LISTED) {
        write_columns(out, &layout.element(i), [None; 2])?;
        writeln!(out, "  {i}   element {i}")?;
    }
    match others(layout.elements) {
        0 => Ok(()),
        others => writeln!(out, "{:>43}      and {others} more", ""),
    }
}

//! A service as a picture.
ghost use Rattle.std.specs.Prelude.{◌≡◌, ◌++◌, IfOk, OnOk, string_bytes};
ghost use Rattle.service_drawing.specs.Svg.{IsPicture, description_text, exchange_end, exchange_text, heading_text, key_line, keyed_end, keyed_text, keys_text, open_text, page_text, said_of, segment_end, segment_text, sheet_end, sheet_text, title_text};

mod bar;
pub(crate) mod lines;
mod message;

use crate::description::{Description, Exchange, Segment, segments};
use crate::sentences::Counted;
use iox2_config::types::TypeDetail;
use lines::{Escaped, NAME, NOTE, below, write_lines};
use message::{write_message, write_summary};
use std::alloc::{AllocError, Global};

/// The colors, also for those who read light on dark.
pub(crate) const STYLE: &str = "<style>
.page { fill: #ffffff }
.ink { fill: #222222 }
.label { fill: #222222 }
.part { stroke: #222222; stroke-width: 8 }
.header { fill: #4e79a7 }
.user-header { fill: #f28e2b }
.payload { fill: #8cd17d }
.other { fill: #59a14f }
.empty { fill: #dddddd }
@media (prefers-color-scheme: dark) {
.page { fill: #1b1b1b }
.ink { fill: #eeeeee }
.part { stroke: #eeeeee }
.empty { fill: #555555 }
}
</style>
";

/// An SVG document that shows the messages of a service. Lengths are tenths of a pixel.
#[tactic(auto, unfolding(crate::specs::Svg::svg_text))]
pub(crate) fn picture_of(alloc: Global, service: &Description) -> Result<String, AllocError>
    ensures { IfOk result (λ text. IsPicture service.now (string_bytes text)) }
{
    let segments = segments(service);
    let mut sheet = String::new(alloc);
    let end = write_sheet(alloc, &mut sheet, service, segments)?;
    // There is a margin below the last line.
    let height = below(end, 100);
    let mut out = String::new(alloc);
    write_open(&mut out, height)?;
    write_title(
        &mut out,
        service.name.as_str().as_bytes(),
        service.kind.word(),
    )?;
    write_description(&mut out, &service.exchange)?;
    write_page(&mut out, height)?;
    out.push_str(sheet.as_str())?;
    out.push_str("</svg>\n")?;
    Ok(out)
}

/// Appends the colors, and the page.
#[tactic(auto, unfolding(crate::specs::Svg::page_text))]
fn write_page(out: &mut String, height: usize) -> Result<(), AllocError>
    ensures { OnOk result (string_bytes out.new ≡ string_bytes out.old ++ page_text height) }
{
    writeln!(
        out,
        "{STYLE}<rect class=\"page\" width=\"7600\" height=\"{height}\"/>"
    )
}

/// Appends the begin of a document of this height.
#[tactic(auto, unfolding(crate::specs::Svg::open_text))]
fn write_open(out: &mut String, height: usize) -> Result<(), AllocError>
    ensures { OnOk result (string_bytes out.new ≡ string_bytes out.old ++ open_text height) }
{
    writeln!(
        out,
        "<svg xmlns=\"http://www.w3.org/2000/svg\" viewBox=\"0 0 7600 {height}\" width=\"760\" role=\"img\" aria-labelledby=\"title description\" font-family=\"sans-serif\" font-size=\"130\" class=\"ink\">"
    )
}

/// Appends the title: the name of the service and its pattern.
#[tactic(auto, unfolding(crate::specs::Svg::title_text))]
fn write_title(out: &mut String, name: &[u8], pattern: &str) -> Result<(), AllocError>
    ensures { OnOk result (string_bytes out.new
        ≡ string_bytes out.old ++ title_text name.now pattern.now) }
{
    let name = Escaped(name);
    writeln!(out, "<title id=\"title\">{name} ({pattern})</title>")
}

/// Appends what the picture shows, for those who have it read to them.
#[tactic(auto, unfolding(crate::specs::Svg::description_text))]
fn write_description(out: &mut String, exchange: &Exchange) -> Result<(), AllocError>
    ensures { OnOk result (string_bytes out.new
        ≡ string_bytes out.old ++ description_text exchange.now) }
{
    out.push_str("<desc id=\"description\">")?;
    write_said(out, exchange)?;
    out.push_str("</desc>\n")
}

/// Appends where the parts of each message lie, or that there are none.
#[tactic(auto, unfolding(crate::specs::Svg::said_of))]
fn write_said(out: &mut String, exchange: &Exchange) -> Result<(), AllocError>
    ensures { OnOk result (string_bytes out.new
        ≡ string_bytes out.old ++ said_of exchange.now) }
{
    match exchange {
        Exchange::PublishSubscribe(message) => write_summary(out, "message", message),
        Exchange::RequestResponse(request, response) => {
            write_summary(out, "request", request)?;
            out.push_str(" ")?;
            write_summary(out, "response", response)
        }
        Exchange::Event => out.push_str("No messages."),
        Exchange::Blackboard(key) => write_keys(out, key.size()),
    }
}

/// Appends that there are values with keys of this size.
#[tactic(auto, unfolding(crate::specs::Svg::keys_text))]
fn write_keys(out: &mut String, size: usize) -> Result<(), AllocError>
    ensures { OnOk result (string_bytes out.new ≡ string_bytes out.old ++ keys_text size) }
{
    let size = Counted(size, "byte");
    write!(out, "No messages, but values with keys of {size}.")
}

/// Draws the name of a service, and below it its messages or the type of its keys. Returns where
/// the next line begins.
#[tactic(auto, unfolding(crate::specs::Svg::sheet_text, crate::specs::Svg::sheet_end))]
fn write_sheet(
    alloc: Global,
    out: &mut String,
    service: &Description,
    segments: [Option<Segment<'_>>; 2],
) -> Result<usize, AllocError>
    ensures drawn { OnOk result (string_bytes out.new
        ≡ string_bytes out.old ++ sheet_text service.now segments.entry) }
    ensures end { IfOk result (λ end. end ≡ sheet_end service.now segments.entry) }
{
    let heading = heading(alloc, service.name.as_str(), service.kind.word())?;
    // There is a margin above the first line.
    let top = write_lines(out, 150, NAME, heading.as_str())?;
    let [first, second] = segments;
    let top = write_segment(alloc, out, below(top, 120), first)?;
    let top = write_segment(alloc, out, top, second)?;
    write_exchange(alloc, out, top, &service.exchange)
}

/// The name of a service and its pattern.
#[tactic(auto, unfolding(crate::specs::Svg::heading_text))]
fn heading(alloc: Global, name: &str, pattern: &str) -> Result<String, AllocError>
    ensures { IfOk result (λ line. string_bytes line ≡ heading_text name.now pattern.now) }
{
    format!(in alloc; "{name} ({pattern})")
}

/// Draws a message, if there is one.
#[tactic(auto, unfolding(crate::specs::Svg::segment_text, crate::specs::Svg::segment_end))]
fn write_segment(
    alloc: Global,
    out: &mut String,
    top: usize,
    segment: Option<Segment<'_>>,
) -> Result<usize, AllocError>
    ensures drawn { OnOk result (string_bytes out.new
        ≡ string_bytes out.old ++ segment_text top segment.entry) }
    ensures end { IfOk result (λ end. end ≡ segment_end top segment.entry) }
{
    match segment {
        Some(segment) => write_message(alloc, out, top, segment),
        None => Ok(top),
    }
}

/// Draws that there are no messages, and the type of keys, if there are any.
#[tactic(auto, unfolding(crate::specs::Svg::exchange_text, crate::specs::Svg::exchange_end))]
fn write_exchange(
    alloc: Global,
    out: &mut String,
    top: usize,
    exchange: &Exchange,
) -> Result<usize, AllocError>
    ensures drawn { OnOk result (string_bytes out.new
        ≡ string_bytes out.old ++ exchange_text top exchange.now) }
    ensures end { IfOk result (λ end. end ≡ exchange_end top exchange.now) }
{
    match exchange {
        Exchange::Event => write_lines(out, top, NOTE, "no messages"),
        Exchange::Blackboard(key) => write_key(alloc, out, top, key),
        _ => Ok(top),
    }
}

/// Draws that there are no messages, and the type of keys.
#[tactic(auto, unfolding(crate::specs::Svg::keyed_text, crate::specs::Svg::keyed_end))]
fn write_key(
    alloc: Global,
    out: &mut String,
    top: usize,
    key: &TypeDetail,
) -> Result<usize, AllocError>
    ensures drawn { OnOk result (string_bytes out.new
        ≡ string_bytes out.old ++ keyed_text top key.now) }
    ensures end { IfOk result (λ end. end ≡ keyed_end top key.now) }
{
    let top = write_lines(
        out,
        top,
        NOTE,
        "no messages, but values with keys of this type:",
    )?;
    let line = key_line(alloc, key)?;
    write_lines(out, top, NOTE, line.as_str())
}

/// The size, the alignment and the name of the type of keys.
#[tactic(auto, unfolding(crate::specs::Svg::key_line))]
fn key_line(alloc: Global, key: &TypeDetail) -> Result<String, AllocError>
    ensures { IfOk result (λ line. string_bytes line ≡ key_line key.now) }
{
    let size = Counted(key.size(), "byte");
    let alignment = key.alignment();
    let name = key.type_name();
    format!(in alloc; "{size}, alignment {alignment}, {name}")
}

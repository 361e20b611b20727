//! Descriptions as lines.
ghost use Rattle.std.specs.Prelude.{MatchResult};
ghost use Rattle.service_drawing.specs.Descriptions.{HasDescription, StopsReading};
ghost use Rattle.service_drawing.specs.Lines.{IsFailure, exchange};
ghost use Rattle.service_drawing.specs.Descriptions.{IsReason};

mod attributes;
pub(crate) mod cause;
mod message;
mod service;
pub(crate) mod words;

use crate::description::{Description, Exchange};
use crate::settings::settings_before;
use attributes::{attributes_before, required_before};
pub(crate) use cause::Expected;
use iox2_config::config::Config;
use iox2_config::hash::PatternKind;
use message::{fixed_before, message_before};
use service::service_before;

/// The lines of what the ports exchange.
fn exchange_before(bytes: &[u8], kind: PatternKind) -> Result<(Exchange, &[u8]), Expected<'_>>
    ensures { MatchResult result
        (λ found. (exchange kind).Has found.0 found.1.now bytes.now)
        (IsFailure (exchange kind) bytes.now) }
{
    match kind {
        PatternKind::PublishSubscribe => {
            let (message, rest) = message_before(bytes, "")?;
            Ok((Exchange::PublishSubscribe(message), rest))
        }
        PatternKind::Event => Ok((Exchange::Event, bytes)),
        PatternKind::RequestResponse => {
            let (request, rest) = message_before(bytes, "request-")?;
            let (response, rest) = message_before(rest, "response-")?;
            Ok((Exchange::RequestResponse(request, response), rest))
        }
        PatternKind::Blackboard => {
            let (key, rest) = fixed_before(
                bytes,
                "",
                "key ",
                "key SIZE ALIGNMENT NAME: two numbers, the second a power of two, and 1 to 256 bytes",
            )?;
            Ok((Exchange::Blackboard(key), rest))
        }
    }
}

/// The service that the lines describe over a configuration, or what was expected instead of the
/// first bad one.
#[tactic(auto, using(crate::proofs::Descriptions::no_service_here, crate::proofs::Answered::handed_on, crate::proofs::SettingLines::no_service_reason, crate::proofs::Descriptions::no_more))]
pub(crate) fn read_description(bytes: &[u8], base: Config) -> Result<Description, Expected<'_>>
    ensures { MatchResult result (λ d. HasDescription base d bytes.now)
        (λ expected. StopsReading base expected.rest.now bytes.now
        × IsReason base expected.reason expected.rest.now bytes.now) }
{
    let (service, rest) = service_before(bytes)?;
    let mut config = base;
    let rest = settings_before(rest, service.kind, &mut config)?;
    let (exchange, rest) = exchange_before(rest, service.kind)?;
    let (attributes, rest) = attributes_before(rest)?;
    let (required, rest) = required_before(rest)?;
    if !rest.is_empty() {
        return Err(Expected::prefixed(
            rest,
            "",
            "the end, or a line that may follow the one before it",
        ));
    }
    Ok(Description {
        name: service.name,
        kind: service.kind,
        hash: service.hash,
        config,
        exchange,
        attributes,
        required,
    })
}

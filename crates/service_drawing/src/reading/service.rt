//! The first line.
ghost use Rattle.std.specs.Prelude.{◌≡◌, ◌∷◌, ◌++◌, ℕ, List, codes, nat_eq};
ghost use Rattle.std.specs.Prelude.{IfOk, IfErr, MatchOption, MatchResult};
ghost use Rattle.std.specs.List.{starts_with};
ghost use Rattle.iox2_config.specs.declared.hash.input.PatternKind.{PatternKind};
ghost use Rattle.iox2_config.specs.Hashing.{pattern_word};
ghost use Rattle.service_drawing.specs.Lines.{IsHashed, MayBeNamed, HasService, IsNoService};
ghost use Rattle.service_drawing.specs.Descriptions.{IsServiceReason};

use super::cause::{Expected, Reason};
use super::words::next_line;
use iox2_config::hash::{PatternKind, ServiceHash, Sha1Hasher};
use iox2_texts::service_name::{INTERNAL_SERVICE_PREFIX, ServiceName};
use line_streams::after_word;
use std::str;

/// The pattern that begins the line, and the name after it.
fn pattern_in(line: &[u8]) -> Option<(PatternKind, &[u8])>
    ensures { MatchOption result
        ((kind : PatternKind) (name : List ℕ) → ¬ (line.now ≡ pattern_word kind ++ 32 ∷ name))
        (λ found. line.now ≡ pattern_word found.0 ++ 32 ∷ found.1.now) }
{
    for kind in PatternKind::ALL {
        if let Some(rest) = after_word(line, kind.word().as_bytes())
            && let Some(name) = after_word(rest, b" ")
        {
            return Some((kind, name));
        }
    }
    None
}

/// Whether the name begins as those of internal services.
fn is_internal(name: &[u8]) -> bool
    ensures { result ≡ starts_with nat_eq name.now (codes "iox2://") }
{
    name.starts_with(INTERNAL_SERVICE_PREFIX.as_bytes())
}

/// What the first line says of a service.
#[derive(Drop)]
pub(super) struct Service {
    pub(super) kind: PatternKind,
    pub(super) name: ServiceName,
    pub(super) hash: ServiceHash,
}

/// The service of a line, or why it has none.
#[tactic(auto, using(crate::proofs::Words::of_the_line))]
fn service_in(line: &[u8]) -> Result<Service, Reason>
    ensures spelled { IfOk result (λ service.
        line.now ≡ pattern_word service.kind ++ 32 ∷ service.name) }
    ensures named { IfOk result (λ service. MayBeNamed service.kind service.name) }
    ensures none { IfErr result (λ reason. (kind : PatternKind) (name : List ℕ)
        → MayBeNamed kind name → ¬ (line.now ≡ pattern_word kind ++ 32 ∷ name)) }
    ensures hash { IfOk result IsHashed }
    ensures reason { IfErr result (λ reason. IsNoService line.now reason) }
{
    let Some((kind, name)) = pattern_in(line) else {
        return Err(Reason::OtherForm);
    };
    if is_internal(name) {
        return Err(Reason::InternalName);
    }
    let Ok(text) = str::from_utf8(name) else {
        return Err(Reason::OtherForm);
    };
    let Ok(name) = ServiceName::new(text) else {
        return Err(Reason::OtherForm);
    };
    match ServiceHash::new::<Sha1Hasher>(&name, kind) {
        Ok(hash) => Ok(Service { kind, name, hash }),
        Err(_) => Err(Reason::OtherForm),
    }
}

/// The line of a service.
#[tactic(auto, using(crate::proofs::SettingLines::no_line_reason, crate::proofs::SettingLines::service_reason))]
pub(super) fn service_before(bytes: &[u8]) -> Result<(Service, &[u8]), Expected<'_>>
    ensures spelled { MatchResult result
        (λ found. HasService found.0.kind found.0.name found.1.now bytes.now)
        (λ expected. (kind : PatternKind) (name rest : List ℕ)
        → ¬ HasService kind name rest bytes.now) }
    ensures hash { IfOk result (λ found. IsHashed found.0) }
    ensures rest { IfErr result (λ expected. expected.rest.now ≡ bytes.now) }
    ensures reason { IfErr result (λ expected. IsServiceReason expected.reason bytes.now) }
{
    let expected = Expected::prefixed(
        bytes,
        "",
        "PATTERN NAME: publish-subscribe, event, request-response or blackboard, and the name of a service, 1 to 255 bytes",
    );
    let Some((line, rest)) = next_line(bytes) else {
        return Err(expected);
    };
    match service_in(line) {
        Ok(service) => Ok((service, rest)),
        Err(reason) => Err(Expected { reason, ..expected }),
    }
}

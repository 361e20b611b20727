//! The lines of attributes.
ghost use Rattle.std.specs.Prelude.{◌≡◌, ℕ, List, MatchOption, MatchResult};
ghost use Rattle.iox2_texts.specs.Pair.{Pair};
ghost use Rattle.service_drawing.specs.Lines.{IsFailure, line_by_line};
ghost use Rattle.service_drawing.specs.Lines.{IsKey, GivesPair, HasAttributes};
ghost use Rattle.service_drawing.specs.Lines.{HasRequirements, RequiresMore, RequiresNoMore};

use super::cause::Expected;
use super::words::line_after;
use iox2_texts::attribute::{AttributeKey, AttributeSet, AttributeValue, AttributeVerifier};
use line_streams::{after_word, before_byte};

/// The key and the value of a text. The key has no space.
#[tactic(auto, using(crate::proofs::Attributes::found_pair))]
fn pair_in(text: &[u8]) -> Option<(AttributeKey, AttributeValue)>
    ensures { MatchOption result ((pair : Pair) → ¬ GivesPair pair text.now)
        (λ pair. GivesPair (record { key = pair.0; value = pair.1 }) text.now) }
{
    let (key, value) = before_byte(text, b' ')?;
    let Ok(key) = AttributeKey::new(key) else {
        return None;
    };
    match AttributeValue::new(value) {
        Ok(value) => Some((key, value)),
        Err(_) => None,
    }
}

/// The key of a text. It has no space.
#[tactic(auto, using(line_streams::proofs::Indices::has_one))]
fn key_in(text: &[u8]) -> Option<AttributeKey>
    ensures { MatchOption result ((key : List ℕ) → IsKey key → ¬ (text.now ≡ key))
        (λ key. IsKey key × (text.now ≡ key)) }
{
    if let Some(_) = before_byte(text, b' ') {
        return None;
    }
    match AttributeKey::new(text) {
        Ok(key) => Some(key),
        Err(_) => None,
    }
}

/// The lines of the attributes that the service has, at most 16.
pub(super) fn attributes_before(bytes: &[u8]) -> Result<(AttributeSet, &[u8]), Expected<'_>>
    ensures { MatchResult result (λ found. HasAttributes found.0 found.1.now bytes.now)
        (IsFailure (line_by_line HasAttributes) bytes.now) }
{
    let mut attributes = AttributeSet::new();
    let mut rest = bytes;
    while let Some((text, tail)) = line_after(rest, "", "attribute ") {
        let expected = Expected::prefixed(
            rest,
            "",
            "attribute KEY VALUE: 1 to 64 bytes without a space, and 1 to 256 bytes, at most 16 times",
        );
        let Some((key, value)) = pair_in(text) else {
            return Err(expected);
        };
        match attributes.add(&key, &value) {
            Ok(()) => rest = tail,
            Err(_) => return Err(expected),
        }
    }
    Ok((attributes, rest))
}

/// The lines of the attributes that an opener requires, at most 16.
#[tactic(auto, using(crate::proofs::Attributes::one_more_required))]
pub(super) fn required_before(bytes: &[u8]) -> Result<(AttributeVerifier, &[u8]), Expected<'_>>
    ensures { MatchResult result (λ found. HasRequirements found.0 found.1.now bytes.now)
        (IsFailure (line_by_line HasRequirements) bytes.now) }
{
    let mut required = AttributeVerifier::new();
    let mut rest = bytes;
    while let Some((text, tail)) = line_after(rest, "", "require") {
        let expected = Expected::prefixed(
            rest,
            "",
            "require KEY VALUE or require-key KEY: 1 to 64 bytes without a space, and 1 to 256 bytes, at most 16 times",
        );
        let Some(more) = requiring(required, text) else {
            return Err(expected);
        };
        required = more;
        rest = tail;
    }
    Ok((required, rest))
}

/// The verifier that requires also what a text has after `require`.
fn requiring(required: AttributeVerifier, text: &[u8]) -> Option<AttributeVerifier>
    ensures { MatchOption result (RequiresNoMore required text.now)
        (RequiresMore required text.now) }
{
    if let Some(text) = after_word(text, b" ") {
        let (key, value) = pair_in(text)?;
        match required.require(&key, &value) {
            Ok(more) => Some(more),
            Err(_) => None,
        }
    } else {
        let text = after_word(text, b"-key ")?;
        let key = key_in(text)?;
        match required.require_key(&key) {
            Ok(more) => Some(more),
            Err(_) => None,
        }
    }
}

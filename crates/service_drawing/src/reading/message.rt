//! The lines of a message.
ghost use Rattle.std.specs.Prelude.{◌≡◌, ◌∷◌, ◌++◌, ◌<◌, ◌^◌, ℕ, List, IsTrue, decimal};
ghost use Rattle.std.specs.Prelude.{IfSome, IfOk, MatchOption, MatchResult, option_map};
ghost use Rattle.std.specs.Int.{is_power_of_two};
ghost use Rattle.iox2_config.specs.TypeDetailParts.{TypeDetailParts};
ghost use Rattle.iox2_config.specs.declared.types.message_details.MessageTypeDetails.{
  MessageTypeDetails,
};
ghost use Rattle.service_drawing.specs.Lines.{type_text, payload_text, alignments_text};
ghost use Rattle.service_drawing.specs.Lines.{AreAlignments, IsDescribed, IsFailure};
ghost use Rattle.service_drawing.specs.Lines.{type_line, payload_line, elements_line, opener_line};
ghost use Rattle.service_drawing.specs.Lines.{aligned, message};

use super::cause::Expected;
use super::words::{ANY, line_after, number};
use crate::description::Message;
use iox2_config::types::{MessageTypeDetails, TypeDetail, TypeVariant};
use line_streams::{After, Phrase, Then, after_word};
use std::str;

/// Two numbers with a space after each, and what follows that.
fn numbers_in(text: &[u8]) -> Option<(usize, usize, &[u8])>
    ensures { MatchOption result
        ((m n : ℕ) (rest : List ℕ) → m < 2 ^ 64 → n < 2 ^ 64
        → ¬ (text.now ≡ decimal m ++ 32 ∷ (decimal n ++ 32 ∷ rest)))
        (λ found. text.now ≡ decimal found.0 ++ 32 ∷ (decimal found.1 ++ 32 ∷ found.2.now)) }
{
    let ((first, second), rest) = Then(ANY, After(b" ", ANY)).read(text)?;
    let rest = after_word(rest, b" ")?;
    Some((first as usize, second as usize, rest))
}

/// The type with the size, the alignment and the name of the text.
fn type_in(text: &[u8], variant: TypeVariant) -> Option<TypeDetail>
    ensures { MatchOption result
        ((t : TypeDetailParts) → t.variant ≡ variant → IsDescribed t → ¬ (text.now ≡ type_text t))
        (λ t. (t.variant ≡ variant) × IsDescribed t × (text.now ≡ type_text t)) }
{
    let (size, alignment, name) = numbers_in(text)?;
    if name.is_empty() {
        return None;
    }
    let Ok(type_name) = str::from_utf8(name) else {
        return None;
    };
    match TypeDetail::from_parts(variant, type_name, size, alignment) {
        Ok(detail) => Some(detail),
        Err(_) => None,
    }
}

/// The payload's type, with its variant before it.
fn payload_in(text: &[u8]) -> Option<TypeDetail>
    ensures { MatchOption result
        ((t : TypeDetailParts) → IsDescribed t → ¬ (text.now ≡ payload_text t))
        (λ t. IsDescribed t × (text.now ≡ payload_text t)) }
{
    if let Some(text) = after_word(text, b"fixed ") {
        type_in(text, TypeVariant::FixedSize)
    } else if let Some(text) = after_word(text, b"dynamic ") {
        type_in(text, TypeVariant::Dynamic)
    } else {
        None
    }
}

/// The same type with this alignment, which is refused where it is not a power of two.
fn aligned(detail: &TypeDetail, alignment: usize) -> Option<TypeDetail>
    ensures { MatchOption result (¬ IsTrue (is_power_of_two alignment))
        (λ other. (other ≡ record detail.now { alignment = alignment })
        × IsTrue (is_power_of_two alignment)) }
{
    let name = detail.type_name().as_str();
    TypeDetail::from_parts(detail.variant(), name, detail.size(), alignment).ok()
}

/// The details of an opener with these alignments for header, user header and payload.
fn opener_in(text: &[u8], service: &MessageTypeDetails) -> Option<MessageTypeDetails>
    ensures spelled { MatchOption result
        ((d : MessageTypeDetails) → AreAlignments d → ¬ (text.now ≡ alignments_text d))
        (λ opener. AreAlignments opener × (text.now ≡ alignments_text opener)) }
    ensures same { IfSome result (λ opener. opener ≡ aligned service.now opener) }
{
    let (header, user_header, payload) = numbers_in(text)?;
    let payload = number(payload)?;
    Some(MessageTypeDetails {
        header: aligned(&service.header, header)?,
        user_header: aligned(&service.user_header, user_header)?,
        payload: aligned(&service.payload, payload)?,
    })
}

/// The line of a type that has one value in each message.
pub(super) fn fixed_before<'a>(
    bytes: &'a [u8],
    prefix: &'static str,
    word: &'static str,
    form: &'static str,
) -> Result<(TypeDetail, &'a [u8]), Expected<'a>>
    ensures { MatchResult result
        (λ found. (type_line (prefix.now ++ word.now)).Has found.0 found.1.now bytes.now)
        (IsFailure (type_line (prefix.now ++ word.now)) bytes.now) }
{
    let expected = Expected::prefixed(bytes, prefix, form);
    let Some((text, rest)) = line_after(bytes, prefix, word) else {
        return Err(expected);
    };
    match type_in(text, TypeVariant::FixedSize) {
        Some(detail) => Ok((detail, rest)),
        None => Err(expected),
    }
}

/// The line of the payload's type.
fn payload_before<'a>(
    bytes: &'a [u8],
    prefix: &'static str,
) -> Result<(TypeDetail, &'a [u8]), Expected<'a>>
    ensures { MatchResult result
        (λ found. (payload_line prefix.now).Has found.0 found.1.now bytes.now)
        (IsFailure (payload_line prefix.now) bytes.now) }
{
    let expected = Expected::prefixed(
        bytes,
        prefix,
        "payload VARIANT SIZE ALIGNMENT NAME: fixed or dynamic, two numbers, the second a power of two, and 1 to 256 bytes",
    );
    let Some((text, rest)) = line_after(bytes, prefix, "payload ") else {
        return Err(expected);
    };
    match payload_in(text) {
        Some(detail) => Ok((detail, rest)),
        None => Err(expected),
    }
}

/// The line of the number of elements, which a dynamic payload has and a fixed one has not.
fn elements_before<'a>(
    bytes: &'a [u8],
    prefix: &'static str,
    variant: TypeVariant,
) -> Result<(usize, &'a [u8]), Expected<'a>>
    ensures { MatchResult result
        (λ found. (elements_line prefix.now variant).Has found.0 found.1.now bytes.now)
        (IsFailure (elements_line prefix.now variant) bytes.now) }
{
    let expected = Expected::prefixed(bytes, prefix, "elements NUMBER");
    match variant {
        TypeVariant::FixedSize => Ok((1, bytes)),
        TypeVariant::Dynamic => {
            let Some((text, rest)) = line_after(bytes, prefix, "elements ") else {
                return Err(expected);
            };
            match number(text) {
                Some(elements) => Ok((elements, rest)),
                None => Err(expected),
            }
        }
    }
}

/// The line of an opener's alignments, if it stands there.
#[tactic(auto, using(crate::proofs::Words::no_opener))]
fn opener_before<'a>(
    bytes: &'a [u8],
    prefix: &'static str,
    service: &MessageTypeDetails,
) -> Result<(Option<MessageTypeDetails>, &'a [u8]), Expected<'a>>
    ensures spelled { MatchResult result
        (λ found. (opener_line prefix.now).Has found.0 found.1.now bytes.now)
        (IsFailure (opener_line prefix.now) bytes.now) }
    ensures same { IfOk result (λ found. found.0 ≡ option_map (aligned service.now) found.0) }
{
    let Some((text, rest)) = line_after(bytes, prefix, "opener ") else {
        return Ok((None, bytes));
    };
    match opener_in(text, service) {
        Some(opener) => Ok((Some(opener), rest)),
        None => Err(Expected::prefixed(
            bytes,
            prefix,
            "opener HEADER USER-HEADER PAYLOAD: three alignments, each a power of two",
        )),
    }
}

/// The lines of a message, each of which begins with the prefix.
pub(super) fn message_before<'a>(
    bytes: &'a [u8],
    prefix: &'static str,
) -> Result<(Message, &'a [u8]), Expected<'a>>
    ensures { MatchResult result
        (λ found. (message prefix.now).Has found.0 found.1.now bytes.now)
        (IsFailure (message prefix.now) bytes.now) }
{
    let (header, rest) = fixed_before(
        bytes,
        prefix,
        "header ",
        "header SIZE ALIGNMENT NAME: two numbers, the second a power of two, and 1 to 256 bytes",
    )?;
    let (user_header, rest) = fixed_before(
        rest,
        prefix,
        "user-header ",
        "user-header SIZE ALIGNMENT NAME: two numbers, the second a power of two, and 1 to 256 bytes",
    )?;
    let (payload, rest) = payload_before(rest, prefix)?;
    let (elements, rest) = elements_before(rest, prefix, payload.variant())?;
    let details = MessageTypeDetails {
        header,
        user_header,
        payload,
    };
    let (opener, rest) = opener_before(rest, prefix, &details)?;
    Ok((
        Message {
            details,
            elements,
            opener,
        },
        rest,
    ))
}

//! The expressions of a text, headers, and pairs of a key and a value, of which only the end is
//! looked for.
ghost use Rattle.std.specs.Prelude.{◌≡◌, ℕ, ◌<◌, ◌≤◌, length};
ghost use Rattle.std.specs.Prelude.{IfOk, IfSome, option_map};
ghost use Rattle.toml_parser.specs.Lexical.{first, left_bracket};
ghost use Rattle.toml_parser.specs.Reading.{key_view};
ghost use Rattle.toml_parser.specs.Strings.{key};
ghost use Rattle.toml.specs.Parse as spec;
ghost use Rattle.toml_positions.specs.Reading.{Shortens, closing_of, element_value, head_view};
ghost use Rattle.toml_positions.specs.Reading.{past_atom, past_element, past_elements, past_value};
ghost use Rattle.toml_positions.specs.Reading.{seen_in, seen_view};
ghost use Rattle.toml_positions.specs.Written.{past_brackets};

use std::alloc::{AllocError, Global};
use toml_parser::text::{byte_at, first, skip, skip_blank, skip_ws};
use toml_parser::{Key, ParseError, RECURSION_LIMIT, dotted_key, quoted, starts_string, unquoted};

/// An expression without its value.
#[derive(Drop)]
pub(crate) struct Head {
    /// Its key.
    pub(crate) key: Key,
    /// Whether it is a pair, and no header.
    pub(crate) pair: bool,
}

/// The expression that a line begins with, a header or a pair, and what follows it.
pub(crate) fn read_expression(alloc: Global, s: &str) -> Result<Option<(Head, &str)>, AllocError>
    ensures value { IfOk result (λ o. option_map head_view o ≡ seen_in s.now) }
    ensures shorter { Shortens (λ p. p.1.now) s.now result }
{
    if first(s) == b'[' {
        return header(alloc, s);
    }
    let Some((key, at_value)) = key_equals(alloc, s)? else {
        return Ok(None);
    };
    let Some(rest) = after_value(alloc, at_value, RECURSION_LIMIT)? else {
        return Ok(None);
    };
    Ok(Some((Head { key, pair: true }, rest)))
}

/// A header, and what follows it.
#[tactic(auto, unfolding(toml::specs::Parse::expression, toml::specs::Parse::header_key))]
fn header(alloc: Global, s: &str) -> Result<Option<(Head, &str)>, AllocError>
    requires { first s.now ≡ left_bracket }
    ensures value { IfOk result (λ o.
        option_map head_view o ≡ option_map seen_view (spec.expression s.now)) }
    ensures shorter { Shortens (λ p. p.1.now) s.now result }
{
    let twice = byte_at(s, 1) == b'[';
    let Some((key, rest)) = read_key(alloc, past_brackets(s))? else {
        return Ok(None);
    };
    if first(rest) != b']' {
        return Ok(None);
    }
    let head = Head { key, pair: false };
    let rest = skip(rest, 1);
    if !twice {
        return Ok(Some((head, rest)));
    }
    if first(rest) != b']' {
        return Ok(None);
    }
    Ok(Some((head, skip(rest, 1))))
}

/// A line from the key of its expression on, past the brackets of a header.
pub(crate) fn past_brackets(s: &str) -> &str
    ensures start { result.now ≡ past_brackets s.now }
    ensures within { length result.now ≤ length s.now }
{
    if first(s) != b'[' {
        return s;
    }
    if byte_at(s, 1) == b'[' {
        return skip_ws(skip(s, 2));
    }
    skip_ws(skip(s, 1))
}

/// A key, and the white space after it.
fn read_key(alloc: Global, s: &str) -> Result<Option<(Key, &str)>, AllocError>
    ensures value { IfOk result (λ o. option_map (λ p. (key_view p.0, p.1.now)) o ≡ key s.now) }
    ensures shorter { Shortens (λ p. p.1.now) s.now result }
{
    match dotted_key(alloc, s) {
        Ok(read) => Ok(Some(read)),
        Err(ParseError::OutOfMemory) => Err(AllocError),
        Err(_) => Ok(None),
    }
}

/// A key, with what follows its `=` and the white space after that.
#[tactic(auto, unfolding(toml::specs::Parse::key_equals))]
fn key_equals(alloc: Global, s: &str) -> Result<Option<(Key, &str)>, AllocError>
    ensures value { IfOk result (λ o.
        option_map (λ p. (key_view p.0, p.1.now)) o ≡ spec.key_equals s.now) }
    ensures shorter { Shortens (λ p. p.1.now) s.now result }
{
    let Some((key, rest)) = read_key(alloc, s)? else {
        return Ok(None);
    };
    if first(rest) != b'=' {
        return Ok(None);
    }
    Ok(Some((key, skip_ws(skip(rest, 1)))))
}

/// What follows a string or a scalar.
#[tactic(auto, unfolding(toml::specs::Parse::atom))]
fn after_atom(alloc: Global, s: &str) -> Result<Option<&str>, AllocError>
    ensures value { IfOk result (λ o. option_map (λ r. r.now) o ≡ past_atom s.now) }
    ensures shorter { Shortens (λ r. r.now) s.now result }
{
    if starts_string(s) {
        return match quoted(alloc, s) {
            Ok((_text, rest)) => Ok(Some(rest)),
            Err(ParseError::OutOfMemory) => Err(AllocError),
            Err(_) => Ok(None),
        };
    }
    match unquoted(alloc, s) {
        Ok((_scalar, rest)) => Ok(Some(rest)),
        Err(ParseError::OutOfMemory) => Err(AllocError),
        Err(_) => Ok(None),
    }
}

/// What closes an array or an inline table that the byte opens.
fn closing_of(byte: u8) -> Option<u8>
    ensures value { result ≡ closing_of byte }
    ensures opens { IfSome result (λ closing.
        (0 < byte) × (byte < 128) × (0 < closing) × (closing < 128)) }
{
    match byte {
        b'[' => Some(b']'),
        b'{' => Some(b'}'),
        _ => None,
    }
}

/// What follows a value with arrays and inline tables at most `depth` deep.
#[cycle(value)]
#[tactic(auto, using(crate::proofs::Passed::value_plain, crate::proofs::Passed::value_deep, crate::proofs::Passed::value_open))]
fn after_value(alloc: Global, s: &str, depth: usize) -> Result<Option<&str>, AllocError>
    ensures value { IfOk result (λ o. option_map (λ r. r.now) o ≡ past_value depth s.now) }
    ensures shorter { Shortens (λ r. r.now) s.now result }
{
    let Some(closing) = closing_of(first(s)) else {
        return after_atom(alloc, s);
    };
    if depth == 0 {
        return Ok(None);
    }
    after_elements(alloc, skip(s, 1), depth - 1, closing)
}

/// What follows the elements of an array or of an inline table, and its closing bracket.
#[cycle(value)]
fn after_elements(
    alloc: Global,
    s: &str,
    depth: usize,
    closing: u8,
) -> Result<Option<&str>, AllocError>
    requires { (0 < closing) × (closing < 128) }
    ensures value { (n : ℕ) → length s.now < n → IfOk result (λ o.
        option_map (λ r. r.now) o ≡ past_elements (past_value depth) closing n s.now) }
    ensures shorter { Shortens (λ r. r.now) s.now result }
{
    let mut rest = s;
    'elements: loop {
        let start = skip_blank(rest, true);
        if first(start) == closing {
            return Ok(Some(skip(start, 1)));
        }
        let Some(next) = after_one(alloc, start, depth, closing)? else {
            return Ok(None);
        };
        rest = next;
    }
}

/// What follows an element, and the comma behind it.
#[cycle(value)]
fn after_one(alloc: Global, s: &str, depth: usize, closing: u8) -> Result<Option<&str>, AllocError>
    ensures value { IfOk result (λ o.
        option_map (λ r. r.now) o ≡ past_element (past_value depth) closing s.now) }
    ensures shorter { Shortens (λ r. r.now) s.now result }
{
    let Some(at_value) = element_value(alloc, s, closing)? else {
        return Ok(None);
    };
    let Some(after) = after_value(alloc, at_value, depth)? else {
        return Ok(None);
    };
    Ok(after_element(after, closing))
}

/// Where the value of an element begins: in an inline table behind its key.
fn element_value(alloc: Global, s: &str, closing: u8) -> Result<Option<&str>, AllocError>
    ensures value { IfOk result (λ o. option_map (λ r. r.now) o ≡ element_value closing s.now) }
    ensures within { IfOk result (λ o. IfSome o (λ r. length r.now ≤ length s.now)) }
{
    if closing != b'}' {
        return Ok(Some(s));
    }
    let Some((_key, rest)) = key_equals(alloc, s)? else {
        return Ok(None);
    };
    Ok(Some(rest))
}

/// What follows an element: past a comma, or at the closing bracket.
#[tactic(auto, unfolding(toml::specs::Parse::after_element))]
fn after_element(s: &str, closing: u8) -> Option<&str>
    ensures value { option_map (λ r. r.now) result ≡ spec.after_element closing s.now }
    ensures within { IfSome result (λ r. length r.now ≤ length s.now) }
{
    let rest = skip_blank(s, true);
    if first(rest) == b',' {
        Some(skip(rest, 1))
    } else if first(rest) == closing {
        Some(rest)
    } else {
        None
    }
}

//! Why a text is no TOML, in words that name the key.
ghost use Rattle.std.specs.Prelude.{◌≡◌, IfOk, option_map, string_bytes};
ghost use Rattle.config_report.specs.Notes.{dotted_text};
ghost use Rattle.toml_parser.specs.Reading.{key_view};
ghost use Rattle.toml_parser.specs.Strings.{key};

use crate::finding::TomlKey;
use std::alloc::{AllocError, Global};
use toml_parser::text::{first, skip, skip_blank};
use toml_parser::{Key, ParseError, dotted_key, quoted, starts_string, unquoted};

/// Why a text is no TOML: the control character that stands there, or the words of `toml`, with the
/// key that is written twice, leads through a value or has a number that is out of range, with the
/// character that no key without quotes has, or with more of what may be written. The texts are the
/// whole one and that from the error on.
pub(crate) fn syntax_words(
    alloc: Global,
    error: &toml::de::Error,
    whole: &str,
    text: &str,
) -> Result<String, AllocError> {
    if is_lone_return(text) {
        return String::from_str(alloc, "a carriage return without a newline after it");
    }
    if let Some(code) = control_character(text) {
        return format!(in alloc;
            "control character U+{code:04X}, and TOML has none but tabs and the ends of lines"
        );
    }
    let (words, at_key) = match error.message() {
        words if is_of_keys(words) && !is_ascii_first(text) => return no_bare_key(alloc, text),
        "duplicate key" => ("duplicate key", text),
        "cannot extend a value with a dotted key" => ("cannot extend a value with the key", text),
        words if tells_large_number(words, text) => {
            let at_key = at_last_key(alloc, whole)?;
            ("number out of range for the key", at_key)
        }
        words if tells_no_value(words, text) => {
            return String::from_str(
                alloc,
                "invalid value, expected a string in quotes, a number, `true`, `false`, a \
                 date-time, an array or an inline table",
            );
        }
        "invalid escape sequence" => {
            return String::from_str(
                alloc,
                "invalid escape sequence, a backslash is written `\\\\`, or the text in single quotes",
            );
        }
        words => return String::from_str(alloc, words),
    };
    let at_key = past_brackets(at_key);
    let Some(key) = first_key(alloc, at_key)? else {
        return String::from_str(alloc, error.message());
    };
    let key = key.as_str();
    if words == "duplicate key" && is_dotted(alloc, at_key)? {
        format!(in alloc; "the key `{key}`, or a table that it leads through, stands already")
    } else {
        format!(in alloc; "{words} `{key}`")
    }
}

/// Whether a text begins with a carriage return that no newline follows.
fn is_lone_return(text: &str) -> bool {
    text.starts_with('\r') && !text.starts_with("\r\n")
}

/// Whether the words are said where a key goes on or ends.
fn is_of_keys(words: &str) -> bool {
    matches!(
        words,
        "invalid key, expected letters, numbers, `-`, `_` or a quoted key"
            | "key with no value, expected `=`"
            | "unclosed table, expected `]`"
            | "unclosed array table, expected `]]`"
    )
}

/// Whether the first character of a text, if there is one, is ASCII.
fn is_ascii_first(text: &str) -> bool {
    text.as_bytes().first().is_none_or(|byte| byte.is_ascii())
}

/// That no key without quotes has the first character of a text.
fn no_bare_key(alloc: Global, text: &str) -> Result<String, AllocError> {
    let code = text.chars().next().map_or(0, u32::from);
    format!(in alloc;
        "U+{code:04X} in a key without quotes, expected ASCII letters, digits, `-`, `_`"
    )
}

/// Whether a text begins with a key of several parts.
fn is_dotted(alloc: Global, text: &str) -> Result<bool, AllocError> {
    let read = dotted_key(alloc, text);
    match read {
        Ok((key, _rest)) => Ok(!key.path.is_empty()),
        Err(ParseError::OutOfMemory) => Err(AllocError),
        Err(_) => Ok(false),
    }
}

/// The control character of ASCII that a text begins with, if TOML has it nowhere: it is no tab, no
/// newline and no carriage return.
fn control_character(text: &str) -> Option<u8> {
    match first(text) {
        _ if text.is_empty() => None,
        b'\t' | b'\n' | b'\r' => None,
        byte if byte < b' ' || byte == 0x7F => Some(byte),
        _ => None,
    }
}

/// Whether the words say that a number is out of range. Of one in another base than ten `toml` says
/// that it is no value.
fn tells_large_number(words: &str, text: &str) -> bool {
    words == "number out of range" || (tells_no_value(words, text) && is_prefixed_integer(text))
}

/// Whether a text begins with an integer behind `0x`, `0o` or `0b` that is a whole value.
fn is_prefixed_integer(text: &str) -> bool {
    let (digits, rest) = if let Some(digits) = text.strip_prefix("0x") {
        (
            digits,
            digits.trim_start_matches(|c: char| c == '_' || c.is_ascii_hexdigit()),
        )
    } else if let Some(digits) = text.strip_prefix("0o") {
        (
            digits,
            digits.trim_start_matches(|c| matches!(c, '0'..='7' | '_')),
        )
    } else if let Some(digits) = text.strip_prefix("0b") {
        (
            digits,
            digits.trim_start_matches(|c| matches!(c, '0' | '1' | '_')),
        )
    } else {
        return false;
    };
    let after = rest.trim_start_matches(|c| c == ' ' || c == '\t');
    let is_end = |c: char| matches!(c, ',' | ']' | '}' | '#' | '\r' | '\n');
    rest.len() < digits.len() && (after.is_empty() || after.starts_with(is_end))
}

/// Whether the words say that a value is none. `toml` takes a string without quotes for a number if
/// it has a `_`.
fn tells_no_value(words: &str, text: &str) -> bool {
    words == "invalid value, expected a string, number, boolean, date-time, array or inline table"
        || (words == "`_` may only go between digits"
            && text.starts_with(|c: char| c.is_ascii_alphabetic()))
}

/// A line from the key of its expression on, past the brackets of a header.
fn past_brackets(text: &str) -> &str {
    text.trim_start_matches('[').trim_start()
}

/// The key that a text begins with, if it begins with one.
fn first_key(alloc: Global, text: &str) -> Result<Option<String>, AllocError>
    ensures { IfOk result (λ found. option_map (λ k. string_bytes k) found
        ≡ option_map (λ read. dotted_text read.0) (key text.now)) }
{
    match dotted_key(alloc, text) {
        Ok((key, _rest)) => {
            let written = dotted_text(alloc, &key)?;
            Ok(Some(written))
        }
        Err(ParseError::OutOfMemory) => Err(AllocError),
        Err(_) => Ok(None),
    }
}

/// A key, each of its parts as TOML writes it.
#[tactic(auto, using(crate::proofs::Lines::one_more))]
fn dotted_text(alloc: Global, key: &Key) -> Result<String, AllocError>
    ensures { IfOk result (λ text. string_bytes text ≡ dotted_text (key_view key.now)) }
{
    let mut text = String::new(alloc);
    for part in key.path.as_slice() {
        write!(text, "{}.", TomlKey(part.as_str()))?;
    }
    write!(text, "{}", TomlKey(key.last.as_str()))?;
    Ok(text)
}

/// The text from the key on in whose value reading stops: that of the innermost pair. What stands
/// in front is gone over once, keys and values whole, by the grammar of `toml`.
fn at_last_key(alloc: Global, text: &str) -> Result<&str, AllocError> {
    let mut keys = Keys {
        left: 0,
        is_next: true,
        open: Vec::new(alloc),
    };
    let mut rest = text.strip_prefix('\u{FEFF}').unwrap_or(text);
    for _ in 0..text.len() {
        let Some(after) = keys.pass(alloc, skip_blank(rest, true))? else {
            break;
        };
        rest = after;
    }
    let before = text.len().saturating_sub(keys.left);
    Ok(text.get(before..).unwrap_or(""))
}

/// In the value of which key a byte stands.
#[derive(Drop)]
struct Keys {
    /// How many bytes are left from this key on.
    left: usize,
    /// Whether a key or a header comes next.
    is_next: bool,
    /// The brackets that are open, the innermost last: whether it is that of an inline table, and
    /// how many bytes are left from the key on in whose value it stands.
    open: Vec<(bool, usize)>,
}

impl Keys {
    /// What follows the key, the value, the bracket or the comma that a text begins with. There is
    /// none where reading stops.
    fn pass<'a>(&mut self, alloc: Global, text: &'a str) -> Result<Option<&'a str>, AllocError> {
        match first(text) {
            byte if self.is_next && byte != b'}' => self.pass_key(alloc, past_brackets(text)),
            byte @ (b'[' | b'{') => {
                self.is_next = byte == b'{';
                self.open.push((self.is_next, self.left))?;
                Ok(Some(skip(text, 1)))
            }
            b']' | b'}' => {
                if let Some((_, outer)) = self.open.pop() {
                    self.left = outer;
                }
                self.is_next = self.open.is_empty();
                Ok(Some(skip(text, 1)))
            }
            b',' => {
                self.is_next = matches!(self.open.last(), Some((true, _)));
                Ok(Some(skip(text, 1)))
            }
            _ => {
                self.is_next = self.open.is_empty();
                after_value(alloc, text)
            }
        }
    }

    /// What follows the key of a header or of a pair and the brackets or the `=` behind it.
    fn pass_key<'a>(
        &mut self,
        alloc: Global,
        text: &'a str,
    ) -> Result<Option<&'a str>, AllocError> {
        self.left = text.len();
        let Some(after) = after_read(dotted_key(alloc, text))? else {
            return Ok(None);
        };
        self.is_next = first(after) != b'=';
        Ok(Some(after.trim_start_matches(|c| c == '=' || c == ']')))
    }
}

/// What follows a string, a number, a boolean or a date-time.
fn after_value(alloc: Global, text: &str) -> Result<Option<&str>, AllocError> {
    if starts_string(text) {
        after_read(quoted(alloc, text))
    } else {
        after_read(unquoted(alloc, text))
    }
}

/// What follows something that is read, if it can be read.
fn after_read<T: Drop>(read: Result<(T, &str), ParseError>) -> Result<Option<&str>, AllocError> {
    match read {
        Ok((_value, rest)) => Ok(Some(rest)),
        Err(ParseError::OutOfMemory) => Err(AllocError),
        Err(_) => Ok(None),
    }
}

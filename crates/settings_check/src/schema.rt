//! The JSON Schema of files of settings.
ghost use Rattle.std.specs.Prelude.{◌≡◌, ◌++◌, ℕ, List, Some, true, IfOk, OnOk, string_bytes};
ghost use Rattle.settings_check.specs.Schema.{kind_schema, value_schema, property, comma_if};
ghost use Rattle.settings_check.specs.Schema.{properties, HasObject, IsDefinition, IsSchema};
ghost use Rattle.iox2_config_file.specs.Write.{InTurn};

use iox2_config_file::{Kind, Row, SECTIONS, Section, rows};
use std::alloc::{AllocError, Global};
use std::fmt;

/// What stands before all tables.
const HEAD: &str = "{
  \"$schema\": \"http://json-schema.org/draft-07/schema#\",
  \"title\": \"iceoryx2.toml\",
  \"description\": \"The settings of iceoryx2, version 0.9.3\",
";

/// What stands between the top of the file and the other tables.
const DEFINITIONS: &str = ",
  \"definitions\": {
";

/// A duration, as the definitions see it.
const DURATION: &str = "  \"duration\": {
  \"type\": \"object\", \"additionalProperties\": false, \"required\": [\"secs\", \"nanos\"],
  \"properties\": {
    \"secs\": {\"type\": \"integer\", \"minimum\": 0, \"maximum\": 9223372036854775807},
    \"nanos\": {\"type\": \"integer\", \"minimum\": 0, \"maximum\": 4294967295}
  }}
";

/// What stands behind all definitions.
const TAIL: &str = "  }
}
";

/// What the value of a key may be, but for a table.
fn kind_schema(kind: Kind) -> &'static str
    ensures { result.now ≡ kind_schema kind }
{
    match kind {
        Kind::Table => "\"type\": \"object\"",
        Kind::Number => "\"type\": \"integer\", \"minimum\": 0, \"maximum\": 9223372036854775807",
        Kind::Flag => "\"type\": \"boolean\"",
        Kind::Path => {
            "\"type\": \"string\", \"maxLength\": 255, \"pattern\": \"^[\\\\u0001-\\\\u007f]*$\""
        }
        Kind::FileName => {
            "\"type\": \"string\", \"maxLength\": 255, \
             \"pattern\": \"^(?!\\\\.{1,2}$)[\\\\u0001-.0-\\\\u007f]+$\""
        }
        Kind::Backpressure => "\"enum\": [\"RetryUntilDelivered\", \"DiscardData\"]",
        Kind::Allocation => "\"enum\": [\"BestFit\", \"PowerOfTwo\", \"Static\"]",
        Kind::Duration => "\"allOf\": [{\"$ref\": \"#/definitions/duration\"}]",
    }
}

/// What the value of a key of a table may be.
#[derive(Clone, Copy)]
struct ValueSchema<'a>(Section, &'a Row);

impl fmt::Display for ValueSchema<'_> {
    ghost output = { λ schema. Some (value_schema schema.0 schema.1.now) };

    fn fmt<W: fmt::Write>(&self, f: &mut fmt::Formatter<W>) -> fmt::Result {
        let ValueSchema(section, row) = *self;
        let prefix = section.prefix();
        let key = row.key;
        match row.kind {
            Kind::Table => write!(
                f,
                "\"allOf\": [{{\"$ref\": \"#/definitions/{prefix}{key}.\"}}]"
            ),
            kind => f.write_str(kind_schema(kind)),
        }
    }
}

/// Appends a key behind the others, with what it means and what its value may be.
fn write_next(
    out: &mut String,
    section: Section,
    row: &Row,
    is_first: bool,
) -> Result<(), AllocError>
    ensures { OnOk result (string_bytes out.new
        ≡ string_bytes out.old ++ (comma_if is_first ++ property section row.now)) }
{
    let comma = if is_first { "" } else { ",\n" };
    let key = row.key;
    let about = row.about;
    let schema = ValueSchema(section, row);
    write!(
        out,
        "{comma}    \"{key}\": {{\"description\": \"{about}\", {schema}}}"
    )
}

/// Appends the keys of a table.
#[tactic(auto, using(crate::proofs::Lists::properties_end, crate::proofs::Lists::property_next))]
fn write_properties(out: &mut String, section: Section, rows: &[Row]) -> Result<(), AllocError>
    ensures { OnOk result (string_bytes out.new
        ≡ string_bytes out.old ++ properties section true rows.now) }
{
    let mut is_first = true;
    for row in rows {
        write_next(out, section, row, is_first)?;
        is_first = false;
    }
    Ok(())
}

/// Appends what a table may have.
fn write_object(out: &mut String, section: Section) -> Result<(), AllocError>
    ensures { OnOk result (HasObject section (string_bytes out.old) (string_bytes out.new)) }
{
    out.push_str(
        "  \"type\": \"object\", \"additionalProperties\": false,\n  \"properties\": {\n",
    )?;
    write_properties(out, section, rows(section))?;
    out.push_str("\n  }")?;
    Ok(())
}

/// Appends a table by its name.
#[tactic(auto, using(crate::proofs::Lists::three))]
fn write_definition(out: &mut String, section: Section) -> Result<(), AllocError>
    ensures { OnOk result ((text : List ℕ)
        × (string_bytes out.new ≡ string_bytes out.old ++ text) × IsDefinition section text) }
{
    let prefix = section.prefix();
    write!(out, "  \"{prefix}\": {{\n")?;
    write_object(out, section)?;
    out.push_str("},\n")?;
    Ok(())
}

/// Appends some tables.
#[tactic(auto, using(iox2_config_file::proofs::Rowed::turns_end))]
fn write_definitions(out: &mut String, sections: &[Section]) -> Result<(), AllocError>
    ensures { OnOk result ((text : List ℕ)
        × (string_bytes out.new ≡ string_bytes out.old ++ text)
        × InTurn IsDefinition sections.now text) }
{
    for section in sections {
        write_definition(out, *section)?;
    }
    Ok(())
}

/// The JSON Schema of files of settings.
pub(crate) fn schema(alloc: Global) -> Result<String, AllocError>
    ensures { IfOk result (λ text. IsSchema (string_bytes text)) }
{
    let mut out = String::from_str(alloc, HEAD)?;
    write_object(&mut out, Section::Root)?;
    out.push_str(DEFINITIONS)?;
    write_definitions(&mut out, &SECTIONS[1..])?;
    out.push_str(DURATION)?;
    out.push_str(TAIL)?;
    Ok(out)
}

//! The keys of a file that no setting has.
ghost use Rattle.std.specs.Prelude.{◌≡◌, ◌++◌, Some, map, option_map, OnOk, IfOk};
ghost use Rattle.iox2_config.specs.declared.config.Config.{Config};
ghost use Rattle.iox2_config_file.specs.Read.{row_view, section_members};
ghost use Rattle.iox2_config_file.specs.Unknown.{is_known, section_unknown, unknown_at, unknown_view};
ghost use Rattle.toml.specs.Data.{Members};
ghost use Rattle.toml.specs.View.{table_view};

use crate::proposal::{Proposal, propose};
use crate::section::{Row, Section, rows};
use std::alloc::{AllocError, Global};
use toml::Table;

/// A key of a file that no setting has.
#[derive(Debug, Drop)]
pub struct UnknownKey {
    /// The table in which it stands.
    pub section: Section,
    /// The key.
    pub key: String,
    /// The known key that was probably meant, if there is one.
    pub meant: Option<Proposal>,
}

/// Whether a key is known.
fn is_known(key: &str, rows: &[Row]) -> bool
    ensures { result ≡ is_known key.now (map row_view rows.now) }
{
    for row in rows {
        if key == row.key {
            return true;
        }
    }
    false
}

/// A key of a table, where it is not known.
#[tactic(auto, unfolding(crate::specs::Unknown::unknown_at))]
fn unknown_of(alloc: Global, section: Section, key: &str) -> Result<Option<UnknownKey>, AllocError>
    ensures { IfOk result (λ unknown. (c : Config)
        → option_map unknown_view unknown ≡ unknown_at c section key.now) }
{
    if is_known(key, rows(section)) {
        return Ok(None);
    }
    Ok(Some(UnknownKey {
        section,
        meant: propose(alloc, section, key)?,
        key: String::from_str(alloc, key)?,
    }))
}

/// Adds the unknown keys of a table of the file.
#[tactic(auto, unfolding(crate::specs::Unknown::section_unknown))]
pub(crate) fn add_unknown(
    alloc: Global,
    unknown: &mut Vec<UnknownKey>,
    section: Section,
    table: &Table,
) -> Result<(), AllocError>
    ensures { OnOk result ((c : Config) (file : Members)
        → table_view table.now ≡ section_members section file
        → map unknown_view unknown.new.items
        ≡ map unknown_view unknown.old.items ++ section_unknown c file section) }
{
    for (key, _) in table.iter() {
        if let Some(found) = unknown_of(alloc, section, key.as_str())? {
            unknown.push(found)?;
        }
    }
    Ok(())
}

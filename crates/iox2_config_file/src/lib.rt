//! The file of the middleware's settings, `iceoryx2.toml`.
#![tactic(auto)]

mod depth;
mod fault;
pub mod laws;
mod proposal;
mod read;
mod section;
mod unknown;
mod value;
mod write;

pub use depth::too_deep;
pub use fault::{Fault, Kind, NameFault, SettingFault, TomlType};
pub use proposal::{Likeness, Proposal};
pub use read::{ConfigFileError, FileContents, read_config};
pub use section::{Row, SECTIONS, Section, rows};
pub use unknown::UnknownKey;
pub use value::{SettingValue, value_at};
pub use write::{ConfigWriteError, Misfit, write_config};

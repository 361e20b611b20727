//! The configuration: where the system's files lie, how they are called, and the limits that
//! services have where nothing else is said.
//!
//! `Default` of each struct is the table that `specs/Defaults.antt` states.
ghost use Rattle.std.specs.Prelude.{◌≡◌};
ghost use lib.Chars.{codes};

mod choices;
mod defaults;
mod global;

pub use choices::{AllocationStrategy, BackpressureStrategy, DataSegmentType, EventId};
pub use defaults::{Blackboard, Defaults, Event, PublishSubscribe, RequestResonse};
pub use global::{Global, Node, Service};
use iox2_texts::paths::{FileName, FilePath, Path};

/// All settings: those of the system, and those that services get by default.
///
/// From `crates/services_tests/src/static_config/chunk_counts.rt`:
///
/// ```
/// let mut config = publish_subscribe::StaticConfig::new(&Config::default());
/// config.max_subscribers = subscribers;
/// ```
#[derive(Debug, Drop, PartialEq, Eq)]
pub struct Config {
    /// The settings that all services and nodes of one system share.
    pub global: Global,
    /// The settings of services of each pattern.
    pub defaults: Defaults,
}

impl Default for Config {
    ghost use Rattle.iox2_config.specs.Defaults.{IsDefaultConfig};

    ghost is_default = { IsDefaultConfig };

    fn default() -> Self {
        Config {
            global: Global::default(),
            defaults: Defaults::default(),
        }
    }
}

impl Config {
    /// The name of a configuration file, `iceoryx2.toml`.
    pub fn default_config_file_name() -> FileName
        ensures { result ≡ codes "iceoryx2.toml" }
    {
        FileName::from_legal(b"iceoryx2.toml")
    }

    /// The configuration file of a working directory, `config/iceoryx2.toml`.
    pub fn default_config_file_path() -> FilePath
        ensures { result ≡ codes "config/iceoryx2.toml" }
    {
        FilePath::from_legal(b"config/iceoryx2.toml")
    }

    /// The directory, below one for configurations, that
    /// has this system's configuration: `iceoryx2`.
    pub fn relative_config_path() -> Path
        ensures { result ≡ codes "iceoryx2" }
    {
        Path::from_legal(b"iceoryx2")
    }

    /// The configuration file below a user's directory for configurations,
    /// `iceoryx2/iceoryx2.toml`.
    pub fn default_user_config_file_path() -> FilePath
        ensures { result ≡ codes "iceoryx2/iceoryx2.toml" }
    {
        FilePath::from_legal(b"iceoryx2/iceoryx2.toml")
    }

    /// An equal configuration.
    pub fn copied(&self) -> Self
        ensures { result ≡ self.now }
    {
        Config {
            global: self.global.copied(),
            defaults: self.defaults.copied(),
        }
    }
}

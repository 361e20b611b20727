//! Static configurations of blackboard services.
ghost use Rattle.std.specs.Prelude.{◌≡◌, ◌↔◌, IsTrue};

use super::setting::{Requirement, Setting, are_met, first_unmet};
use iox2_config::config::{Blackboard, Config};
use iox2_config::types::TypeDetail;

/// What is fixed of a blackboard service.
#[derive(Debug, Drop, PartialEq, Eq, Hash)]
pub struct StaticConfig {
    /// How many readers there may be at once.
    pub max_readers: usize,
    /// How many writers there may be at once.
    pub max_writers: usize,
    /// How many nodes may have the service open at once.
    pub max_nodes: usize,
    /// The type of the keys.
    pub type_details: TypeDetail,
}

impl StaticConfig {
    ghost use Rattle.iox2_static.specs.Requirements.{first_unmet, AreMet};
    ghost use Rattle.iox2_static.specs.Satisfies.{blackboard_requirements};
    ghost use Rattle.iox2_static.specs.Blackboard.{blackboard_of};

    /// The blackboard defaults of a configuration, with one writer and the default type details.
    pub fn new(config: &Config) -> Self
        ensures { result ≡ blackboard_of config.now.defaults.blackboard }
    {
        Self::with_settings(&config.defaults.blackboard)
    }

    /// What these settings fix of a service, with one writer and the default type details.
    pub fn with_settings(settings: &Blackboard) -> Self
        ensures { result ≡ blackboard_of settings.now }
    {
        StaticConfig {
            max_readers: settings.max_readers,
            max_writers: 1,
            max_nodes: settings.max_nodes,
            type_details: TypeDetail::default(),
        }
    }

    /// How many nodes may have the service open at once.
    pub fn max_nodes(&self) -> usize
        ensures { result ≡ self.now.max_nodes }
    {
        self.max_nodes
    }

    /// How many readers there may be at once.
    pub fn max_readers(&self) -> usize
        ensures { result ≡ self.now.max_readers }
    {
        self.max_readers
    }

    /// The type of the keys.
    pub fn type_details(&self) -> &TypeDetail
        ensures { result.now ≡ self.now.type_details }
    {
        &self.type_details
    }

    /// The first setting, in the order of the fields, in which the service does not meet what an
    /// opener requires, or `None` exactly where it meets all.
    ///
    /// Each number must be at least the required one. The type of the keys and the attributes are
    /// no part of it.
    pub fn first_unmet(&self, required: &Self) -> Option<Setting>
        ensures { result ≡ first_unmet (blackboard_requirements self.now required.now) }
    {
        first_unmet(&self.requirements(required))
    }

    /// Whether the service meets all that an opener requires.
    pub fn satisfies(&self, required: &Self) -> bool
        ensures { IsTrue result ↔ AreMet (blackboard_requirements self.now required.now) }
    {
        are_met(&self.requirements(required))
    }

    /// What an opener requires, in the order of the fields.
    #[tactic(auto, unfolding(crate::specs::Satisfies::blackboard_requirements))]
    fn requirements(&self, required: &Self) -> [Requirement; 3]
        ensures { result ≡ blackboard_requirements self.now required.now }
    {
        [
            Requirement::at_least(Setting::MaxReaders, self.max_readers, required.max_readers),
            Requirement::at_least(Setting::MaxWriters, self.max_writers, required.max_writers),
            Requirement::at_least(Setting::MaxNodes, self.max_nodes, required.max_nodes),
        ]
    }

    /// An equal configuration.
    pub fn copied(&self) -> Self
        ensures { result ≡ self.now }
    {
        StaticConfig {
            type_details: self.type_details.copied(),
            ..*self
        }
    }
}

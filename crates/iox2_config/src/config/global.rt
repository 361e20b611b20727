//! The settings of a whole system.
ghost use Rattle.std.specs.Prelude.{◌≡◌};
ghost use Rattle.iox2_texts.specs.Path.{MakesJoined};

use iox2_texts::bounded::SemanticStringError;
use iox2_texts::paths::{FileName, Path};
use std::marker::Model;
use std::time::Duration;

/// Where the files of services lie, and how their names end.
#[derive(Debug, Drop, PartialEq, Eq)]
pub struct Service {
    /// The directory of services, below the root path.
    pub directory: Path,
    /// The end of the name of a port's data segment.
    pub data_segment_suffix: FileName,
    /// The end of the name of a service's static configuration.
    pub static_config_storage_suffix: FileName,
    /// The end of the name of a service's dynamic configuration.
    pub dynamic_config_storage_suffix: FileName,
    /// The end of the name of a connection between two ports.
    pub connection_suffix: FileName,
    /// The end of the name of a connection by which events are sent.
    pub event_connection_suffix: FileName,
    /// The end of the name of a blackboard's management segment.
    pub blackboard_mgmt_suffix: FileName,
    /// The end of the name of a blackboard's data segment.
    pub blackboard_data_suffix: FileName,
    /// Whether somebody who opens a service first removes what dead nodes left in it.
    pub cleanup_dead_nodes_on_open: bool,
}

impl Default for Service {
    ghost use Rattle.iox2_config.specs.Defaults.{default_service};

    ghost is_default = { λ settings. settings ≡ default_service };

    fn default() -> Self {
        Service {
            directory: Path::from_legal(b"services"),
            data_segment_suffix: FileName::from_legal(b".data"),
            static_config_storage_suffix: FileName::from_legal(b".service"),
            dynamic_config_storage_suffix: FileName::from_legal(b".dynamic"),
            connection_suffix: FileName::from_legal(b".connection"),
            event_connection_suffix: FileName::from_legal(b".event"),
            blackboard_mgmt_suffix: FileName::from_legal(b".blackboard_mgmt"),
            blackboard_data_suffix: FileName::from_legal(b".blackboard_data"),
            cleanup_dead_nodes_on_open: true,
        }
    }
}

impl Service {
    /// Equal settings.
    pub fn copied(&self) -> Self
        ensures { result ≡ self.now }
    {
        Service {
            directory: self.directory.copied(),
            data_segment_suffix: self.data_segment_suffix.copied(),
            static_config_storage_suffix: self.static_config_storage_suffix.copied(),
            dynamic_config_storage_suffix: self.dynamic_config_storage_suffix.copied(),
            connection_suffix: self.connection_suffix.copied(),
            event_connection_suffix: self.event_connection_suffix.copied(),
            blackboard_mgmt_suffix: self.blackboard_mgmt_suffix.copied(),
            blackboard_data_suffix: self.blackboard_data_suffix.copied(),
            cleanup_dead_nodes_on_open: self.cleanup_dead_nodes_on_open,
        }
    }
}

/// Where the files of nodes lie, and how their names end.
#[derive(Debug, Drop, PartialEq, Eq)]
pub struct Node {
    /// The directory of nodes, below the root path.
    pub directory: Path,
    /// The end of the name of the token by which others see that a node lives.
    pub monitor_suffix: FileName,
    /// The end of the name of a node's static configuration.
    pub static_config_suffix: FileName,
    /// The end of the name of the tag that a node leaves for each service that it uses.
    pub service_tag_suffix: FileName,
    /// The end of the name of the tag that a node leaves for each of its ports.
    pub port_tag_suffix: FileName,
    /// The end of the name of the segment with which nodes are managed.
    pub global_mgmt_suffix: FileName,
    /// Whether somebody who creates a node first removes what dead nodes left.
    pub cleanup_dead_nodes_on_creation: bool,
    /// Whether a node that is dropped removes the remains of dead nodes.
    pub cleanup_dead_nodes_on_destruction: bool,
}

impl Default for Node {
    ghost use Rattle.iox2_config.specs.Defaults.{default_node};

    ghost is_default = { λ settings. settings ≡ default_node };

    fn default() -> Self {
        Node {
            directory: Path::from_legal(b"nodes"),
            monitor_suffix: FileName::from_legal(b".node_monitor"),
            static_config_suffix: FileName::from_legal(b".details"),
            service_tag_suffix: FileName::from_legal(b".service_tag"),
            port_tag_suffix: FileName::from_legal(b".port_tag"),
            global_mgmt_suffix: FileName::from_legal(b".global_mgmt"),
            cleanup_dead_nodes_on_creation: true,
            cleanup_dead_nodes_on_destruction: true,
        }
    }
}

impl Node {
    /// Equal settings.
    pub fn copied(&self) -> Self
        ensures { result ≡ self.now }
    {
        Node {
            directory: self.directory.copied(),
            monitor_suffix: self.monitor_suffix.copied(),
            static_config_suffix: self.static_config_suffix.copied(),
            service_tag_suffix: self.service_tag_suffix.copied(),
            port_tag_suffix: self.port_tag_suffix.copied(),
            global_mgmt_suffix: self.global_mgmt_suffix.copied(),
            cleanup_dead_nodes_on_creation: self.cleanup_dead_nodes_on_creation,
            cleanup_dead_nodes_on_destruction: self.cleanup_dead_nodes_on_destruction,
        }
    }
}

/// The settings that all services and nodes of one system share.
#[derive(Debug, Drop, PartialEq, Eq)]
pub struct Global {
    root_path: Path,
    /// What the name of each file begins with.
    pub prefix: FileName,
    /// The settings of services' files.
    pub service: Service,
    /// The settings of nodes' files.
    pub node: Node,
    /// For how long somebody who opens a thing waits until its creator has made it.
    pub creation_timeout: Duration,
}

impl Model for Global {
    ghost use Rattle.iox2_config.specs.GlobalSettings.{GlobalSettings};

    ghost Value = { GlobalSettings };

    ghost view = { λ global. record {
      root_path = global.root_path;
      prefix = global.prefix;
      service = global.service;
      node = global.node;
      creation_timeout = global.creation_timeout;
    } };

    ghost inverse = { λ settings. record {
      root_path = settings.root_path;
      prefix = settings.prefix;
      service = settings.service;
      node = settings.node;
      creation_timeout = settings.creation_timeout;
    } };
}

impl Default for Global {
    ghost use Rattle.iox2_config.specs.Defaults.{IsDefaultGlobal};

    ghost is_default = { IsDefaultGlobal };

    fn default() -> Self {
        Global {
            root_path: Path::from_legal(b"/tmp/iceoryx2/"),
            prefix: FileName::from_legal(b"iox2_"),
            service: Service::default(),
            node: Node::default(),
            creation_timeout: Duration::from_millis(500),
        }
    }
}

impl Global {
    /// The path below which everything else lies.
    pub fn root_path(&self) -> &Path
        ensures { result.now ≡ self.now.root_path }
    {
        &self.root_path
    }

    /// Sets the path below which everything else lies.
    pub fn set_root_path(&mut self, value: &Path)
        ensures { self.new ≡ record self.old { root_path = value.now } }
    {
        self.root_path = value.copied();
    }

    /// The directory of services: the root path and `service.directory`, joined by one `/`.
    ///
    /// It is refused as too long where it has more than 255 bytes, and never else.
    pub fn service_dir(&self) -> Result<Path, SemanticStringError>
        ensures { MakesJoined self.now.root_path self.now.service.directory result }
    {
        below(&self.root_path, &self.service.directory)
    }

    /// The directory of nodes: the root path and `node.directory`, joined by one `/`.
    ///
    /// It is refused as too long where it has more than 255 bytes, and never else.
    pub fn node_dir(&self) -> Result<Path, SemanticStringError>
        ensures { MakesJoined self.now.root_path self.now.node.directory result }
    {
        below(&self.root_path, &self.node.directory)
    }

    /// Equal settings.
    pub fn copied(&self) -> Self
        ensures { result ≡ self.now }
    {
        Global {
            root_path: self.root_path.copied(),
            prefix: self.prefix.copied(),
            service: self.service.copied(),
            node: self.node.copied(),
            creation_timeout: self.creation_timeout,
        }
    }
}

/// A directory below another.
fn below(root: &Path, directory: &Path) -> Result<Path, SemanticStringError>
    ensures { MakesJoined root.now directory.now result }
{
    let mut path = root.copied();
    path.add_path_entry(directory)?;
    Ok(path)
}

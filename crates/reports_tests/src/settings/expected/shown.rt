//! A file of settings, and what is shown of it.

/// A file with two settings that differ from the defaults, and two keys that no setting has.
pub(crate) const OWN: &str = "size = 1

[global]
prefix = 'own_'

[defaults.publish-subscribe]
max-subscribers = 10
max-publisher = 3
";

/// What is said of the keys that no setting has.
pub(crate) const UNKNOWN: &str = "own.toml:1:1: warning: size: this table has no such key
own.toml:8:1: warning: defaults.publish-subscribe.max-publisher: this table has no such key, defaults.publish-subscribe.max-publishers may be meant
";

/// What follows from the file, below its settings. A publisher may have 2 samples taken, and each
/// of ten subscribers 2 in its buffer and 2 in its hands.
pub(crate) const CONSEQUENCES: &str = "
directories
  root                   /tmp/iceoryx2/
  services               /tmp/iceoryx2/services
  nodes                  /tmp/iceoryx2/nodes

files, with * for what the configuration does not fix
  static configuration   own_*.service
  dynamic configuration  own_*.dynamic
  data segments          own_*.data
  connections            own_*.connection
  event connections      own_*.event
  blackboard management  own_*.blackboard_mgmt
  blackboard data        own_*.blackboard_data
  node monitors          own_*.node_monitor
  node details           own_*.details
  service tags           own_*.service_tag
  port tags              own_*.port_tag
  global management      own_*.global_mgmt

chunks that a port needs at these limits, and all ports of its kind
  publisher              42, all 2 together 84
";

//! Whether settings describe a service.
ghost use Rattle.std.specs.Prelude.{◌↔◌, IsTrue};
ghost use Rattle.service_examples.specs.Described.{IsAsDescribed};

use iox2_container::container::Role;
use iox2_dynamic::dynamic_config::DynamicConfig;
use iox2_static::static_config::publish_subscribe::StaticConfig;

/// Whether the service has the pattern and the capacities that these settings say.
pub(crate) fn is_as_described(settings: &StaticConfig, service: &DynamicConfig) -> bool
    ensures { IsTrue result ↔ IsAsDescribed settings.now service.now }
{
    service.is_publish_subscribe()
        && service.max_nodes() == settings.max_nodes
        && service.max_ports(Role::Publisher) == Some(settings.max_publishers)
        && service.max_ports(Role::Subscriber) == Some(settings.max_subscribers)
}

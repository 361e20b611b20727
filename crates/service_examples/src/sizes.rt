//! How many bytes values of the layer take: a function pays at entry for the size of its locals.

use iox2_config::config::Config;
use iox2_config::hash::ServiceHash;
use iox2_config::types::{MessageTypeDetails, TypeDetail};
use iox2_container::container::ContainerHandle;
use iox2_dynamic::dynamic_config::{DynamicConfig, PortDetails};
use iox2_ids::identifiers::UniqueNodeId;
use iox2_static::static_config::StaticConfig;
use iox2_texts::attribute::{Attribute, AttributeSet, AttributeVerifier};
use iox2_texts::paths::Path;
use iox2_texts::service_name::ServiceName;
use std::mem::size_of;

const _: () = prove!(size_of::<UniqueNodeId>() == 16);

const _: () = prove!(size_of::<ContainerHandle>() == 32);

const _: () = prove!(size_of::<ServiceHash>() == 72);

const _: () = prove!(size_of::<PortDetails>() == 80);

const _: () = prove!(size_of::<ServiceName>() == 264);

const _: () = prove!(size_of::<Path>() == 264);

const _: () = prove!(size_of::<TypeDetail>() == 288);

const _: () = prove!(size_of::<DynamicConfig>() == 320);

const _: () = prove!(size_of::<Attribute>() == 336);

const _: () = prove!(size_of::<MessageTypeDetails>() == 864);

const _: () = prove!(size_of::<Config>() == 4560);

const _: () = prove!(size_of::<AttributeSet>() == 5384);

const _: () = prove!(size_of::<AttributeVerifier>() == 6544);

const _: () = prove!(size_of::<StaticConfig>() == 7536);

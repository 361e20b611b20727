//! The modules of the layer, under the names that they have in the crate at its top.

use service_descriptions::attribute::AttributeSet;
use service_descriptions::bounded::StaticString;
use service_descriptions::config::Config;
use service_descriptions::hash::ServiceHash;
use service_descriptions::paths::FileName;
use service_descriptions::service_name::ServiceName;
use service_descriptions::static_config::publish_subscribe;
use service_descriptions::types::TypeDetail;

#[test]
fn each_module_has_its_name(rt: HostRuntime) {
    let config = Config::default();
    let file: FileName = Config::default_config_file_name();
    assert_eq!(rt;
        [
            AttributeSet::capacity(),
            StaticString::<4>::capacity(),
            ServiceName::max_len(),
            ServiceHash::max_number_of_characters(),
            file.len(),
            publish_subscribe::StaticConfig::new(&config).max_nodes(),
            TypeDetail::default().size(),
        ],
        [16, 4, 255, 64, 13, 20, 0]
    );
}

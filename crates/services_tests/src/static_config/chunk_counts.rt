use iox2_config::config::Config;
use iox2_static::static_config::{publish_subscribe, request_response};

const MOST: usize = usize::MAX;

fn samples(
    subscribers: usize,
    buffer: usize,
    borrowed: usize,
    history: usize,
    loans: usize,
) -> Option<usize> {
    let mut config = publish_subscribe::StaticConfig::new(&Config::default());
    config.max_subscribers = subscribers;
    config.subscriber_max_buffer_size = buffer;
    config.subscriber_max_borrowed_samples = borrowed;
    config.history_size = history;
    config.required_amount_of_samples_per_data_segment(loans)
}

fn client_chunks(servers: usize, active: usize, loans: usize) -> Option<usize> {
    let mut config = request_response::StaticConfig::new(&Config::default());
    config.max_servers = servers;
    config.max_active_requests_per_client = active;
    config.required_amount_of_chunks_per_client_data_segment(loans)
}

fn server_chunks(
    clients: usize,
    active: usize,
    buffer: usize,
    borrowed: usize,
    loans: usize,
) -> Option<usize> {
    let mut config = request_response::StaticConfig::new(&Config::default());
    config.max_clients = clients;
    config.max_active_requests_per_client = active;
    config.max_response_buffer_size = buffer;
    config.max_borrowed_responses_per_pending_response = borrowed;
    config.required_amount_of_chunks_per_server_data_segment(loans)
}

#[test]
fn the_defaults_need_so_many_chunks(rt: HostRuntime) {
    let config = Config::default();
    let samples = publish_subscribe::StaticConfig::new(&config);
    let requests = request_response::StaticConfig::new(&config);
    assert_eq!(rt;
        [
            samples.required_amount_of_samples_per_data_segment(2),
            requests.required_amount_of_chunks_per_client_data_segment(2),
            requests.required_amount_of_chunks_per_server_data_segment(2),
        ],
        [Some(34), Some(18), Some(384)]
    );
}

#[test]
fn samples_are_counted(rt: HostRuntime) {
    assert_eq!(rt;
        [
            samples(0, MOST, 1, 0, 5),
            samples(1, MOST, 0, 0, 1),
            samples(0, 0, 0, 3, 4),
            samples(0, 2, 2, MOST, 0),
            samples(0, 2, 2, MOST, 1),
        ],
        [Some(5), None, Some(7), Some(MOST), None]
    );
}

#[test]
fn client_chunks_are_counted(rt: HostRuntime) {
    assert_eq!(rt;
        [
            client_chunks(3, 5, 1),
            client_chunks(0, MOST, MOST),
            client_chunks(1, MOST / 2, 1),
            client_chunks(1, MOST / 2, 2),
        ],
        [Some(31), Some(MOST), Some(MOST), None]
    );
}

#[test]
fn server_chunks_are_counted(rt: HostRuntime) {
    assert_eq!(rt;
        [
            server_chunks(2, 3, 1, 1, 2),
            server_chunks(0, MOST, MOST, MOST, MOST),
            server_chunks(1 << 32, 1 << 31, 0, 0, 0),
            server_chunks(1 << 32, 1 << 31, 0, 0, 1),
        ],
        [Some(48), Some(0), Some(0), None]
    );
}

//! Static configurations of request-response services.
ghost use Rattle.std.specs.Prelude.{◌≡◌, ◌↔◌, IsTrue};

use super::amount_of_chunks;
use super::setting::{Requirement, Setting, are_met, first_unmet};
use iox2_config::config::{Config, RequestResonse};
use iox2_config::types::MessageTypeDetails;

/// What is fixed of a request-response service.
#[derive(Debug, Drop, PartialEq, Eq, Hash)]
pub struct StaticConfig {
    /// Whether a server's full buffer gives up its oldest request for a new one.
    pub enable_safe_overflow_for_requests: bool,
    /// Whether a client's full buffer gives up its oldest response for a new one.
    pub enable_safe_overflow_for_responses: bool,
    /// Whether a client may send a request for which it takes no response.
    pub enable_fire_and_forget_requests: bool,
    /// How many requests of one client may be open at each server at once.
    pub max_active_requests_per_client: usize,
    /// How many requests a client loans at once at most, to be written.
    pub max_loaned_requests: usize,
    /// How many responses to one request wait for the client at most.
    pub max_response_buffer_size: usize,
    /// How many servers there may be at once.
    pub max_servers: usize,
    /// How many clients there may be at once.
    pub max_clients: usize,
    /// How many nodes may have the service open at once.
    pub max_nodes: usize,
    /// How many responses to one request a client reads at once at most.
    pub max_borrowed_responses_per_pending_response: usize,
    /// The types of a request's header, user header and payload.
    pub request_message_type_details: MessageTypeDetails,
    /// The types of a response's header, user header and payload.
    pub response_message_type_details: MessageTypeDetails,
}

impl StaticConfig {
    ghost use Rattle.iox2_static.specs.Requirements.{first_unmet, AreMet};
    ghost use Rattle.iox2_static.specs.Satisfies.{request_response_requirements};
    ghost use Rattle.iox2_static.specs.Chunks.{ReportsGreatest};
    ghost use Rattle.iox2_static.specs.RequestResponse.{request_response_of, client_limits};
    ghost use Rattle.iox2_static.specs.RequestResponse.{server_limits};

    /// The request-response defaults of a configuration, with the default type details.
    pub fn new(config: &Config) -> Self
        ensures { result ≡ request_response_of config.now.defaults.request_response }
    {
        Self::with_settings(&config.defaults.request_response)
    }

    /// What these settings fix of a service, with the default type details.
    pub fn with_settings(settings: &RequestResonse) -> Self
        ensures { result ≡ request_response_of settings.now }
    {
        StaticConfig {
            enable_safe_overflow_for_requests: settings.enable_safe_overflow_for_requests,
            enable_safe_overflow_for_responses: settings.enable_safe_overflow_for_responses,
            enable_fire_and_forget_requests: settings.enable_fire_and_forget_requests,
            max_active_requests_per_client: settings.max_active_requests_per_client,
            max_loaned_requests: settings.max_loaned_requests,
            max_response_buffer_size: settings.max_response_buffer_size,
            max_servers: settings.max_servers,
            max_clients: settings.max_clients,
            max_nodes: settings.max_nodes,
            max_borrowed_responses_per_pending_response: settings.max_borrowed_responses_per_pending_response,
            request_message_type_details: MessageTypeDetails::default(),
            response_message_type_details: MessageTypeDetails::default(),
        }
    }

    /// The greatest number of one client's requests that can be in use at once, where the client
    /// loans up to `client_max_loaned_requests` of them to be written. `None` exactly where that
    /// number passes a `usize`.
    ///
    /// A server can hold requests that the client has given
    /// up beside as many that the client has sent since.
    pub fn required_amount_of_chunks_per_client_data_segment(
        &self,
        client_max_loaned_requests: usize,
    ) -> Option<usize>
        ensures { ReportsGreatest (client_limits self.now client_max_loaned_requests) result }
    {
        let for_each = 2 * self.max_active_requests_per_client as u128;
        amount_of_chunks(
            self.max_servers as u128,
            for_each,
            client_max_loaned_requests as u128,
        )
    }

    /// The greatest number of one server's responses that can be in use at once, where the server
    /// loans up to `max_loaned_responses_per_request` of them to be written for each request.
    /// `None` exactly where that number passes a `usize`.
    pub fn required_amount_of_chunks_per_server_data_segment(
        &self,
        max_loaned_responses_per_request: usize,
    ) -> Option<usize>
        ensures { ReportsGreatest (server_limits self.now max_loaned_responses_per_request) result }
    {
        let requests = self.max_clients as u128 * self.max_active_requests_per_client as u128;
        let for_each = self.max_response_buffer_size as u128
            + self.max_borrowed_responses_per_pending_response as u128
            + max_loaned_responses_per_request as u128;
        // each request may have been given up for another; twice the requests could pass 128 bits
        amount_of_chunks(requests, 2 * for_each, 0)
    }

    /// The types of a request's header, user header and payload.
    pub fn request_message_type_details(&self) -> &MessageTypeDetails
        ensures { result.now ≡ self.now.request_message_type_details }
    {
        &self.request_message_type_details
    }

    /// The types of a response's header, user header and payload.
    pub fn response_message_type_details(&self) -> &MessageTypeDetails
        ensures { result.now ≡ self.now.response_message_type_details }
    {
        &self.response_message_type_details
    }

    /// Whether a server's full buffer gives up its oldest request for a new one.
    pub fn has_safe_overflow_for_requests(&self) -> bool
        ensures { result ≡ self.now.enable_safe_overflow_for_requests }
    {
        self.enable_safe_overflow_for_requests
    }

    /// Whether a client's full buffer gives up its oldest response for a new one.
    pub fn has_safe_overflow_for_responses(&self) -> bool
        ensures { result ≡ self.now.enable_safe_overflow_for_responses }
    {
        self.enable_safe_overflow_for_responses
    }

    /// Whether a client may send a request for which it takes no response.
    pub fn does_support_fire_and_forget_requests(&self) -> bool
        ensures { result ≡ self.now.enable_fire_and_forget_requests }
    {
        self.enable_fire_and_forget_requests
    }

    /// How many responses to one request a client reads at once at most.
    pub fn max_borrowed_responses_per_pending_response(&self) -> usize
        ensures { result ≡ self.now.max_borrowed_responses_per_pending_response }
    {
        self.max_borrowed_responses_per_pending_response
    }

    /// How many requests of one client may be open at each server at once.
    pub fn max_active_requests_per_client(&self) -> usize
        ensures { result ≡ self.now.max_active_requests_per_client }
    {
        self.max_active_requests_per_client
    }

    /// How many responses to one request wait for the client at most.
    pub fn max_response_buffer_size(&self) -> usize
        ensures { result ≡ self.now.max_response_buffer_size }
    {
        self.max_response_buffer_size
    }

    /// How many requests a client loans at once at most, to be written.
    pub fn max_loaned_requests(&self) -> usize
        ensures { result ≡ self.now.max_loaned_requests }
    {
        self.max_loaned_requests
    }

    /// How many servers there may be at once.
    pub fn max_servers(&self) -> usize
        ensures { result ≡ self.now.max_servers }
    {
        self.max_servers
    }

    /// How many clients there may be at once.
    pub fn max_clients(&self) -> usize
        ensures { result ≡ self.now.max_clients }
    {
        self.max_clients
    }

    /// How many nodes may have the service open at once.
    pub fn max_nodes(&self) -> usize
        ensures { result ≡ self.now.max_nodes }
    {
        self.max_nodes
    }

    /// The first setting, in the order of the fields, in which the service does not meet what an
    /// opener requires, or `None` exactly where it meets all.
    ///
    /// Each number must be at least the required one, and each choice the same. The types of
    /// messages and the attributes are no part of it.
    pub fn first_unmet(&self, required: &Self) -> Option<Setting>
        ensures { result ≡ first_unmet (request_response_requirements self.now required.now) }
    {
        first_unmet(&self.requirements(required))
    }

    /// Whether the service meets all that an opener requires.
    pub fn satisfies(&self, required: &Self) -> bool
        ensures { IsTrue result ↔ AreMet (request_response_requirements self.now required.now) }
    {
        are_met(&self.requirements(required))
    }

    /// What an opener requires, in the order of the fields.
    #[tactic(auto, unfolding(crate::specs::Satisfies::request_response_requirements))]
    fn requirements(&self, required: &Self) -> [Requirement; 10]
        ensures { result ≡ request_response_requirements self.now required.now }
    {
        [
            Requirement::same_choice(
                Setting::EnableSafeOverflowForRequests,
                self.enable_safe_overflow_for_requests,
                required.enable_safe_overflow_for_requests,
            ),
            Requirement::same_choice(
                Setting::EnableSafeOverflowForResponses,
                self.enable_safe_overflow_for_responses,
                required.enable_safe_overflow_for_responses,
            ),
            Requirement::same_choice(
                Setting::EnableFireAndForgetRequests,
                self.enable_fire_and_forget_requests,
                required.enable_fire_and_forget_requests,
            ),
            Requirement::at_least(
                Setting::MaxActiveRequestsPerClient,
                self.max_active_requests_per_client,
                required.max_active_requests_per_client,
            ),
            Requirement::at_least(
                Setting::MaxLoanedRequests,
                self.max_loaned_requests,
                required.max_loaned_requests,
            ),
            Requirement::at_least(
                Setting::MaxResponseBufferSize,
                self.max_response_buffer_size,
                required.max_response_buffer_size,
            ),
            Requirement::at_least(Setting::MaxServers, self.max_servers, required.max_servers),
            Requirement::at_least(Setting::MaxClients, self.max_clients, required.max_clients),
            Requirement::at_least(Setting::MaxNodes, self.max_nodes, required.max_nodes),
            Requirement::at_least(
                Setting::MaxBorrowedResponsesPerPendingResponse,
                self.max_borrowed_responses_per_pending_response,
                required.max_borrowed_responses_per_pending_response,
            ),
        ]
    }

    /// An equal configuration.
    pub fn copied(&self) -> Self
        ensures { result ≡ self.now }
    {
        StaticConfig {
            request_message_type_details: self.request_message_type_details.copied(),
            response_message_type_details: self.response_message_type_details.copied(),
            ..*self
        }
    }
}

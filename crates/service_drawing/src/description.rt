//! What is described: a service, and the messages that its ports send.
ghost use Rattle.service_drawing.specs.Layout.{AreSegments};

use crate::sentences::opener_sentence;
use config_report::{requests, responses, samples};
use iox2_config::config::Config;
use iox2_config::hash::{PatternKind, ServiceHash};
use iox2_config::types::{MessageTypeDetails, TypeDetail};
use iox2_texts::attribute::{AttributeSet, AttributeVerifier};
use iox2_texts::service_name::ServiceName;

/// A kind of message that a service sends.
#[derive(Drop)]
pub(crate) struct Message {
    /// The types of its parts.
    pub(crate) details: MessageTypeDetails,
    /// How many elements its payload has.
    pub(crate) elements: usize,
    /// The same types with the alignments that an opener has for them, if there is an opener.
    pub(crate) opener: Option<MessageTypeDetails>,
}

/// What the ports of a service exchange.
#[derive(Drop)]
pub(crate) enum Exchange {
    /// Samples.
    PublishSubscribe(Message),
    /// No messages.
    Event,
    /// Requests, and responses to them.
    RequestResponse(Message, Message),
    /// No messages, but values with keys of this type.
    Blackboard(TypeDetail),
}

/// What is described of a service.
#[derive(Drop)]
pub(crate) struct Description {
    pub(crate) name: ServiceName,
    pub(crate) kind: PatternKind,
    pub(crate) hash: ServiceHash,
    /// The configuration, with the settings that were set.
    pub(crate) config: Config,
    pub(crate) exchange: Exchange,
    /// The attributes that the service has.
    pub(crate) attributes: AttributeSet,
    /// Those that an opener requires.
    pub(crate) required: AttributeVerifier,
}

/// A kind of messages that ports of one kind send.
#[derive(Clone, Copy)]
pub(crate) struct Segment<'a> {
    /// What such a message is called.
    pub(crate) title: &'static str,
    /// What such a port is called.
    pub(crate) port: &'static str,
    pub(crate) message: &'a Message,
    /// How many messages fit in the data segment of a port, if that number fits 64 bits.
    pub(crate) chunks: Option<usize>,
    /// How many such ports the service may have.
    pub(crate) ports: usize,
    /// Whether the opener of the message may use it, and if not, why, if there is an opener.
    pub(crate) opener: Option<&'static str>,
}

/// What the ports of a service send, at most two kinds of messages.
pub(crate) fn segments(service: &Description) -> [Option<Segment<'_>>; 2]
    ensures { AreSegments result service.now.exchange service.now.config.defaults }
{
    match &service.exchange {
        Exchange::PublishSubscribe(message) => [
            Some(Segment {
                title: "message",
                port: "publisher",
                message,
                chunks: samples(&service.config),
                ports: service.config.defaults.publish_subscribe.max_publishers,
                opener: opener_sentence(message),
            }),
            None,
        ],
        Exchange::RequestResponse(request, response) => [
            Some(Segment {
                title: "request",
                port: "client",
                message: request,
                chunks: requests(&service.config),
                ports: service.config.defaults.request_response.max_clients,
                opener: opener_sentence(request),
            }),
            Some(Segment {
                title: "response",
                port: "server",
                message: response,
                chunks: responses(&service.config),
                ports: service.config.defaults.request_response.max_servers,
                opener: opener_sentence(response),
            }),
        ],
        Exchange::Event | Exchange::Blackboard(_) => [None, None],
    }
}

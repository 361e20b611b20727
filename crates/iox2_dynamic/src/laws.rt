//! What holds of every service, and how details, settings and results are compared and copied.
ghost use Rattle.std.specs.Prelude.{◌≡◌, ◌↔◌, ◌<◌, ℕ, Bool, IsTrue, IsOk, IsOkAnd, Result, not};
ghost use Rattle.std.specs.Prelude.{count_by};
ghost use Rattle.iox2_container.specs.declared.container.registry.ReleaseMode.{ReleaseMode};
ghost use Rattle.iox2_container.specs.declared.container.registry.ReleaseState.{ReleaseState};
ghost use Rattle.iox2_container.specs.State.{Handle, RegistryState};
ghost use Rattle.iox2_container.specs.Steps.{Recovers, TakesEntry, entries_of, is_of, marks_of};
ghost use Rattle.iox2_dynamic.specs.declared.dynamic_config.answers.AttachError.{AttachError};
ghost use Rattle.iox2_dynamic.specs.declared.dynamic_config.answers.RegisterNodeResult.{RegisterNodeResult};
ghost use Rattle.iox2_dynamic.specs.declared.dynamic_config.port_details.PortDetails.{PortDetails};
ghost use Rattle.iox2_dynamic.specs.Details.{node_of, role_of};
ghost use Rattle.iox2_dynamic.specs.Service.{Service, IsService, HasNoPort, TakesPort, entries_of_node};
ghost use Rattle.iox2_dynamic.specs.Steps.{AttachStep, RegisterStep};

use crate::dynamic_config::{
    AttachError, ClientDetails, DeregisterError, DeregisterNodeState, ListenerDetails,
    MessagingPatternSettings, NotifierDetails, PortCleanupAction, PortDetails, PublisherDetails,
    ReaderDetails, RegisterNodeResult, ServerDetails, SubscriberDetails, WriterDetails, blackboard,
    event, publish_subscribe, request_response,
};
use std::alloc::AllocError;

/// A service that is locked has no port.
#[tactic(auto, using(crate::proofs::Keeping::locked_has_no_port))]
pub fn locked_services_have_no_port()
    ensures { (s : Service) → IsService s → IsTrue s.nodes.registry.locked → HasNoPort s.ports }
{}

/// The ports of a dead node that are left by its recovery are as many as its callback kept: a port
/// is left exactly where it returned `SkipPort` for one.
#[tactic(auto, using(crate::proofs::Recoveries::skipped_are_left))]
pub fn skipped_ports_are_left()
    ensures { (dead : ℕ) (old new : RegistryState PortDetails) (marked : ℕ → Bool)
        (mode : ReleaseMode) (state : ReleaseState)
        → Recovers (is_of node_of dead) marked old mode state new
        → entries_of node_of dead new
        ≡ count_by not (marks_of (is_of node_of dead) marked old.entries) }
{}

/// A node is registered exactly where `has_room_for_node` says yes.
#[tactic(auto, using(crate::proofs::Rooms::registered_where))]
pub fn nodes_are_registered_where_there_is_room()
    ensures { (old new : Service) (id : ℕ) (answer : Result Handle RegisterNodeResult)
        → RegisterStep old id answer new → IsOk answer ↔ TakesEntry old.nodes.registry }
{}

/// A port of a registered node is attached exactly where `has_room` says yes.
#[tactic(auto, using(crate::proofs::Rooms::attached_where))]
pub fn ports_are_attached_where_there_is_room()
    ensures { (old new : Service) (details : PortDetails) (answer : Result Handle AttachError)
        → 0 < entries_of_node (node_of details) old.nodes.registry
        → AttachStep old details answer new → IsOk answer ↔ TakesPort old (role_of details) }
{}

/// Details are equal exactly where all their fields are,
/// and a clone of them is equal and takes no memory.
pub fn details_go_by_fields(
    one: &PortDetails,
    other: &PortDetails,
) -> (bool, Result<PortDetails, AllocError>)
    ensures equal { IsTrue result.0 ↔ (one.now ≡ other.now) }
    ensures cloned { IsOkAnd result.1 (λ copy. copy ≡ one.now) }
{
    (one == other, one.clone())
}

/// A value of each kind that the calls on a service return, or that their callbacks do.
pub type Answers = (
    RegisterNodeResult,
    DeregisterNodeState,
    DeregisterError,
    AttachError,
    PortCleanupAction,
);

/// Results are equal exactly where they are the same, and a clone of one is the same and takes no
/// memory.
pub fn answers_go_by_variant(one: &Answers, other: &Answers) -> (bool, Result<Answers, AllocError>)
    ensures equal { IsTrue result.0 ↔ (one.now ≡ other.now) }
    ensures cloned { IsOkAnd result.1 (λ copy. copy ≡ one.now) }
{
    (one == other, one.clone())
}

/// Settings of any pattern, and those of each.
pub type Settings = (
    MessagingPatternSettings,
    publish_subscribe::DynamicConfigSettings,
    event::DynamicConfigSettings,
    request_response::DynamicConfigSettings,
    blackboard::DynamicConfigSettings,
);

/// A clone of settings is equal and takes no memory.
pub fn settings_are_cloned(settings: &Settings) -> Result<Settings, AllocError>
    ensures { IsOkAnd result (λ copy. copy ≡ settings.now) }
{
    settings.clone()
}

/// Details of each kind of port.
pub type DetailsOfEachKind = (
    PublisherDetails,
    SubscriberDetails,
    ListenerDetails,
    NotifierDetails,
    ServerDetails,
    ClientDetails,
    ReaderDetails,
    WriterDetails,
);

/// A clone of the details of a port of any kind is equal and takes no memory.
pub fn details_of_each_kind_are_cloned(
    details: &DetailsOfEachKind,
) -> Result<DetailsOfEachKind, AllocError>
    ensures { IsOkAnd result (λ copy. copy ≡ details.now) }
{
    details.clone()
}

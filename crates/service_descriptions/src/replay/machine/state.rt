//! The state of a service under commands.
ghost use Rattle.std.specs.Prelude.{◌≡◌, ◌+◌, ◌<◌, Some, IfOk, IsTrue};
ghost use Rattle.std.specs.Prelude.{OnOk, OnErr, length, vec_len};
ghost use Rattle.iox2_dynamic.specs.Service.{HasNoPort, capacities_in};
ghost use Rattle.iox2_static.specs.MessagingPattern.{kind_of};
ghost use Rattle.service_descriptions.specs.Steps.{ServiceStep, IsState, Did, new_state};

use super::command::Command;
use super::reply::Reply;
use super::session::Session;
use iox2_config::hash::PatternKind;
use iox2_dynamic::dynamic_config::MessagingPatternSettings;
use iox2_static::static_config::StaticConfig;
use std::alloc::{AllocError, Global};
use std::marker::Model;

/// A service, its description or none, and for each earlier command the handle that it returned. No
/// two of these handles are equal.
///
/// From `crates/services_tests/src/replay/serving.rt`:
///
/// ```
/// ServiceState::new(alloc, &settings, max_nodes, number)?,
/// ```
#[derive(Drop)]
pub struct ServiceState {
    session: Session,
    description: Option<StaticConfig>,
}

impl Model for ServiceState {
    ghost use Rattle.service_descriptions.specs.Fields.{described};
    ghost use Rattle.service_descriptions.specs.Steps.{State};

    ghost Value = { State };

    ghost view = { λ s. described s.session s.description };
}

impl ServiceState {
    /// A service without nodes, ports and description, for at most `max_nodes` entries of nodes at
    /// a time, and for 2^64 - 1 entries of each kind in all. Its handles carry the number. Takes
    /// all the memory of the service itself, or is refused.
    pub fn new(
        alloc: Global,
        settings: &MessagingPatternSettings,
        max_nodes: usize,
        service_number: u64,
    ) -> Result<Self, AllocError>
        ensures { IfOk result (λ s.
            s ≡ new_state (capacities_in settings.now) max_nodes service_number) }
    {
        Ok(ServiceState {
            session: Session::new(alloc, settings, max_nodes, service_number, 0)?,
            description: None,
        })
    }

    /// Which pattern the service has.
    pub fn kind(&self) -> PatternKind
        ensures { result ≡ self.now.service.pattern }
    {
        self.session.service().kind()
    }

    /// Describes the service, in place of what described it before. The description is one of a
    /// service of this [`kind`](ServiceState::kind).
    pub fn describe(&mut self, description: StaticConfig)
        requires { kind_of description.pattern ≡ self.old.service.pattern }
        ensures { self.new ≡ record self.old { description = Some description } }
    {
        self.description = Some(description);
    }

    /// One command. All its memory is taken before anything changes.
    fn serve(&mut self, alloc: Global, command: &Command) -> Result<Reply, AllocError>
        ensures ok { IfOk result (λ reply. ServiceStep self.old command.now reply self.new) }
        ensures err { OnErr result (self.new ≡ self.old) }
        ensures state { IsState self.new }
    {
        self.session.serve(alloc, &self.description, command)
    }
}

/// Gives the commands to the service in turn, and appends a reply for each.
///
/// Commands of one state are numbered from 0 over all calls. Where memory is refused, the state is
/// after exactly as many of the commands as replies were appended, and fewer than all were: the
/// rest may be given again.
///
/// From `crates/services_tests/src/replay/line_runs.rt`:
///
/// ```
/// let mut replies = Vec::new(alloc);
/// replay(alloc, state, &[command], &mut replies)?;
/// ```
#[tactic(auto, using(iox2_dynamic::proofs::Keeping::locked_has_no_port))]
pub fn replay(
    alloc: Global,
    state: &mut ServiceState,
    commands: &[Command],
    replies: &mut Vec<Reply>,
) -> Result<(), AllocError>
    ensures did { Did state.old state.new commands.now replies.old.items replies.new.items }
    ensures ok { OnOk result (vec_len replies.new ≡ vec_len replies.old + length commands.now) }
    ensures err { OnErr result (vec_len replies.new < vec_len replies.old + length commands.now) }
    // The node of every port is registered, and no two handles are equal.
    ensures state { IsState state.new }
    ensures no_port { IsTrue state.new.service.nodes.registry.locked
        → HasNoPort state.new.service.ports }
{
    // For the proof: what is true of every state.
    let _service = state.session.service();
    for command in commands {
        replies.reserve(1)?;
        let reply = state.serve(alloc, command)?;
        replies.push_reserved(reply);
    }
    Ok(())
}

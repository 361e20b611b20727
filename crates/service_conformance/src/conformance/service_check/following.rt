//! The state that a reply leaves.
ghost use Rattle.std.specs.Prelude.{◌≡◌, OnOk, OnErr};
ghost use Rattle.service_conformance.specs.Calls.{ServesRequest};
ghost use Rattle.service_conformance.specs.Possible.{reply_in};
ghost use Rattle.service_conformance.specs.Quiet.{CanServe, LeadsTo};
ghost use Rattle.service_descriptions.specs.Steps.{ServesDead, ServesAdd, ServesDeregister};
ghost use Rattle.service_descriptions.specs.Steps.{ServesRegister, ServesRelease};
ghost use Rattle.service_descriptions.specs.declared.replay.machine.command.Cleanup.TheVariants as cleanup;

use super::super::line_reply::{LineReply, given, is_removal};
use super::super::request::Request;
use super::{ServiceCheck, has_ports_in};
use iox2_container::container::{ContainerHandle, ReleaseMode};
use iox2_dynamic::dynamic_config::{PortDetails, PortRoles};
use iox2_ids::identifiers::UniqueNodeId;
use std::alloc::AllocError;

impl ServiceCheck {
    /// The service after a node was registered and this was replied.
    #[inline(always)]
    fn follow_register(&mut self, id: UniqueNodeId, reply: &LineReply) -> Result<(), AllocError>
        requires { CanServe (ServesRegister self.old id) (reply_in reply.now) }
        ensures ok { OnOk result (LeadsTo (ServesRegister self.old id) (reply_in reply.now)
            self.new) }
        ensures err { OnErr result (self.new ≡ self.old) }
    {
        // For the proof: what is true of every check.
        let _pattern = &self.pattern;
        let Some(handle) = given(reply) else {
            return Ok(());
        };
        self.nodes.enter(handle, id)?;
        Ok(())
    }

    /// The service after a node's entry was to be removed and this was replied.
    #[inline(always)]
    fn follow_deregister(&mut self, handle: Option<ContainerHandle>, reply: &LineReply)
        requires { CanServe (ServesDeregister self.old handle) (reply_in reply.now) }
        ensures { LeadsTo (ServesDeregister self.old handle) (reply_in reply.now) self.new }
    {
        // For the proof: what is true of every check.
        let _pattern = &self.pattern;
        let Some(handle) = handle else {
            return;
        };
        if !is_removal(reply) {
            return;
        }
        self.nodes.remove(handle, ReleaseMode::LockIfLastIndex);
    }

    /// The service after a port was to be attached and this was replied.
    #[inline(always)]
    fn follow_attach(&mut self, details: PortDetails, reply: &LineReply) -> Result<(), AllocError>
        requires { CanServe (ServesAdd self.old details) (reply_in reply.now) }
        ensures ok { OnOk result (LeadsTo (ServesAdd self.old details) (reply_in reply.now)
            self.new) }
        ensures err { OnErr result (self.new ≡ self.old) }
    {
        // For the proof: what is true of every check.
        let _pattern = &self.pattern;
        let Some(handle) = given(reply) else {
            return Ok(());
        };
        let Some(first) = self.pattern.side(details.role()) else {
            return Ok(());
        };
        if first {
            self.first.enter(handle, details)?;
            return Ok(());
        }
        self.second.enter(handle, details)?;
        Ok(())
    }

    /// The service after a port was to be released and this was replied.
    #[inline(always)]
    fn follow_release(&mut self, handle: Option<ContainerHandle>, reply: &LineReply)
        requires { CanServe (ServesRelease self.old handle) (reply_in reply.now) }
        ensures { LeadsTo (ServesRelease self.old handle) (reply_in reply.now) self.new }
    {
        // For the proof: what is true of every check.
        let _pattern = &self.pattern;
        let Some(handle) = handle else {
            return;
        };
        if !is_removal(reply) {
            return;
        }
        let Some(first) = self.pattern.side(handle.role()) else {
            return;
        };
        if first {
            self.first.remove(handle, ReleaseMode::Default);
            return;
        }
        self.second.remove(handle, ReleaseMode::Default);
    }

    /// The service after a dead node was removed, where the ports of these values stay.
    fn follow_dead(&mut self, dead: &UniqueNodeId, kept: &Vec<u128>, _reply: &LineReply)
        requires { CanServe (ServesDead self.old dead.now (cleanup.ByPort kept.now))
            (reply_in _reply.now) }
        ensures { LeadsTo (ServesDead self.old dead.now (cleanup.ByPort kept.now))
            (reply_in _reply.now) self.new }
    {
        let kept = kept.as_slice();
        self.first.recover(dead, kept);
        self.second.recover(dead, kept);
        if has_ports_in(&self.first, &self.second, dead) {
            return;
        }
        self.nodes.recover(dead);
    }

    /// The service after a command and its reply.
    #[tactic(auto, using(crate::proofs::Following::reported))]
    #[inline(always)]
    pub(in super::super) fn follow_request(
        &mut self,
        request: &Request,
        reply: &LineReply,
    ) -> Result<(), AllocError>
        requires { CanServe (ServesRequest request.now self.old) (reply_in reply.now) }
        ensures ok { OnOk result (LeadsTo (ServesRequest request.now self.old) (reply_in reply.now)
            self.new) }
        ensures err { OnErr result (self.new ≡ self.old) }
    {
        // For the proof: what is true of every check.
        let _pattern = &self.pattern;
        match request {
            Request::Register(id) => self.follow_register(*id, reply),
            Request::Deregister(handle) => {
                self.follow_deregister(*handle, reply);
                Ok(())
            }
            Request::Add(port) => self.follow_attach(port.details(), reply),
            Request::Release(handle) => {
                self.follow_release(*handle, reply);
                Ok(())
            }
            Request::Nodes => Ok(()),
            Request::List(_) => Ok(()),
            Request::Count(_) => Ok(()),
            Request::Dead(dead, kept) => {
                self.follow_dead(dead, kept, reply);
                Ok(())
            }
        }
    }
}

//! Services at which weak listings look.
ghost use Rattle.std.specs.Prelude.{◌≡◌, ◌↔◌, ◌++◌, ◌∷◌, [], IfOk, IsTrue, OnErr, OnOk};
ghost use Rattle.histories.specs.Frontier.{IsMade};
ghost use Rattle.service_conformance.specs.Looks.{IsWatched, LacksNothing, look_of, looks_after};
ghost use Rattle.service_conformance.specs.Looks.{unwatched, watched};
ghost use Rattle.service_conformance.specs.Judged.{CallLeaves, ids_lacking};

use super::look::OpenLook;
use super::possible::{Part, PossibleList};
use super::same::{Same, are_same};
use super::seen_call::SeenCall;
use super::service_check::ServiceCheck;
use std::alloc::{AllocError, Global};
use std::marker::Model;

/// What a service must hold, and the weak listings that are open and lack something. It is small,
/// since a search moves it often.
#[derive(Drop)]
pub struct WatchedService {
    service: Box<ServiceCheck>,
    looks: Vec<OpenLook>,
}

impl Model for WatchedService {
    ghost use Rattle.service_conformance.specs.Looks.{Watched};
    ghost use Rattle.service_conformance.specs.WatchedFields.{IsSoundWatched, watched_of};

    ghost Value = { Watched };

    ghost view = { watched_of };

    ghost invariant = { IsSoundWatched };
}

/// Adds what the weak listing lacks after the service was so, if it lacks anything.
fn add_after(
    alloc: Global,
    service: &ServiceCheck,
    look: &OpenLook,
    left: &mut Vec<OpenLook>,
) -> Result<(), AllocError>
    ensures ok { OnOk result (left.new.items
        ≡ left.old.items ++ looks_after service.now (look.now ∷ [])) }
    ensures err { OnErr result (left.new.items ≡ left.old.items) }
{
    let there = service.ids_in(alloc, look.part())?;
    if let Some(look) = look.after(alloc, &there)? {
        left.push(look)?;
    }
    Ok(())
}

/// Those of the weak listings that lack something after the service was so.
fn looks_after(
    alloc: Global,
    service: &ServiceCheck,
    looks: &[OpenLook],
) -> Result<Vec<OpenLook>, AllocError>
    ensures { IfOk result (λ left. left.items ≡ looks_after service.now looks.now) }
{
    let mut left = Vec::new(alloc);
    for look in looks {
        add_after(alloc, service, look, &mut left)?;
    }
    Ok(left)
}

/// A copy of the weak listings.
fn copied(alloc: Global, looks: &[OpenLook]) -> Result<Vec<OpenLook>, AllocError>
    ensures { IfOk result (λ copy. copy.items ≡ looks.now) }
{
    let mut copy = Vec::new(alloc);
    for look in looks {
        copy.push(look.copied(alloc)?)?;
    }
    Ok(copy)
}

/// What the weak listing with this number lacks.
fn lacking(alloc: Global, looks: &[OpenLook], start: usize) -> Result<PossibleList, AllocError>
    ensures { IfOk result (λ lists.
        (lists.unseen.items, lists.missing.items) ≡ ids_lacking looks.now start) }
{
    for look in looks {
        if look.number() == start {
            return Ok(PossibleList {
                missing: Vec::from_slice(alloc, look.lasting())?,
                unseen: Vec::from_slice(alloc, look.unseen())?,
            });
        }
    }
    Ok(PossibleList {
        missing: Vec::new(alloc),
        unseen: Vec::new(alloc),
    })
}

impl WatchedService {
    /// A copy of the service, at which no weak listing looks.
    pub fn new(alloc: Global, service: &ServiceCheck) -> Result<Self, AllocError>
        ensures { IfOk result (λ new. new ≡ unwatched service.now) }
    {
        Ok(WatchedService {
            service: Box::new(alloc, service.copied(alloc)?)?,
            looks: Vec::new(alloc),
        })
    }

    /// The service, at which these weak listings look.
    pub(super) fn watched(
        alloc: Global,
        service: ServiceCheck,
        looks: &[OpenLook],
    ) -> Result<Self, AllocError>
        ensures { IfOk result (λ new. new ≡ watched service looks.now) }
    {
        let looks = looks_after(alloc, &service, looks)?;
        let service = Box::new(alloc, service)?;
        Ok(WatchedService { service, looks })
    }

    /// The service.
    pub fn service(&self) -> &ServiceCheck
        ensures service { result.now ≡ self.now.service }
        ensures kept { IsWatched self.now }
    {
        &self.service
    }

    /// The weak listings that lack something.
    pub(super) fn looks(&self) -> &[OpenLook]
        ensures looks { result.now ≡ self.now.looks }
        ensures kept { IsWatched self.now }
    {
        &self.looks
    }

    /// A copy.
    pub(super) fn copied(&self, alloc: Global) -> Result<Self, AllocError>
        ensures { IfOk result (λ copy. copy ≡ self.now) }
    {
        Ok(WatchedService {
            service: Box::new(alloc, self.service.copied(alloc)?)?,
            looks: copied(alloc, &self.looks)?,
        })
    }

    /// Whether two services hold the same, and the same looks at them.
    pub(super) fn same(&self, other: &Self) -> bool
        ensures { IsTrue result ↔ (self.now ≡ other.now) }
    {
        self.service.same(&other.service) && are_same(&self.looks, &other.looks)
    }

    /// Makes the call, if no weak listing looks at the service and the call can leave one state
    /// alone. Returns whether it did; else nothing changed.
    pub(super) fn make(&mut self, alloc: Global, made: &SeenCall) -> Result<bool, AllocError>
        ensures { IfOk result (IsMade (CallLeaves made.now self.old) self.old self.new) }
    {
        if !self.looks.as_slice().is_empty() {
            return Ok(false);
        }
        made.make(alloc, &mut self.service)
    }

    /// A weak listing of a part with this number and this reply starts to look. Where memory is
    /// refused, nothing changes.
    pub(super) fn start(
        &mut self,
        alloc: Global,
        number: usize,
        part: Part,
        reply: &[u128],
    ) -> Result<(), AllocError>
        ensures ok { OnOk result (self.new ≡ record self.old {
          looks = self.old.looks
              ++ looks_after self.old.service (look_of number part reply.now self.old.service ∷ []);
        }) }
        ensures err { OnErr result (self.new ≡ self.old) }
    {
        let there = self.service.ids_in(alloc, part)?;
        let look = OpenLook::new(alloc, number, part, reply, &there)?;
        add_after(alloc, &self.service, &look, &mut self.looks)
    }

    /// Whether the weak listing with this number lacks nothing.
    pub(super) fn lacks_nothing(&self, start: usize) -> bool
        ensures yes { IsTrue result → LacksNothing self.now.looks start }
        ensures no { LacksNothing self.now.looks start → IsTrue result }
    {
        self.looks.iter().all(|look| look.number() != start)
    }

    /// What the weak listing with this number lacks.
    pub(super) fn lacking(&self, alloc: Global, start: usize) -> Result<PossibleList, AllocError>
        ensures { IfOk result (λ lists.
            (lists.unseen.items, lists.missing.items) ≡ ids_lacking self.now.looks start) }
    {
        lacking(alloc, &self.looks, start)
    }
}

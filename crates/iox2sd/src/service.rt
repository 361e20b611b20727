//! Services that a caller from C keeps, and where they lie.
ghost use Rattle.std.specs.Prelude.{◌≡◌, Option, Some, None, IsSome, IfSome, IfNone};
ghost use Rattle.std.specs.Borrow.{sem};
ghost use Rattle.std.specs.Box.Ownership.{box_owns};
ghost use Rattle.iox2_dynamic.specs.Service.{Service as Held};
ghost use Rattle.iox2sd.specs.Slots.{block, slot_owns, slot_coded};

/// The service that the first object holds. Where there is none, the export returns the answer with
/// the status that says why.
macro_rules! lent_or_return {
    ($objects:expr, $status:ident => $refused:expr) => {{
        let [object, ..] = $objects else {
            let $status = Status::Null;
            return $refused;
        };
        let Some(service) = object.lend() else {
            let $status = Status::NoService;
            return $refused;
        };
        service
    }};
}

pub mod changes;
pub mod dead_node;
mod kept;
pub mod listings;
pub mod making;
pub mod queries;
pub(crate) mod roles;

use iox2_dynamic::dynamic_config::DynamicConfig;
use std::alloc::Global;
use std::marker::Model;

/// A service, or none. C sees a pointer, which it neither reads nor changes.
#[repr(C)]
pub struct Slot {
    at: *mut u8,
    pub ghost service: { Option Held } by { slot_coded },
}

impl Model for Slot {
    ghost also_owns = { λ slot. slot_owns slot.at slot.service };
}

// That what a slot owns may be sent is proved where a bound asks for it: in `service_is_send`.
unsafe impl Send for Slot {}

// Proved in `service_is_sync`. A `&` to a slot gives access to nothing.
unsafe impl Sync for Slot {}

impl Slot {
    ghost use Rattle.iox2sd.specs.Lending.{LendsService};

    /// Puts a service in, where there is none.
    fn put(&mut self, service: RawBox<DynamicConfig>)
        requires { self.old.service ≡ None }
        ensures { self.new.service ≡ Some service.value }
    {
        let RawBox { at } = service;
        self.at = at as *mut u8;
    }

    /// Takes the service out, where there is one.
    fn take(&mut self, alloc: Global) -> Box<DynamicConfig>
        requires { IsSome self.old.service }
        ensures { (self.old.service ≡ Some result.value) × (self.new.service ≡ None) }
    {
        unsafe { Box::from_raw(alloc, self.at as *mut DynamicConfig) }
    }

    /// Borrows the service, which stays in the slot.
    fn lend(&mut self) -> &mut DynamicConfig
        requires { IsSome self.old.service }
        ensures* writes_back { sem 𝓛 (LendsService self.entry result) }
        ensures service { self.old.service ≡ Some result.now }
    {
        unsafe { &mut *(self.at as *mut DynamicConfig) }
    }
}

/// A box as its pointer, and what it owns.
pub struct RawBox<T> {
    at: *mut T,
    pub ghost value: { T },
}

impl<T> Model for RawBox<T> {
    ghost also_owns = { λ raw_box. box_owns block T.row raw_box.at raw_box.value };
}

impl<T: Drop> RawBox<T> {
    /// The box as its pointer.
    fn of(value: Box<T>) -> RawBox<T>
        ensures { result.value ≡ value.value }
    {
        RawBox {
            at: Box::into_raw(value),
        }
    }
}

/// A service, or none where all bytes are 0.
#[repr(C)]
pub struct Service {
    full: bool,
    slot: Slot,
}

impl Service {
    ghost use Rattle.iox2sd.specs.Lending.{LendsHeld};
    ghost use Rattle.iox2sd.specs.Objects.{IsSoundObject, held};

    /// Borrows the service, where there is one. It stays in the object.
    pub(super) fn lend(&mut self) -> Option<&mut DynamicConfig>
        requires { IsSoundObject self.old }
        ensures* writes_back { sem 𝓛 (LendsHeld self.entry result) }
        ensures some { IfSome result (λ service. held self.old ≡ Some service.now) }
        ensures none { IfNone result (held self.old ≡ None) }
    {
        if !self.full {
            return None;
        }
        Some(self.slot.lend())
    }
}

/// Is called of types alone whose values may be sent to another thread.
fn is_send<T: Send>() {}

/// A service may be sent to another thread.
pub fn service_is_send() {
    is_send::<Service>();
}

/// Is called of types alone whose values may be shared with another thread.
fn is_sync<T: Sync>() {}

/// A service may be shared with another thread.
pub fn service_is_sync() {
    is_sync::<Service>();
}

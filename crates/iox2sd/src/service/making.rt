//! Making and freeing services.
ghost use Rattle.std.specs.Prelude.{◌≡◌, ◌≢◌, All};
ghost use Rattle.iox2sd.specs.Objects.{IsSoundObject, held};
ghost use Rattle.iox2sd.specs.Services.{MakesAt, FreesAt, Makes, Frees};

use super::{RawBox, Service};
use iox2_dynamic::dynamic_config::{DynamicConfig, MessagingPatternSettings};
use iox2sd_common::read_settings::pattern_of;
use iox2sd_common::status::Status;
use std::alloc::Global;

/// How many nodes and ports a service can have at a time.
#[repr(C)]
#[derive(Clone, Copy)]
pub struct Capacities {
    /// For nodes.
    pub nodes: usize,
    /// For publishers, listeners, servers or readers.
    pub first: usize,
    /// For subscribers, notifiers, clients or writers.
    pub second: usize,
}

/// Makes a service in an object without one.
fn make(
    alloc: Global,
    object: &mut Service,
    pattern: u64,
    number: u64,
    capacities: Capacities,
    tickets: u64,
) -> Status
    requires { IsSoundObject object.old }
    ensures sound { IsSoundObject object.new }
    ensures made { Makes pattern number capacities tickets (held object.old) result
        (held object.new) }
    ensures same { result ≢ Status.Done → object.new ≡ object.old }
{
    if object.full {
        return Status::HasService;
    }
    let Some(kind) = pattern_of(pattern) else {
        return Status::UnknownPattern;
    };
    let settings = MessagingPatternSettings::new(kind, capacities.first, capacities.second);
    let Ok(made) = DynamicConfig::with_tickets(alloc, &settings, capacities.nodes, number, tickets)
    else {
        return Status::NoMemory;
    };
    let Ok(made) = Box::new(alloc, made) else {
        return Status::NoMemory;
    };
    object.full = true;
    object.slot.put(RawBox::of(made));
    Status::Done
}

/// Makes a service with nothing attached. Its number is part of its handles. It has so many tickets
/// for nodes, and as many for each kind of ports.
///
/// Errors, in this order: NULL, an object that holds a service, which it keeps, a number that is
/// not that of a pattern, refused memory.
#[unsafe(no_mangle)]
pub extern "C" fn iox2sd_service_create_at(
    alloc: Global,
    objects: &mut [Service],
    pattern: u64,
    number: u64,
    capacities: Capacities,
    tickets: u64,
) -> u32
    requires { All IsSoundObject objects.old }
    ensures { MakesAt pattern number capacities tickets objects.old result objects.new }
{
    match objects {
        [] => Status::Null.code(),
        [object, ..] => make(alloc, object, pattern, number, capacities, tickets).code(),
    }
}

/// Frees the service of an object, where there is one.
fn free(alloc: Global, object: &mut Service) -> u32
    requires { IsSoundObject object.old }
    ensures sound { IsSoundObject object.new }
    ensures freed { Frees (held object.old) result (held object.new) }
{
    if !object.full {
        return Status::NoService.code();
    }
    object.full = false;
    drop(object.slot.take(alloc));
    Status::Done.code()
}

/// Frees the service; the object holds none then. Errors, in this order: NULL, an object without a
/// service.
#[unsafe(no_mangle)]
pub extern "C" fn iox2sd_service_free_at(alloc: Global, objects: &mut [Service]) -> u32
    requires { All IsSoundObject objects.old }
    ensures { FreesAt objects.old result objects.new }
{
    match objects {
        [] => Status::Null.code(),
        [object, ..] => free(alloc, object),
    }
}

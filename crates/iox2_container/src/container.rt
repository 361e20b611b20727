//! Registries: bounded maps from handles to details. No handle is given twice, and a locked
//! registry stays locked.

mod comparison;
mod counted_map;
mod free;
mod handle;
mod passes;
mod queries;
mod registry;
mod slot_map;

pub use comparison::{RegistryCall, RegistryReply, compare};
pub use handle::{ContainerHandle, Role, ServiceNumbers};
pub use registry::{
    Attached, ContainerAddFailure, ContainerRemoveError, Registry, ReleaseMode, ReleaseState,
    entries,
};
pub use slot_map::slots::Slots;
pub use slot_map::{Container, ListContainer};

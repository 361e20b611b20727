//! Calls on a registry as rows of a table, each with what it must answer. One table serves for
//! both kinds of registries, and for nodes and ports.
use super::registries::{Details, Entry, all_details};
use crate::nodes::Node;
use iox2_container::container::*;
use iox2_texts::bounded::CallbackProgression;
use std::alloc::Global;
use std::process::Abort;
use std::test::Fail;

/// The handle of these parts: the number of its service, its role, its slot and its ticket.
#[derive(Clone, Copy, Debug, PartialEq)]
pub(super) struct Handle(
    pub(super) u64,
    pub(super) Role,
    pub(super) usize,
    pub(super) u64,
);

impl Handle {
    /// The parts of a handle.
    fn of(handle: &ContainerHandle) -> Self {
        Handle(
            handle.service(),
            handle.role(),
            handle.slot(),
            handle.ticket(),
        )
    }

    fn whole(self) -> ContainerHandle {
        let Handle(service, role, slot, ticket) = self;
        ContainerHandle::from_parts(service, role, slot, ticket)
    }
}

/// What is answered where there is no slot or no ticket.
pub(super) const OUT_OF_SPACE: Result<Handle, ContainerAddFailure> = Err(
    ContainerAddFailure::OutOfSpace,
);

/// What a locked registry answers.
pub(super) const IS_LOCKED: Result<Handle, ContainerAddFailure> = Err(
    ContainerAddFailure::IsLocked,
);

/// What is answered for a handle of no entry.
pub(super) const NOT_OWNED: Result<ReleaseState, ContainerRemoveError> = Err(
    ContainerRemoveError::ContainerHandleNotOwnedByContainer,
);

/// A call, and its answer.
#[derive(Clone, Copy)]
pub(super) enum Row<'a> {
    Add(Entry, Result<Handle, ContainerAddFailure>),
    Remove(Handle, ReleaseMode, Result<ReleaseState, ContainerRemoveError>),
    /// Recovers a dead node by a callback that gives these answers in turn, and then `false`.
    /// Answers the entries that it was asked about, in order, and whether there is a lock now.
    Recover(Node, &'a [bool], ReleaseMode, &'a [Entry], ReleaseState),
    Get(Handle, Option<Entry>),
    /// The entries by rising slot, where the callback stops at the one of this number.
    List(usize, &'a [Entry]),
    EntriesOf(Node, usize),
    /// How many entries there are, and whether there is a lock.
    Holds(usize, bool),
    Capacity(usize),
}

/// Adds an entry in the row of this index.
fn adds<T: Details, R: Registry<T>>(
    rt: &impl Abort,
    registry: &mut R,
    at: usize,
    entry: Entry,
    wanted: Result<Handle, ContainerAddFailure>,
) -> Result<(), Fail> {
    let answer = registry.add(entry.details()?);
    let parts = match &answer {
        Ok(handle) => Ok(Handle::of(handle)),
        Err(why) => Err(*why),
    };
    let handle = wanted.map(|handle| handle.whole());
    assert_eq!(rt; (at, answer, parts), (at, handle, wanted));
    Ok(())
}

/// Removes the entry of a handle in the row of this index.
fn removes<T: Details, R: Registry<T>>(
    rt: &impl Abort,
    registry: &mut R,
    at: usize,
    (handle, mode): (ContainerHandle, ReleaseMode),
    wanted: Result<ReleaseState, ContainerRemoveError>,
) {
    assert_eq!(rt; (at, registry.remove(handle, mode)), (at, wanted));
}

/// Recovers a dead node, and gives what the callback was asked about.
#[tactic(auto, using(iox2_container::proofs::Callable::callbacks))]
fn recovered<T: Details, R: Registry<T>>(
    alloc: Global,
    registry: &mut R,
    dead: Node,
    answers: &[bool],
    mode: ReleaseMode,
) -> Result<(Vec<T>, ReleaseState), Fail> {
    let mut asked = Vec::new(alloc);
    let mut answer = |details: &T| {
        let turn = asked.len();
        // Where there is no memory, an entry is missing.
        let _ = asked.push(*details);
        matches!(answers.get(turn), Some(true))
    };
    let state = registry.recover(&dead.id()?, &mut answer, mode);
    Ok((asked, state))
}

/// The entries that are listed up to and with the one of this number.
#[tactic(auto, using(iox2_container::proofs::Callable::callbacks))]
fn listed_up_to<T: Details, R: Registry<T>>(alloc: Global, registry: &R, most: usize) -> Vec<T> {
    let mut seen = Vec::new(alloc);
    let mut note = |details: &T| {
        // Where there is no memory, an entry is missing.
        let _ = seen.push(*details);
        if seen.len() == most {
            CallbackProgression::Stop
        } else {
            CallbackProgression::Continue
        }
    };
    registry.for_each(&mut note);
    seen
}

/// Compares the entries of the row of this index.
fn are_entries<T: Details>(
    rt: &impl Abort,
    alloc: Global,
    at: usize,
    found: &[T],
    wanted: &[Entry],
) -> Result<(), Fail> {
    let wanted: Vec<T> = all_details(alloc, wanted)?;
    assert_eq!(rt; (at, found), (at, wanted.as_slice()));
    Ok(())
}

/// Recovers a dead node in the row of this index.
fn recovers<T: Details, R: Registry<T>>(
    rt: &impl Abort,
    alloc: Global,
    registry: &mut R,
    at: usize,
    (dead, answers, mode): (Node, &[bool], ReleaseMode),
    (asked, wanted): (&[Entry], ReleaseState),
) -> Result<(), Fail> {
    let (found, state) = recovered(alloc, registry, dead, answers, mode)?;
    assert_eq!(rt; (at, state), (at, wanted));
    are_entries(rt, alloc, at, &found, asked)
}

/// Lists the entries in the row of this index.
fn lists<T: Details, R: Registry<T>>(
    rt: &impl Abort,
    alloc: Global,
    registry: &R,
    at: usize,
    (most, wanted): (usize, &[Entry]),
) -> Result<(), Fail> {
    are_entries(rt, alloc, at, &listed_up_to(alloc, registry, most), wanted)
}

/// Counts the entries, and compares the lock, in the row of this index.
fn holds<T: Details, R: Registry<T>>(
    rt: &impl Abort,
    registry: &R,
    at: usize,
    wanted: (usize, bool),
) {
    assert_eq!(rt; (at, (registry.len(), registry.is_locked())), (at, wanted));
}

/// Looks up a handle in the row of this index.
fn gets<T: Details, R: Registry<T>>(
    rt: &impl Abort,
    registry: &R,
    at: usize,
    handle: ContainerHandle,
    wanted: Option<Entry>,
) -> Result<(), Fail> {
    let wanted = match wanted {
        Some(entry) => Some(entry.details()?),
        None => None,
    };
    assert_eq!(rt; (at, registry.get(handle)), (at, wanted));
    Ok(())
}

/// Counts the entries of a node in the row of this index.
fn has_entries_of<T: Details, R: Registry<T>>(
    rt: &impl Abort,
    registry: &R,
    at: usize,
    node: Node,
    wanted: usize,
) -> Result<(), Fail> {
    assert_eq!(rt; (at, registry.entries_of(&node.id()?)), (at, wanted));
    Ok(())
}

/// Makes the call of the row of this index, and compares its answer.
fn is_answered<T: Details, R: Registry<T>>(
    rt: &impl Abort,
    alloc: Global,
    registry: &mut R,
    at: usize,
    row: &Row,
) -> Result<(), Fail> {
    match *row {
        Row::Add(entry, wanted) => adds(rt, registry, at, entry, wanted)?,
        Row::Remove(handle, mode, wanted) => {
            removes(rt, registry, at, (handle.whole(), mode), wanted);
        }
        Row::Recover(dead, answers, mode, asked, wanted) => {
            recovers(
                rt,
                alloc,
                registry,
                at,
                (dead, answers, mode),
                (asked, wanted),
            )?;
        }
        Row::Get(handle, wanted) => gets(rt, registry, at, handle.whole(), wanted)?,
        Row::List(most, wanted) => lists(rt, alloc, registry, at, (most, wanted))?,
        Row::EntriesOf(node, wanted) => has_entries_of(rt, registry, at, node, wanted)?,
        Row::Holds(entries, locked) => holds(rt, registry, at, (entries, locked)),
        Row::Capacity(wanted) => assert_eq!(rt; (at, registry.capacity()), (at, wanted)),
    }
    Ok(())
}

/// Makes the calls of the rows one after the other.
pub(super) fn are_answered<T: Details, R: Registry<T>>(
    rt: &impl Abort,
    alloc: Global,
    registry: &mut R,
    rows: &[Row],
) -> Result<(), Fail> {
    for (at, row) in rows.iter().enumerate() {
        is_answered(rt, alloc, registry, at, row)?;
    }
    Ok(())
}

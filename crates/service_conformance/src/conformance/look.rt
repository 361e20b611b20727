//! Weak listings that are open.
ghost use Rattle.std.specs.Prelude.{◌≡◌, ◌↔◌, IfOk, IsTrue, filter};
ghost use Rattle.service_conformance.specs.Looks.{is_among, look_after, without};

use super::possible::Part;
use super::same::Same;
use std::alloc::{AllocError, Global};
use std::marker::Model;

/// A weak listing that is open, and lacks something.
#[derive(Drop)]
pub(super) struct OpenLook {
    number: usize,
    part: Part,
    unseen: Vec<u128>,
    lasting: Vec<u128>,
}

impl Model for OpenLook {
    ghost use Rattle.service_conformance.specs.Looks.{Look, look_in};

    ghost Value = { Look };

    ghost view = { look_in };
}

/// The ids that are none of the others.
fn without(alloc: Global, others: &[u128], ids: &[u128]) -> Result<Vec<u128>, AllocError>
    ensures { IfOk result (λ left. left.items ≡ without others.now ids.now) }
{
    let mut left = Vec::from_slice(alloc, ids)?;
    left.retain(|id| !others.contains(id));
    Ok(left)
}

/// The ids that are among the others.
fn among(alloc: Global, others: &[u128], ids: &[u128]) -> Result<Vec<u128>, AllocError>
    ensures { IfOk result (λ left. left.items ≡ filter (is_among others.now) ids.now) }
{
    let mut left = Vec::from_slice(alloc, ids)?;
    left.retain(|id| others.contains(id));
    Ok(left)
}

/// Whether two lists of ids are the same.
fn are_same(one: &[u128], other: &[u128]) -> bool
    ensures { IsTrue result ↔ (one.now ≡ other.now) }
{
    one == other
}

impl OpenLook {
    /// A weak listing of a part with this number and this reply, before it has seen the service,
    /// whose part has these ids.
    pub(super) fn new(
        alloc: Global,
        number: usize,
        part: Part,
        reply: &[u128],
        there: &[u128],
    ) -> Result<Self, AllocError>
        ensures { IfOk result (λ look. look ≡ record {
          number = number;
          part = part;
          unseen = reply.now;
          lasting = without reply.now there.now;
        }) }
    {
        Ok(OpenLook {
            number,
            part,
            unseen: Vec::from_slice(alloc, reply)?,
            lasting: without(alloc, reply, there)?,
        })
    }

    /// The number of the call with which it began.
    pub(super) fn number(&self) -> usize
        ensures { result ≡ self.now.number }
    {
        self.number
    }

    /// The part that it lists.
    pub(super) fn part(&self) -> Part
        ensures { result ≡ self.now.part }
    {
        self.part
    }

    /// The ids of its reply of which none was there yet.
    pub(super) fn unseen(&self) -> &[u128]
        ensures { result.now ≡ self.now.unseen }
    {
        &self.unseen
    }

    /// The ids that its reply has not, and that were there all the while.
    pub(super) fn lasting(&self) -> &[u128]
        ensures { result.now ≡ self.now.lasting }
    {
        &self.lasting
    }

    /// What it lacks after these ids were there, if anything.
    pub(super) fn after(&self, alloc: Global, there: &[u128]) -> Result<Option<Self>, AllocError>
        ensures { IfOk result (λ left. left ≡ look_after there.now self.now) }
    {
        let unseen = without(alloc, there, &self.unseen)?;
        let lasting = among(alloc, there, &self.lasting)?;
        if unseen.is_empty() && lasting.is_empty() {
            return Ok(None);
        }
        Ok(Some(OpenLook {
            number: self.number,
            part: self.part,
            unseen,
            lasting,
        }))
    }

    /// A copy.
    pub(super) fn copied(&self, alloc: Global) -> Result<Self, AllocError>
        ensures { IfOk result (λ copy. copy ≡ self.now) }
    {
        Ok(OpenLook {
            number: self.number,
            part: self.part,
            unseen: Vec::from_slice(alloc, &self.unseen)?,
            lasting: Vec::from_slice(alloc, &self.lasting)?,
        })
    }
}

impl Same for OpenLook {
    fn same(&self, other: &Self) -> bool {
        self.number == other.number
            && self.part == other.part
            && are_same(&self.unseen, &other.unseen)
            && are_same(&self.lasting, &other.lasting)
    }
}

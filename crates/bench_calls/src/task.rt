//! Which call is made, how often, and among how many nodes and ports.

use super::attached::{Attached, Capacities};
use super::described;
use super::described::Sizes;
use std::alloc::{AllocError, Global};

/// A call of the layer.
#[derive(Clone, Copy, Debug)]
enum Call {
    /// A node is registered.
    Register,
    /// A subscriber is attached.
    Attach,
    /// All subscribers are shown to a callback.
    List,
    /// A list of all nodes is made.
    Nodes,
    /// A list of all subscribers is made.
    Ports,
    /// A subscriber is released.
    Release,
    /// A node without ports is deregistered.
    Deregister,
    /// A node with ports dies.
    Death,
    /// The layout of a message.
    Layout,
    /// 16 attributes are verified.
    Verification,
    /// The hash text of a service.
    HashText,
}

/// A line of standard input: in each round all is set
/// up anew, and then the call is made this often.
#[derive(Clone, Copy, Debug)]
pub(super) struct Task {
    call: Call,
    capacities: Capacities,
    rounds: u32,
    calls: u32,
}

impl Task {
    /// The task of a line `CALL NODES SUBSCRIBERS PUBLISHERS ROUNDS CALLS`.
    /// For layouts the three numbers behind the call are the size of the
    /// header, the alignment, and the size of an element.
    pub(super) fn read(line: &str) -> Option<Self> {
        let mut words = line.split_whitespace();
        let call = Call::named(words.next()?)?;
        let capacities = Capacities {
            nodes: number(words.next())?,
            subscribers: number(words.next())?,
            publishers: number(words.next())?,
        };
        Some(Task {
            call,
            capacities,
            rounds: number(words.next())?,
            calls: number(words.next())?,
        })
    }

    /// What all rounds answered.
    pub(super) fn digest(&self, alloc: Global) -> Result<u64, AllocError> {
        let mut digest = 0u64;
        for _ in 0..self.rounds {
            digest = digest.wrapping_add(self.round(alloc)?);
        }
        Ok(digest)
    }

    fn round(&self, alloc: Global) -> Result<u64, AllocError> {
        match self.call {
            Call::Layout => Ok(described::layouts(self.sizes(), self.calls)),
            Call::Verification => Ok(described::verifications(self.calls)),
            Call::HashText => Ok(described::hash_texts(self.calls)),
            _ => self.round_on(alloc, Attached::new(alloc, self.capacities)?),
        }
    }

    /// The three numbers of a line for layouts.
    fn sizes(&self) -> Sizes {
        Sizes {
            header: self.capacities.nodes,
            element: self.capacities.publishers,
            alignment: self.capacities.subscribers,
        }
    }

    /// What a round answers on a service without nodes and ports.
    fn round_on(&self, alloc: Global, mut attached: Attached) -> Result<u64, AllocError> {
        let answered = match self.prepare(&mut attached) {
            Ok(()) => self.calls_on(alloc, &mut attached),
            Err(refused) => Err(refused),
        };
        drop(attached);
        answered
    }

    /// Lets those nodes and ports come that are there before the calls.
    fn prepare(&self, attached: &mut Attached) -> Result<(), AllocError> {
        match self.call {
            Call::Register => Ok(()),
            Call::Attach => attached.register_all(),
            _ => attached.fill(),
        }
    }

    /// What the calls on a service answer.
    fn calls_on(&self, alloc: Global, attached: &mut Attached) -> Result<u64, AllocError> {
        match self.call {
            Call::Register => attached.register(self.calls),
            Call::Attach => attached.attach_subscribers(self.calls),
            Call::Nodes => attached.list_nodes(alloc, self.calls),
            Call::Ports => attached.list_subscribers(alloc, self.calls),
            Call::List => Ok(attached.list(self.calls)),
            Call::Release => Ok(attached.release(self.calls)),
            Call::Deregister => Ok(attached.deregister(self.calls)),
            Call::Death => Ok(attached.die(self.calls)),
            _ => Ok(0),
        }
    }
}

impl Call {
    fn named(name: &str) -> Option<Self> {
        match name {
            "register" => Some(Call::Register),
            "attach" => Some(Call::Attach),
            "list" => Some(Call::List),
            "nodes" => Some(Call::Nodes),
            "ports" => Some(Call::Ports),
            "release" => Some(Call::Release),
            "deregister" => Some(Call::Deregister),
            "death" => Some(Call::Death),
            "layout" => Some(Call::Layout),
            "verification" => Some(Call::Verification),
            "hash-text" => Some(Call::HashText),
            _ => None,
        }
    }
}

fn number(word: Option<&str>) -> Option<u32> {
    word?.parse().ok()
}

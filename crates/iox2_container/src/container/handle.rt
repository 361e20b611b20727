//! Handles of entries: what the entries are, and the numbers of services in handles.
ghost use Rattle.std.specs.Prelude.{◌≡◌};

use std::marker::Model;

/// What the entries of a container are: nodes, or the ports of one kind.
#[derive(Clone, Copy, Debug, PartialEq, Eq)]
pub enum Role {
    /// Nodes of a service.
    Node,
    /// Ports that send samples.
    Publisher,
    /// Ports that receive samples.
    Subscriber,
    /// Ports that signal events.
    Notifier,
    /// Ports that wait for events.
    Listener,
    /// Ports that send requests.
    Client,
    /// Ports that answer requests.
    Server,
    /// Ports that read a blackboard.
    Reader,
    /// Ports that write to a blackboard.
    Writer,
}

/// Names an entry of a container. It is a value: a container accepts it exactly where the service
/// number, the role, the slot and the ticket are those of one of its entries.
#[derive(Clone, Copy, Debug, PartialEq, Eq)]
pub struct ContainerHandle {
    service: u64,
    role: Role,
    slot: usize,
    ticket: u64,
}

impl Model for ContainerHandle {
    ghost use Rattle.iox2_container.specs.State.{Handle};

    ghost Value = { Handle };

    ghost view = { λ h. record {
      service = h.service;
      role = h.role;
      slot = h.slot;
      ticket = h.ticket;
    } };

    ghost inverse = { λ h. record {
      service = h.service;
      role = h.role;
      slot = h.slot;
      ticket = h.ticket;
    } };
}

impl ContainerHandle {
    /// The handle of these parts, whether or not an entry has them.
    pub fn from_parts(service: u64, role: Role, slot: usize, ticket: u64) -> Self
        ensures { result ≡ record { service = service; role = role; slot = slot; ticket = ticket } }
    {
        ContainerHandle {
            service,
            role,
            slot,
            ticket,
        }
    }

    /// The parts that [`from_parts`](ContainerHandle::from_parts) makes the handle of.
    pub fn into_parts(self) -> (u64, Role, usize, u64)
        ensures { result ≡ (self.service, self.role, self.slot, self.ticket) }
    {
        (self.service, self.role, self.slot, self.ticket)
    }

    /// The number of the service.
    pub fn service(&self) -> u64
        ensures { result ≡ self.now.service }
    {
        self.service
    }

    /// What the container's entries are.
    pub fn role(&self) -> Role
        ensures { result ≡ self.now.role }
    {
        self.role
    }

    /// The slot of the entry, from 0.
    pub fn slot(&self) -> usize
        ensures { result ≡ self.now.slot }
    {
        self.slot
    }

    /// The entry's ticket: how many entries its container had been given before it.
    pub fn ticket(&self) -> u64
        ensures { result ≡ self.now.ticket }
    {
        self.ticket
    }
}

/// Returns numbers for services, for those who have none: 1, 2, 3, .., each once, up to 2^64 - 1.
/// Its contract sees it as the number that it returned last, which is 0 before the first.
///
/// Two values return the same numbers, so one serves all services whose handles may meet. A handle
/// of a service numbered so is not that whose parts are all 0.
#[derive(Debug, Drop)]
pub struct ServiceNumbers {
    last: u64,
}

impl Model for ServiceNumbers {
    ghost use Rattle.std.specs.Prelude.{ℕ};

    ghost Value = { ℕ };

    ghost view = { λ numbers. numbers.last };

    ghost inverse = { λ n. record { last = n } };
}

impl ServiceNumbers {
    ghost use Rattle.iox2_container.specs.ServiceNumbers.{ReturnsNumber};

    /// Numbers above this one: all for 0.
    pub fn after(last: u64) -> Self
        ensures { result ≡ last }
    {
        ServiceNumbers { last }
    }

    /// The number that was returned last, or 0.
    pub fn last(&self) -> u64
        ensures { result ≡ self.now }
    {
        self.last
    }

    /// The next number, or `None` exactly where the greatest was returned.
    pub fn next_number(&mut self) -> Option<u64>
        ensures { ReturnsNumber self.old result self.new }
    {
        let number = self.last.checked_add(1)?;
        self.last = number;
        Some(number)
    }
}

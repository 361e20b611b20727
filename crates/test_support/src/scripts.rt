//! Scripts that are bad at no line, and their reply lines.

/// The program's stored run.
pub const STORED: (&str, &str) = (
    "service event 7 1 2 2\nregister 1.0.0.1\nregister 2.0.0.2\nderegister 0\nderegister 0\nregister 2.0.0.2\n",
    "handle 0 0\nfull\nno-owners\nnot-owned\nlocked\n",
);

/// Ports of two nodes of one process and one counter, one
/// of which dies; one of its ports stays, and so does it.
pub const SKIPPED: (&str, &str) = (
    "service publish-subscribe 9 4 4 4\nregister 1.1.0.5\nregister 1.2.0.5\nadd publisher 1.1.0.10 1.1.0.5\nadd subscriber 1.1.0.11 1.1.0.5\nadd publisher 1.2.0.12 1.2.0.5\ndead 1.1.0.5 skip 1.1.0.10\nlist publisher\nlist subscriber\nnodes\n",
    "handle 0 0\nhandle 1 1\nhandle 0 0\nhandle 0 0\nhandle 1 1\nhas-owners\nlist 100000001000000000000000a 100000002000000000000000c\nlist\nlist 1000000010000000000000005 1000000020000000000000005\n",
);

/// The reply lines of a node that dies twice: the first time two of its ports stay, the second time
/// all go.
pub const DIED_TWICE: &str =
    "handle 0 0\nhandle 0 0\nhandle 1 1\nhandle 0 0\nhandle 1 1\nhas-owners\nlist 100000000000000000000000c\nlist 100000000000000000000000d\nlist 1000000000000000000000001\nno-owners\nlist\nlist\nlist\n";

/// The scripts with their reply lines.
pub static ROWS: [(&str, &str); 16] = [
    STORED,
    SKIPPED,
    // A place is taken again under another ticket.
    (
        "service blackboard 0 2 0 0\nregister 1.0.0.1\nregister 2.0.0.2\nderegister 1\nregister 2.0.0.2\nnodes\n",
        "handle 0 0\nhandle 1 1\nhas-owners\nhandle 1 2\nlist 1000000000000000000000001 2000000000000000000000002\n",
    ),
    // Of the free places the one that was left last is taken first.
    (
        "service event 7 1 3 0\nregister 1.0.0.1\nadd listener 1.0.0.11 1.0.0.1\nadd listener 1.0.0.12 1.0.0.1\nadd listener 1.0.0.13 1.0.0.1\nrelease 1\nrelease 2\nadd listener 1.0.0.14 1.0.0.1\nadd listener 1.0.0.15 1.0.0.1\nlist listener\n",
        "handle 0 0\nhandle 0 0\nhandle 1 1\nhandle 2 2\nreleased\nreleased\nhandle 1 3\nhandle 0 4\nlist 100000000000000000000000f 100000000000000000000000e 100000000000000000000000d\n",
    ),
    // The ports of a dead node leave their places in rising order.
    (
        "service event 7 2 3 0\nregister 1.0.0.1\nregister 2.0.0.2\nadd listener 1.0.0.10 1.0.0.1\nadd listener 1.0.0.11 2.0.0.2\nadd listener 1.0.0.12 1.0.0.1\ndead 1.0.0.1\nregister 1.0.0.1\nadd listener 1.0.0.13 1.0.0.1\nadd listener 1.0.0.14 1.0.0.1\nadd listener 1.0.0.15 1.0.0.1\nlist listener\n",
        "handle 0 0\nhandle 1 1\nhandle 0 0\nhandle 1 1\nhandle 2 2\nhas-owners\nhandle 0 2\nhandle 2 3\nhandle 0 4\nfull\nlist 100000000000000000000000e 100000000000000000000000b 100000000000000000000000d\n",
    ),
    // No node is registered, so no port is attached.
    (
        "service request-response 3 2 1 2\nadd server 1.0.0.7 1.0.0.1\nadd server 1.0.0.8 1.0.0.1\nadd client 1.0.0.9 1.0.0.1\ncount client\nrelease 0\nadd server 1.0.0.8 1.0.0.1\nlist server\nrelease 0\nadd reader 1.0.0.2 1.0.0.1\n",
        "not-registered\nnot-registered\nnot-registered\ncount 0\nno-handle\nnot-registered\nlist\nno-handle\nwrong-pattern\n",
    ),
    // A node that never came dies.
    (
        "service event 7 1 2 2\ndead 1.0.0.1\nregister 1.0.0.1\n",
        "has-owners\nhandle 0 0\n",
    ),
    // Both handles of a node go with it, and it was the last one.
    (
        "service event 7 2 2 2\nregister 1.0.0.1\nregister 1.0.0.1\ndead 1.0.0.1\nnodes\nadd listener 1.0.0.9 1.0.0.1\n",
        "handle 0 0\nhandle 1 1\nno-owners\nlist\nlocked\n",
    ),
    // There is room for no node.
    (
        "service event 7 0 2 2\nregister 1.0.0.1\ndead 1.0.0.1\nadd publisher 1.0.0.9 1.0.0.1\nrelease 7\ncount listener\n",
        "full\nhas-owners\nwrong-pattern\nno-handle\ncount 0\n",
    ),
    // Two ports of a dead node stay, one of each kind, and go at its next death.
    (
        "service publish-subscribe 9 2 2 2\nregister 1.0.0.1\nadd publisher 1.0.0.11 1.0.0.1\nadd publisher 1.0.0.12 1.0.0.1\nadd subscriber 1.0.0.13 1.0.0.1\nadd subscriber 1.0.0.14 1.0.0.1\ndead 1.0.0.1 skip 1.0.0.12 1.0.0.13\nlist publisher\nlist subscriber\nnodes\ndead 1.0.0.1\nlist publisher\nlist subscriber\nnodes\n",
        DIED_TWICE,
    ),
    // There is room for no port.
    (
        "service event 7 3 0 0\nregister 1.0.0.1\nadd listener 1.0.0.9 1.0.0.1\nlist listener\ndead 1.0.0.1\nregister 2.0.0.2\n",
        "handle 0 0\nfull\nlist\nno-owners\nlocked\n",
    ),
    // A port's handle is not a node's, and the other way round.
    (
        "service event 7 2 2 2\nregister 1.0.0.1\nadd listener 1.0.0.9 1.0.0.1\nderegister 1\nrelease 0\nrelease 1\nrelease 1\nrelease 2\nnodes\n",
        "handle 0 0\nhandle 0 0\nnot-owned\nnot-owned\nreleased\nnot-owned\nno-handle\nlist 1000000000000000000000001\n",
    ),
    // The id of a port may be 0.
    (
        "service event 7 1 2 2\nregister 1.0.0.1\nadd listener 0.0.0.0 1.0.0.1\nlist listener\n",
        "handle 0 0\nhandle 0 0\nlist 0\n",
    ),
    // What is reported first of a port that cannot be attached.
    (
        "service event 7 1 0 2\nadd listener 1.0.0.9 1.0.0.1\nregister 1.0.0.1\nadd listener 1.0.0.9 1.0.0.1\nadd publisher 1.0.0.9 1.0.0.1\nderegister 1\nadd listener 1.0.0.9 1.0.0.1\n",
        "not-registered\nhandle 0 0\nfull\nwrong-pattern\nno-owners\nlocked\n",
    ),
    // The last handle of a node that has ports stays.
    (
        "service event 7 2 2 2\nregister 1.0.0.1\nregister 1.0.0.1\nadd listener 1.0.0.9 1.0.0.1\nderegister 0\nderegister 1\nderegister 0\nrelease 2\nderegister 1\nadd listener 1.0.0.9 1.0.0.1\n",
        "handle 0 0\nhandle 1 1\nhandle 0 0\nhas-owners\nports-attached\nnot-owned\nreleased\nno-owners\nlocked\n",
    ),
    // A node of the same process and counter is another node.
    (
        "service publish-subscribe 9 4 4 4\nregister 1.1.0.5\nadd publisher 1.2.0.12 1.2.0.5\n",
        "handle 0 0\nnot-registered\n",
    ),
];

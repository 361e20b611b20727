//! Descriptions that begin with settings of their own, and what is drawn for them.

/// Settings that the description changes once more, and the drawing by both.
pub(crate) const OWN: (&str, &str) = (
    "\
config
global.prefix = 'own_'
defaults.event.max-nodes = 5
end
event My/Event
set max_listeners 3
",
    "service    My/Event
pattern    event
hash text  u7hW7p2WFNt9k39F0CpvIbP8DmU

files, with * for what the configuration does not fix
  static configuration   /tmp/iceoryx2/services/own_u7hW7p2WFNt9k39F0CpvIbP8DmU.service
  dynamic configuration  own_u7hW7p2WFNt9k39F0CpvIbP8DmU.dynamic
  connections            own_*.event

settings, with ! where they differ from the defaults
! max_listeners                                3, by default 16
  max_notifiers                                16
! max_nodes                                    5, by default 36
  event_id_max_value                           255
  deadline                                     none
  notifier_created_event                       none
  notifier_dropped_event                       none
  notifier_dead_event                          none

no messages

attributes

required by an opener
  verified
",
);

/// An empty file of settings, one with CRLF, one with a key that no setting has, one with a
/// contradiction, and one with a key that is a command to a terminal.
pub(crate) const FILES: [(&str, &str); 5] = [
    (
        "config\nend\nevent My/Event\nset max_listeners 3\nset max_nodes 5\n",
        "",
    ),
    (
        "config\ndefaults.event.max-nodes = 5\r\nend\nevent My/Event\nset max-listeners 3\n",
        "",
    ),
    (
        "config\n[defaults.event]\nmax-nodes = 5\nmax-listener = 4\nend\nevent My/Event\nset max_listeners 3\n",
        "4:1: warning: defaults.event.max-listener: this table has no such key, defaults.event.max-listeners may be meant\n",
    ),
    (
        "config\n[defaults.event]\nmax-nodes = 5\nnotifier-created-event = 300\nend\nevent A\n",
        "4:1: warning: defaults.event.notifier-created-event: is 300, and defaults.event.event-id-max-value is 255: an event above the greatest one is never sent\n",
    ),
    (
        "config\n[defaults.event]\nmax-nodes = 5\n\"a\u{9b}31mX\" = 1\nend\nevent A\nset max_listeners 3\n",
        "4:1: warning: defaults.event.\"a\\u{9b}31mX\": this table has no such key\n",
    ),
];

/// Inputs that are refused, and why: no `end` or one of another form, settings that are not
/// allowed, a bad line behind the settings, a byte-order mark, a second block, and a line that
/// begins none.
pub(crate) const REFUSED: [(&str, &str); 10] = [
    (
        "config\n",
        "bad settings: no line end, with a newline alone behind it, follows the line config\n",
    ),
    (
        "config\nend\r\nevent A\n",
        "bad settings: no line end, with a newline alone behind it, follows the line config\n",
    ),
    (
        "config\n end\nend",
        "bad settings: no line end, with a newline alone behind it, follows the line config\n",
    ),
    (
        "config\nglobal.prefix = 2\ndefaults.event.max-nodes = ''\nend\nevent A\n",
        "2:1: error: global.prefix: is an integer, and a string with the name of a file is wanted
3:1: error: defaults.event.max-nodes: is a string, and an integer is wanted
",
    ),
    (
        "config\n# two\nend\nevent A\nset max_node 2\n",
        "bad line 5: the pattern has no such setting; expected set NAME VALUE with one of the names max_listeners, max_notifiers, max_nodes, event_id_max_value, deadline, notifier_created_event, notifier_dropped_event, notifier_dead_event\n",
    ),
    (
        "config\n\u{feff}[defaults.event]\nmax-nodes = 5\nend\nevent A\n",
        "2:1: error: U+FEFF in a key without quotes, expected ASCII letters, digits, `-`, `_`\n",
    ),
    (
        "config\nend\nconfig\nend\nevent A\n",
        "bad line 3: expected PATTERN NAME: publish-subscribe, event, request-response or blackboard, and the name of a service, 1 to 255 bytes\n",
    ),
    (
        "config",
        "bad line 1: no newline ends it; expected config, or PATTERN NAME: publish-subscribe, event, request-response or blackboard, and the name of a service, 1 to 255 bytes\n",
    ),
    (
        "config\r\n",
        "bad line 1: it ends in a carriage return and a newline, and not in a newline alone; expected config, or PATTERN NAME: publish-subscribe, event, request-response or blackboard, and the name of a service, 1 to 255 bytes\n",
    ),
    (
        "config \nend\nevent A\n",
        "bad line 1: expected config, or PATTERN NAME: publish-subscribe, event, request-response or blackboard, and the name of a service, 1 to 255 bytes\n",
    ),
];

/// Settings that are no TOML, at the third line of the input, and what is reported.
pub(crate) const NO_TOML: (&str, &str) = (
    "config\n\nglobal = \nend\nevent A\n",
    "3:10: error: invalid value, expected a string in quotes, a number, `true`, `false`, a \
     date-time, an array or an inline table\n",
);

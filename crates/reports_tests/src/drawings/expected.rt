//! Descriptions, and what is drawn for them. All values were worked out by hand.

pub(super) mod own;
pub(super) mod parts;
pub(super) mod pictures;
pub(super) mod request_response;

/// A dynamic payload, an opener that is compatible, and a required key that is missing.
pub(super) const PUBLISH_SUBSCRIBE: (&str, &str) = (
    "publish-subscribe My/Funk/ServiceName
set max_subscribers 4
header 32 8 Header
user-header 4 4 Counter
payload dynamic 16 8 Distance
elements 3
opener 8 2 4
attribute fps 30
attribute camera front
require camera front
require-key resolution
",
    "service    My/Funk/ServiceName
pattern    publish-subscribe
hash text  Tqyt8mlaP0suuVSFdZJGzhoqqQY

files, with * for what the configuration does not fix
  static configuration   /tmp/iceoryx2/services/iox2_Tqyt8mlaP0suuVSFdZJGzhoqqQY.service
  dynamic configuration  iox2_Tqyt8mlaP0suuVSFdZJGzhoqqQY.dynamic
  data segments          iox2_*.data
  connections            iox2_*.connection

settings, with ! where they differ from the defaults
! max_subscribers                              4, by default 8
  max_publishers                               2
  max_nodes                                    20
  subscriber_max_buffer_size                   2
  subscriber_max_borrowed_samples              2
  publisher_max_loaned_samples                 2
  publisher_history_size                       0
  enable_safe_overflow                         true
  backpressure_strategy                        RetryUntilDelivered
  subscriber_expired_connection_buffer         128
  publisher_allocation_strategy                Static

message: 96 bytes, alignment 8

  HHHHHHHHHHHHHHHHUU..000000001111111122222222----
  a character for each 2 bytes, which shows what lies at the first

    offset       size  alignment   opener's  part
         0         32          8          8  H header Header
        32          4          4          2  U user header Counter
        36          4                        . padding
        40         48          8          4    payload 3 of Distance
        40         16                        0   element 0
        56         16                        1   element 1
        72         16                        2   element 2
        88          8                        - padding
        96                                     end
  the opener is compatible
  data segment of a publisher: 18 chunks of 96 bytes, 1728 bytes, of all 2 publishers: 3456 bytes

attributes
  camera = front
  fps = 30

required by an opener
  camera = front
  resolution
  refused: AttributeVerificationError::NonExistingKey(\"resolution\")
",
);

/// No messages, settings that are none by default, and a required pair that is missing.
pub(super) const EVENT: (&str, &str) = (
    "event My/Event
set deadline 500000000
set notifier_dead_event 7
set max_nodes 4
attribute camera front
require camera back
",
    "service    My/Event
pattern    event
hash text  u7hW7p2WFNt9k39F0CpvIbP8DmU

files, with * for what the configuration does not fix
  static configuration   /tmp/iceoryx2/services/iox2_u7hW7p2WFNt9k39F0CpvIbP8DmU.service
  dynamic configuration  iox2_u7hW7p2WFNt9k39F0CpvIbP8DmU.dynamic
  connections            iox2_*.event

settings, with ! where they differ from the defaults
  max_listeners                                16
  max_notifiers                                16
! max_nodes                                    4, by default 36
  event_id_max_value                           255
! deadline                                     500000000, by default none
  notifier_created_event                       none
  notifier_dropped_event                       none
! notifier_dead_event                          7, by default none

no messages

attributes
  camera = front

required by an opener
  camera = back
  refused: AttributeVerificationError::IncompatibleAttribute((\"camera\", \"back\"))
",
);

/// No messages, but keys, and requirements that are met.
pub(super) const BLACKBOARD: (&str, &str) = (
    "blackboard Board
set max_readers 2
key 12 4 [u32; 3]
attribute unit metre
attribute unit second
require unit second
require-key unit
",
    "service    Board
pattern    blackboard
hash text  evmpuz_8WVQ_r5yQJUvPx5DgzPo

files, with * for what the configuration does not fix
  static configuration   /tmp/iceoryx2/services/iox2_evmpuz_8WVQ_r5yQJUvPx5DgzPo.service
  dynamic configuration  iox2_evmpuz_8WVQ_r5yQJUvPx5DgzPo.dynamic
  management segment     iox2_*.blackboard_mgmt
  data segment           iox2_*.blackboard_data

settings, with ! where they differ from the defaults
! max_readers                                  2, by default 8
  max_nodes                                    20

no messages, but values whose keys are of the type [u32; 3], 12 bytes, alignment 4

attributes
  unit = metre
  unit = second

required by an opener
  unit = second
  unit
  verified
",
);

/// The strategy that no other drawing names, a message of no bytes, and an opener whose header has
/// another alignment.
pub(super) const SMALLEST: (&str, &str) = (
    "publish-subscribe Tiny
set publisher_allocation_strategy BestFit
header 0 1 ()
user-header 0 1 ()
payload fixed 0 1 ()
opener 2 1 1
",
    "service    Tiny
pattern    publish-subscribe
hash text  61BUcLsrM8j39tX_dWweernL58M

files, with * for what the configuration does not fix
  static configuration   /tmp/iceoryx2/services/iox2_61BUcLsrM8j39tX_dWweernL58M.service
  dynamic configuration  iox2_61BUcLsrM8j39tX_dWweernL58M.dynamic
  data segments          iox2_*.data
  connections            iox2_*.connection

settings, with ! where they differ from the defaults
  max_subscribers                              8
  max_publishers                               2
  max_nodes                                    20
  subscriber_max_buffer_size                   2
  subscriber_max_borrowed_samples              2
  publisher_max_loaned_samples                 2
  publisher_history_size                       0
  enable_safe_overflow                         true
  backpressure_strategy                        RetryUntilDelivered
  subscriber_expired_connection_buffer         128
! publisher_allocation_strategy                BestFit, by default Static

message: 0 bytes, alignment 1

  
  a character for each byte

    offset       size  alignment   opener's  part
         0          0          1          2  H header ()
         0          0          1          1  U user header ()
         0          0          1          1    payload 1 of ()
         0          0                        0   element 0
         0                                     end
  the opener is not compatible: its header has another alignment
  data segment of a publisher: 34 chunks of 0 bytes, 0 bytes, of all 2 publishers: 0 bytes

attributes

required by an opener
  verified
",
);

/// More chunks than 64 bits can count, many elements, and
/// an opener whose user header has too great an alignment.
pub(super) const LARGE: (&str, &str) = (
    "publish-subscribe Big
set max_subscribers 4611686018427387904
header 8 8 u64
user-header 0 1 ()
payload dynamic 1 1 u8
elements 100
opener 8 2 1
",
    "service    Big
pattern    publish-subscribe
hash text  ejo0NwGqwNrzbHs6gRjckqDAlYQ

files, with * for what the configuration does not fix
  static configuration   /tmp/iceoryx2/services/iox2_ejo0NwGqwNrzbHs6gRjckqDAlYQ.service
  dynamic configuration  iox2_ejo0NwGqwNrzbHs6gRjckqDAlYQ.dynamic
  data segments          iox2_*.data
  connections            iox2_*.connection

settings, with ! where they differ from the defaults
! max_subscribers                              4611686018427387904, by default 8
  max_publishers                               2
  max_nodes                                    20
  subscriber_max_buffer_size                   2
  subscriber_max_borrowed_samples              2
  publisher_max_loaned_samples                 2
  publisher_history_size                       0
  enable_safe_overflow                         true
  backpressure_strategy                        RetryUntilDelivered
  subscriber_expired_connection_buffer         128
  publisher_allocation_strategy                Static

message: 112 bytes, alignment 8

  HHHH02468024680246802468024680246802468024680246802468--
  a character for each 2 bytes, which shows what lies at the first

    offset       size  alignment   opener's  part
         0          8          8          8  H header u64
         8          0          1          2  U user header ()
         8        100          1          1    payload 100 of u8
         8          1                        0   element 0
         9          1                        1   element 1
        10          1                        2   element 2
        11          1                        3   element 3
                                                 and 96 more
       108          4                        - padding
       112                                     end
  the opener is not compatible: its user header has a greater alignment
  data segment of a publisher: more than 18446744073709551615 chunks, too many

attributes

required by an opener
  verified
",
);

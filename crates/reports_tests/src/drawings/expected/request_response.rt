//! Request-response services as text.

/// Two messages, of which the opener's payload has too great an alignment in the first, and more
/// elements than are listed.
pub(crate) const REQUEST_RESPONSE: (&str, &str) = (
    "request-response Calc
set max_servers 3
set enable_fire_and_forget_requests false
set client_backpressure_strategy DiscardData
set server_allocation_strategy PowerOfTwo
request-header 8 8 u64
request-user-header 0 1 ()
request-payload fixed 12 4 [u32; 3]
request-opener 8 1 8
response-header 16 16 u128
response-user-header 1 1 u8
response-payload dynamic 8 8 f64
response-elements 6
response-opener 16 1 8
",
    "service    Calc
pattern    request-response
hash text  R5Xl9SNXYuJ72IX0rCSbvnqsbhE

files, with * for what the configuration does not fix
  static configuration   /tmp/iceoryx2/services/iox2_R5Xl9SNXYuJ72IX0rCSbvnqsbhE.service
  dynamic configuration  iox2_R5Xl9SNXYuJ72IX0rCSbvnqsbhE.dynamic
  data segments          iox2_*.data
  connections            iox2_*.connection

settings, with ! where they differ from the defaults
  enable_safe_overflow_for_requests            true
  enable_safe_overflow_for_responses           true
  max_active_requests_per_client               4
  max_response_buffer_size                     2
! max_servers                                  3, by default 2
  max_clients                                  8
  max_nodes                                    20
  max_borrowed_responses_per_pending_response  2
  max_loaned_requests                          2
  server_max_loaned_responses_per_request      2
! client_backpressure_strategy                 DiscardData, by default RetryUntilDelivered
  server_backpressure_strategy                 RetryUntilDelivered
  client_expired_connection_buffer             128
  server_expired_connection_buffer             128
! enable_fire_and_forget_requests              false, by default true
  client_allocation_strategy                   Static
! server_allocation_strategy                   PowerOfTwo, by default Static

request: 24 bytes, alignment 8

  HHHHHHHH000000000000----
  a character for each byte

    offset       size  alignment   opener's  part
         0          8          8          8  H header u64
         8          0          1          1  U user header ()
         8         12          4          8    payload 1 of [u32; 3]
         8         12                        0   element 0
        20          4                        - padding
        24                                     end
  the opener is not compatible: its payload has a greater alignment
  data segment of a client: 26 chunks of 24 bytes, 624 bytes, of all 8 clients: 4992 bytes

response: 80 bytes, alignment 16

  HHHHHHHHU...000011112222333344445555----
  a character for each 2 bytes, which shows what lies at the first

    offset       size  alignment   opener's  part
         0         16         16         16  H header u128
        16          1          1          1  U user header u8
        17          7                        . padding
        24         48          8          8    payload 6 of f64
        24          8                        0   element 0
        32          8                        1   element 1
        40          8                        2   element 2
        48          8                        3   element 3
                                                 and 2 more
        72          8                        - padding
        80                                     end
  the opener is compatible
  data segment of a server: 384 chunks of 80 bytes, 30720 bytes, of all 3 servers: 92160 bytes

attributes

required by an opener
  verified
",
);

/// A request without a layout, and a response that takes the
/// most bytes that a message may, both without an opener.
pub(crate) const UNBOUNDED: (&str, &str) = (
    "request-response Unbounded
request-header 8 8 u64
request-user-header 0 1 ()
request-payload dynamic 1 1 u8
request-elements 9223372036854775808
response-header 8 8 u64
response-user-header 0 1 ()
response-payload dynamic 1 1 u8
response-elements 9223372036854775792
",
    "service    Unbounded
pattern    request-response
hash text  zsx5ZUcuLwg2JhZitIp6IcAqrx4

files, with * for what the configuration does not fix
  static configuration   /tmp/iceoryx2/services/iox2_zsx5ZUcuLwg2JhZitIp6IcAqrx4.service
  dynamic configuration  iox2_zsx5ZUcuLwg2JhZitIp6IcAqrx4.dynamic
  data segments          iox2_*.data
  connections            iox2_*.connection

settings, with ! where they differ from the defaults
  enable_safe_overflow_for_requests            true
  enable_safe_overflow_for_responses           true
  max_active_requests_per_client               4
  max_response_buffer_size                     2
  max_servers                                  2
  max_clients                                  8
  max_nodes                                    20
  max_borrowed_responses_per_pending_response  2
  max_loaned_requests                          2
  server_max_loaned_responses_per_request      2
  client_backpressure_strategy                 RetryUntilDelivered
  server_backpressure_strategy                 RetryUntilDelivered
  client_expired_connection_buffer             128
  server_expired_connection_buffer             128
  enable_fire_and_forget_requests              true
  client_allocation_strategy                   Static
  server_allocation_strategy                   Static

request: no layout, since it would pass 9223372036854775807 bytes

response: 9223372036854775800 bytes, alignment 8

  H468024680246802468024680246802468024680246802468024680246802468
  a character for each 144115188075855872 bytes, which shows what lies at the first

    offset       size  alignment             part
         0          8          8             H header u64
         8          0          1             U user header ()
         8 9223372036854775792          1               payload 9223372036854775792 of u8
         8          1                        0   element 0
         9          1                        1   element 1
        10          1                        2   element 2
        11          1                        3   element 3
                                                 and 9223372036854775788 more
9223372036854775800                                     end
  data segment of a server: 384 chunks of 9223372036854775800 bytes, more than 18446744073709551615 bytes, too many, of all 2 servers: more than 18446744073709551615 bytes, too many

attributes

required by an opener
  verified
",
);

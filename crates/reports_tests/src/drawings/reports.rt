//! What is reported of a bad line of each form with its prefix, and how the program is used.

use super::running::assert_run;

/// Descriptions whose last line, one of the lines of two messages, is bad, and what is reported.
static PREFIXED: [(&str, &str); 10] = [
    (
        "request-response A\nheader 8 8 u64\n",
        "bad line 2: expected request-header SIZE ALIGNMENT NAME: two numbers, the second a power of two, and 1 to 256 bytes\n",
    ),
    (
        "request-response A\nrequest-header 8 8 u64\nrequest-user-header 0 3 ()\n",
        "bad line 3: expected request-user-header SIZE ALIGNMENT NAME: two numbers, the second a power of two, and 1 to 256 bytes\n",
    ),
    (
        "request-response A\nrequest-header 8 8 u64\nrequest-user-header 0 1 ()\nrequest-payload 4 4 u32\n",
        "bad line 4: expected request-payload VARIANT SIZE ALIGNMENT NAME: fixed or dynamic, two numbers, the second a power of two, and 1 to 256 bytes\n",
    ),
    (
        "request-response A\nrequest-header 8 8 u64\nrequest-user-header 0 1 ()\nrequest-payload dynamic 4 4 u32\nelements 1\n",
        "bad line 5: expected request-elements NUMBER\n",
    ),
    (
        "request-response A\nrequest-header 8 8 u64\nrequest-user-header 0 1 ()\nrequest-payload fixed 4 4 u32\nrequest-opener 8 1 3\n",
        "bad line 5: expected request-opener HEADER USER-HEADER PAYLOAD: three alignments, each a power of two\n",
    ),
    (
        "request-response A\nrequest-header 8 8 u64\nrequest-user-header 0 1 ()\nrequest-payload fixed 4 4 u32\nrequest-header 8 8 u64\n",
        "bad line 5: expected response-header SIZE ALIGNMENT NAME: two numbers, the second a power of two, and 1 to 256 bytes\n",
    ),
    (
        "request-response A\nrequest-header 8 8 u64\nrequest-user-header 0 1 ()\nrequest-payload fixed 4 4 u32\nresponse-header 8 8 u64\nuser-header 0 1 ()\n",
        "bad line 6: expected response-user-header SIZE ALIGNMENT NAME: two numbers, the second a power of two, and 1 to 256 bytes\n",
    ),
    (
        "request-response A\nrequest-header 8 8 u64\nrequest-user-header 0 1 ()\nrequest-payload fixed 4 4 u32\nresponse-header 8 8 u64\nresponse-user-header 0 1 ()\nresponse-payload\n",
        "bad line 7: expected response-payload VARIANT SIZE ALIGNMENT NAME: fixed or dynamic, two numbers, the second a power of two, and 1 to 256 bytes\n",
    ),
    (
        "request-response A\nrequest-header 8 8 u64\nrequest-user-header 0 1 ()\nrequest-payload fixed 4 4 u32\nresponse-header 8 8 u64\nresponse-user-header 0 1 ()\nresponse-payload dynamic 4 4 u32\nresponse-elements 01\n",
        "bad line 8: expected response-elements NUMBER\n",
    ),
    (
        "request-response A\nrequest-header 8 8 u64\nrequest-user-header 0 1 ()\nrequest-payload fixed 4 4 u32\nresponse-header 8 8 u64\nresponse-user-header 0 1 ()\nresponse-payload fixed 4 4 u32\nresponse-opener 8 0 4\n",
        "bad line 8: expected response-opener HEADER USER-HEADER PAYLOAD: three alignments, each a power of two\n",
    ),
];

#[test]
fn lines_with_a_prefix(rt: HostRuntime) {
    for (input, report) in PREFIXED {
        assert_run(&rt, rt.alloc(), &[], input, (1, "", report));
    }
}

/// How the program is used.
const HELP: &str = "usage: iox2-describe [svg | -h | --help | --version] < DESCRIPTION

Reads the description of one service from standard input, and writes what the service is: its
name, hash text and files, its settings, where the parts of its messages lie, the memory of its
ports, and its attributes. Settings of its own may stand in front of it, between a line config and
a line end.

  svg         write a picture of the messages, an SVG document
  -h, --help  write this text and read nothing
  --version   write the version and read nothing

docs/DESCRIBE.md has the lines of descriptions, docs/CONFIG.md the settings. The status is 0 after
a drawing, 1 after a bad argument, line or setting, 2 where memory was refused, 3 where reading or
writing failed.
";

#[test]
fn help(rt: HostRuntime) {
    for word in ["-h", "--help"] {
        assert_run(&rt, rt.alloc(), &[word], "bad", (0, HELP, ""));
    }
}

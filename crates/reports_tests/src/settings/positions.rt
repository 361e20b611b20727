//! Files with what is reported of them, and where: forms of TOML in front of a key, keys that TOML
//! quotes, and files that are none.

use config_report::{ReportError, read_file};
use std::alloc::{AllocError, Global};
use std::process::Abort;
use std::test::Fail;

/// A file, and what is reported of it.
const REPORTED: [(&[u8], &str); 58] = [
    (
        b"# two faults\n[global]\nprefix = 1\n[defaults.event]\n\t\"max-nodes\" = -1\n",
        "3:1: error: global.prefix: is an integer, and a string with the name of a file is wanted\n\
         5:2: error: defaults.event.max-nodes: is not an integer from 0 to 9223372036854775807\n",
    ),
    (
        b"[defaults.blackboard]\r\nmax-nodes = 1\r\n\r\n  max-reader = 2\r\n",
        "4:3: warning: defaults.blackboard.max-reader: this table has no such key, \
         defaults.blackboard.max-readers may be meant\n",
    ),
    (
        b"\xEF\xBB\xBFsize = 1\n",
        "1:1: warning: size: this table has no such key\n",
    ),
    (
        b"global.root-path = \"\"\"/\n[defaults]\nsize = 1\"\"\"\nsize = 2",
        "1:1: warning: global.root-path: is \"/\\n[defaults]\\nsize = 1\": it has a control \
         character\n4:1: warning: size: this table has no such key\n",
    ),
    (
        b"a = [\n  '''\nsize = 1''', # [\n  { size = [ 1,\n ] }\n]\nsize = 2\n",
        "1:1: warning: a: this table has no such key\n\
         7:1: warning: size: this table has no such key\n",
    ),
    (
        b"global = { prefix = 'a',\n  node = { size = 1 } }\n",
        "1:1: warning: global.node.size: this table has no such key\n",
    ),
    (
        b"[[sizes]]\nb = 1\n[[ sizes ]]\nb = 2\n[ globl.x ]\n",
        "1:3: warning: sizes: this table has no such key\n\
         5:3: warning: globl: this table has no such key, global may be meant\n",
    ),
    (
        b"[global.service]\n[defaults]\nservice.x = 1\n[global]\nservices = 2\n",
        "3:1: warning: defaults.service: this table has no such key, global.service may be meant\n\
         5:1: warning: global.services: this table has no such key, global.service may be meant\n",
    ),
    (
        b"\"a\\u001b[31m\\nb\" = 1\n",
        "1:1: warning: \"a\\u001B[31m\\nb\": this table has no such key\n",
    ),
    (
        b"'' = 1\nglobal.'max nodes' = 2\n",
        "1:1: warning: \"\": this table has no such key\n\
         2:1: warning: global.\"max nodes\": this table has no such key\n",
    ),
    (
        b"global.creation-timeout.secs = 1\nglobal.creation-timeout.nanos = -1\n",
        "1:1: error: global.creation-timeout: is not `{ secs = S, nanos = N }` with two integers from \
         0 on\n",
    ),
    (b"# \xFF", "1:3: error: the file is no UTF-8\n"),
    (
        b"a = '\xC3\xA4\xC3'\n\n\n",
        "1:8: error: the file is no UTF-8\n",
    ),
    (
        b"[global]\nprefix = my_app\n",
        "2:10: error: invalid value, expected a string in quotes, a number, `true`, `false`, a \
         date-time, an array or an inline table\n",
    ),
    (b"a = 1_\n", "1:5: error: `_` may only go between digits\n"),
    (
        b"a = 1\n# c\x0Cd\n",
        "2:4: error: control character U+000C, and TOML has none but tabs and the ends of lines\n",
    ),
    (
        b"# c\rd\n",
        "1:4: error: a carriage return without a newline after it\n",
    ),
    (
        b"a = [1, '\x7F']\n",
        "1:10: error: control character U+007F, and TOML has none but tabs and the ends of lines\n",
    ),
    (
        b"a = 1\0",
        "1:6: error: control character U+0000, and TOML has none but tabs and the ends of lines\n",
    ),
    (b"b\r\n", "1:2: error: key with no value, expected `=`\n"),
    (
        b"[defaults.event]\nmax-nodes = 9223372036854775808\n",
        "2:13: error: number out of range for the key `max-nodes`\n",
    ),
    (
        b"[global]\ncreation-timeout = { nanos = 0, secs = -9223372036854775809 }\n",
        "2:40: error: number out of range for the key `secs`\n",
    ),
    (
        b"[defaults.event]\nevent-id-max-value = 0xFFFFFFFFFFFFFFFF\nmax-nodes = 1\n",
        "2:22: error: number out of range for the key `event-id-max-value`\n",
    ),
    (
        b"a = [ { b = 1, c.d = 0o1_000_000_000_000_000_000_000 }, 2 ]\n",
        "1:22: error: number out of range for the key `c.d`\n",
    ),
    (
        b"x = [\n0x8000_0000_0000_0000] # 1\n",
        "2:1: error: number out of range for the key `x`\n",
    ),
    (
        b"x = 0b1000000000000000000000000000000000000000000000000000000000000000",
        "1:5: error: number out of range for the key `x`\n",
    ),
    (
        b"x = 0x7fff_ffff_ffff_ffff\n",
        "1:1: warning: x: this table has no such key\n",
    ),
    (
        b"x = 0x10 3\n",
        "1:5: error: invalid value, expected a string in quotes, a number, `true`, `false`, a \
         date-time, an array or an inline table\n",
    ),
    (
        b"x = 0x\n",
        "1:5: error: invalid value, expected a string in quotes, a number, `true`, `false`, a \
         date-time, an array or an inline table\n",
    ),
    (
        b"x = 0b10000000000000000000000000000000000000000000000000000000000000002\n",
        "1:5: error: invalid value, expected a string in quotes, a number, `true`, `false`, a \
         date-time, an array or an inline table\n",
    ),
    (b"a = 1\na = 2\n", "2:1: error: duplicate key `a`\n"),
    (
        b"[ global ]\n\n[ global ]\n",
        "3:1: error: duplicate key `global`\n",
    ),
    (
        b"'a=b' = 1\n'a=b' = 2\n",
        "2:1: error: duplicate key `\"a=b\"`\n",
    ),
    (
        b"[defaults.event]\nx = [\"a=b\", 99999999999999999999]\n",
        "2:13: error: number out of range for the key `x`\n",
    ),
    (
        b"[defaults.event]\nx = [ # a=b\n99999999999999999999]\n",
        "3:1: error: number out of range for the key `x`\n",
    ),
    (
        b"[defaults.event]\n\"a,b\" = 99999999999999999999\n",
        "2:9: error: number out of range for the key `\"a,b\"`\n",
    ),
    (
        b"[defaults.event]\nx = [{a = 1}, 99999999999999999999]\n",
        "2:15: error: number out of range for the key `x`\n",
    ),
    (
        b"\xEF\xBB\xBFmax-nodes = 99999999999999999999\n",
        "1:13: error: number out of range for the key `max-nodes`\n",
    ),
    (
        b"[[ a ]] # [\n\nb = \"\"\"\n\\\"\"\"c = [{\n\"\"\"\nd = '''\n{ e = \\'''\n\
          f.'g' = 99999999999999999999\n",
        "8:9: error: number out of range for the key `f.g`\n",
    ),
    (
        b"a = { b = '}', c.d = [ [ ], { e = [ 1 ], }, 1.5, 99999999999999999999 ] }\n",
        "1:50: error: number out of range for the key `c.d`\n",
    ),
    (
        b"a = [ { b = 1,\n  c = true }, { d = { }, e = [ [ 99999999999999999999 ] ] } ]\n",
        "2:34: error: number out of range for the key `e`\n",
    ),
    (
        b"a = { b = { c = 1 }, d = 2 }\ne = { f = {}, g = 99999999999999999999 }\n",
        "2:19: error: number out of range for the key `g`\n",
    ),
    (
        b"\"global\".prefix = \"a\"\n\"global\".prefix = \"a\"\n",
        "2:1: error: the key `global.prefix`, or a table that it leads through, stands already\n",
    ),
    (
        b"[\"a\".b]\n[\"a\".b]\n",
        "2:1: error: the key `a.b`, or a table that it leads through, stands already\n",
    ),
    (
        b"[a.b]\nc = 1\n[a]\nb.d = 2\n",
        "4:1: error: the key `b.d`, or a table that it leads through, stands already\n",
    ),
    (
        b"\"a\\\"b\" = 1\n\"a\\\"b\" = 1\n",
        "2:1: error: duplicate key `'a\"b'`\n",
    ),
    (
        b"[a.\"b]c\"]\n[a.\"b]c\"]\n",
        "2:1: error: the key `a.\"b]c\"`, or a table that it leads through, stands already\n",
    ),
    (
        b"a = [ { b.c = 1, b . 'c' = 2 } ]\n",
        "1:18: error: the key `b.c`, or a table that it leads through, stands already\n",
    ),
    (
        b"[gl\xD0\xBEbal]\n",
        "1:4: error: U+043E in a key without quotes, expected ASCII letters, digits, `-`, `_`\n",
    ),
    (
        b"x = { gr\xC3\xB6\xC3\x9Fe = 1 }\n",
        "1:9: error: U+00F6 in a key without quotes, expected ASCII letters, digits, `-`, `_`\n",
    ),
    (
        b"\xF0\x9F\x98\x80 = 1\n",
        "1:1: error: U+1F600 in a key without quotes, expected ASCII letters, digits, `-`, `_`\n",
    ),
    (
        b"a\xC2\xA0= 1\n",
        "1:2: error: U+00A0 in a key without quotes, expected ASCII letters, digits, `-`, `_`\n",
    ),
    (
        b"a = 1\rb = 2\r",
        "1:6: error: a carriage return without a newline after it\n",
    ),
    (b"a = \"x\r\ny\"\n", "1:7: error: invalid string\n"),
    (
        b"a = \"C:\\Users\"\n",
        "1:9: error: invalid escape sequence, a backslash is written `\\\\`, or the text in single \
         quotes\n",
    ),
    (b"a = 1\n[[ a ]]\n", "2:1: error: duplicate key `a`\n"),
    (
        b"a = 1\n[ a.b ]\n",
        "2:1: error: cannot extend a value with the key `a.b`\n",
    ),
    (
        b"a = 1\na.'b c' = 2\n",
        "2:1: error: cannot extend a value with the key `a.\"b c\"`\n",
    ),
];

/// What is reported of a file.
fn reported(rt: &(impl Abort + AllocGlobal), file: &[u8]) -> String {
    match read_file(rt.alloc(), file) {
        Ok(read) => read.warnings,
        Err(ReportError::Refused(lines)) => lines,
        Err(ReportError::NoMemory) => panic!(rt; "no memory"),
    }
}

/// This is reported of a file.
fn is_reported(rt: &(impl Abort + AllocGlobal), file: &[u8], want: &str) {
    let lines = reported(rt, file);
    assert_eq!(rt; lines.as_str(), want);
}

#[test]
fn what_is_wrong_is_reported_with_its_position(rt: HostRuntime) {
    for (file, want) in &REPORTED {
        is_reported(&rt, file, want);
    }
}

/// A file with 3,971 lines of 33 bytes and these last ones.
fn large_file(alloc: Global, last: &str) -> Result<String, AllocError> {
    let mut file = "# a line of thirty-two bytes ...\n".repeat(alloc, 3_971)?;
    file.push_str(last)?;
    Ok(file)
}

/// In a file of more than 128 KiB no positions are searched for.
#[test]
fn a_large_file_is_reported_without_positions(rt: HostRuntime) -> Result<(), Fail> {
    let file = large_file(rt.alloc(), "size = 1\n")?;
    is_reported(
        &rt,
        file.as_str().as_bytes(),
        "3972:1: warning: size: this table has no such key\n",
    );
    let larger = large_file(rt.alloc(), "size = 1\n#23456789 123456789 123456789\n")?;
    is_reported(
        &rt,
        larger.as_str().as_bytes(),
        "warning: size: this table has no such key\n",
    );
    Ok(())
}

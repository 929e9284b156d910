//! Tables that are read, and tables that are refused: what comes of a table file after changes, and
//! of files at and past the limits.

use crate::same::is_same;
use njh_table::{Protocol, TableFault, Tables};
use std::alloc::{AllocError, Global};
use std::net::IpAddr;
use std::ops::Range;
use std::process::Abort;
use std::test::Fail;

/// The base tables as a file: two customers with a line each, and both lines lead to a node LYON.
const BASE: &str = r#"
capacity = 200
[[customer]]
name = "ACME"
hub = "BUREAU"
quota = 100
files = 8
[[customer.line]]
name = "a1"
node = "LYON"
role = "answer"
block = 1024
streams = 4
[[customer.route]]
node = "LYON"
line = "a1"
[[customer]]
name = "BOLT"
hub = "BUREAU"
quota = 100
files = 8
[[customer.line]]
name = "b1"
node = "LYON"
role = "answer"
block = 1024
streams = 4
[[customer.route]]
node = "LYON"
line = "b1"
"#;

/// What comes of a file: `taken`, or its fault as it is printed.
fn outcome(alloc: Global, text: &str) -> Result<String, AllocError> {
    match Tables::read(alloc, text) {
        Ok(_) => String::from_str(alloc, "taken"),
        Err(TableFault::Memory) => Err(AllocError),
        Err(fault) => fault.to_string(alloc),
    }
}

/// What comes of the base tables after changes. `A > B` puts B in the place of the first A; `/` is
/// the end of a line, `~` a slash, and `#` begins a comment.
const ONE: &str = r#"
K1 BadToml: capacity = 200 > capacity =
K1 BadToml: capacity = 200 > capacity = 200/capacity = 200
K1 BadToml: capacity = 200 > capacity = 9223372036854775808
K1 BadToml: [[customer.route]] > [[customer.route]
K2 MissingKey: capacity = 200 > #
K2 MissingKey: name = "ACME" > #
K2 MissingKey: hub = "BUREAU" > #
K2 MissingKey: quota = 100 > #
K2 MissingKey: files = 8 > #
K2 MissingKey: name = "a1" > #
K2 MissingKey: node = "LYON" > #
K2 MissingKey: role = "answer" > #
K2 MissingKey: block = 1024 > #
K2 MissingKey: streams = 4 > #
K2 MissingKey: node = "LYON"/line > line
K2 MissingKey: line = "a1" > #
K2 MissingKey: line = "a1" > second = 3
K3 BadValue: files = 8 > files = 0
K3 BadValue: files = 8 > files = 1025
K3 BadValue: files = 8 > files = 8.0
K3 BadValue: capacity = 200 > capacity = 0
K3 BadValue: capacity = 200 > capacity = 4194241
K3 BadValue: quota = 100 > quota = 0
K3 BadValue: quota = 100 > quota = 65536
K3 BadValue: block = 1024 > block = 299
K3 BadValue: block = 1024 > block = 4097
K3 BadValue: streams = 4 > streams = 0
K3 BadValue: streams = 4 > streams = 5
K3 BadValue: streams = 4 > streams = 4/port = 65536
K3 BadValue: streams = 4 > streams = 4/port = -1
K3 BadValue: streams = 4 > streams = 4/connect = "127.0.0.1:0"
K3 BadValue: streams = 4 > streams = 4/connect = "127.0.0.1"
K3 BadValue: streams = 4 > streams = 4/connect = "127.0.0.1:65536"
K3 BadValue: streams = 4 > streams = 4/connect = "127.0.0.01:17501"
K3 BadValue: streams = 4 > streams = 4/connect = "localhost:17501"
K3 BadValue: streams = 4 > streams = 4/connect = "::1:17501"
K3 BadValue: streams = 4 > streams = 4/connect = "[::1]:0"
K3 BadValue: streams = 4 > streams = 4/connect = ""
K3 BadValue: streams = 4 > streams = 4/connect = 17501
K3 BadValue: streams = 4 > streams = 4/port = 17501/connect = "127.0.0.1:17501"
K3 BadValue: streams = 4 > streams = 4/from = ["192.0.2.7"]
K3 BadValue: streams = 4 > streams = 4/port = 0/from = ["192.0.2.7"]
K3 BadValue: streams = 4 > streams = 4/connect = "127.0.0.1:17501"/from = ["192.0.2.7"]
K3 BadValue: streams = 4 > streams = 4/port = 17501/from = []
K3 BadValue: streams = 4 > streams = 4/port = 17501/from = "192.0.2.7"
K3 BadValue: streams = 4 > streams = 4/port = 17501/from = [3]
K3 BadValue: streams = 4 > streams = 4/port = 17501/from = [["192.0.2.7"]]
K3 BadValue: streams = 4 > streams = 4/port = 17501/from = [""]
K3 BadValue: streams = 4 > streams = 4/port = 17501/from = ["localhost"]
K3 BadValue: streams = 4 > streams = 4/port = 17501/from = ["192.0.2.7", "192.0.2"]
K3 BadValue: streams = 4 > streams = 4/port = 17501/from = ["192.0.2.07"]
K3 BadValue: streams = 4 > streams = 4/port = 17501/from = ["192.0.2.7:17501"]
K3 BadValue: streams = 4 > streams = 4/port = 17501/from = [" 192.0.2.7"]
K3 BadValue: streams = 4 > streams = 4/port = 17501/from = ["[::1]"]
K3 BadValue: streams = 4 > streams = 4/port = 17501/from = ["fe80::1%3"]
K3 BadValue: streams = 4 > streams = 4/port = 17501/from = ["10.1.0.0~"]
K3 BadValue: streams = 4 > streams = 4/port = 17501/from = ["~16"]
K3 BadValue: streams = 4 > streams = 4/port = 17501/from = ["10.1.0.0~16~16"]
K3 BadValue: streams = 4 > streams = 4/port = 17501/from = ["10.1.0.0~+16"]
K3 BadValue: streams = 4 > streams = 4/port = 17501/from = ["10.1.0.0~016"]
K3 BadValue: streams = 4 > streams = 4/port = 17501/from = ["10.1.0.0~1 6"]
K3 BadValue: streams = 4 > streams = 4/port = 17501/from = ["10.1.0.0~255.255.0.0"]
K3 BadValue: streams = 4 > streams = 4/port = 17501/from = ["10.1.0.0~33"]
K3 BadValue: streams = 4 > streams = 4/port = 17501/from = ["10.1.0.0~272"]
K3 BadValue: streams = 4 > streams = 4/port = 17501/from = ["2001:db8::~129"]
K3 BadValue: streams = 4 > streams = 4/port = 17501/from = ["10.1.0.1~16"]
K3 BadValue: streams = 4 > streams = 4/port = 17501/from = ["10.1.0.0~15"]
K3 BadValue: streams = 4 > streams = 4/port = 17501/from = ["0.0.0.1~0"]
K3 BadValue: streams = 4 > streams = 4/port = 17501/from = ["2001:db8::1~32"]
K3 BadValue: streams = 4 > streams = 4/port = 17501/from = ["::1~0"]
K3 BadValue: streams = 4 > streams = 4/protocol = ""
K3 BadValue: streams = 4 > streams = 4/protocol = "TCP"
K3 BadValue: streams = 4 > streams = 4/protocol = "tcp "
K3 BadValue: streams = 4 > streams = 4/protocol = true
K3 BadValue: streams = 4 > streams = 4/protocol = ["tcp"]
K3 BadValue: role = "answer" > role = "call"/port = 17501/protocol = "tcp"
K3 BadValue: streams = 4 > streams = 4/connect = "127.0.0.1:17501"/protocol = "tcp"
K3 BadValue: streams = 4 > streams = 4/password = "secret"
K3 BadValue: role = "answer" > role = "Answer"
K3 BadValue: name = "ACME" > name = "ACMEACMEA"
K3 BadValue: name = "BOLT" > name = "ACME"
K3 BadValue: hub = "BUREAU" > hub = "bureau"
K3 BadValue: node = "LYON" > node = "LYON "
K3 BadValue: name = "a1" > name = "a1a1a1a1a"
K3 BadValue: name = "a1" > name = "a-1"
K3 BadValue: name = "a1" > name = ""
K3 BadValue: line = "a1" > line = 1
K3 BadValue: line = "a1" > line = "a1"/second = 3
K3 BadValue: line = "a1" > line = "a1"/second = "a1"
K3 BadValue: line = "a1" > line = "no such!"/second = "no such!"
K3 BadValue: files = 8/[[customer.line]] > files = 8/[customer.line]
K3 BadValue: files = 8/[[customer.line]] > files = 8/line = [3]/[[customer.other]]
K4 DoubleLine: name = "b1" > name = "a1"
K4 DoubleLine: line = "b1" > line = "b1"/[[customer.line]]/name = "a1"
K5 DoubleNode: node = "LYON"/line > node = "BUREAU"/line
K5 DoubleNode: line = "a1" > line = "a1"/[[customer.route]]/node = "LYON"/line = "a1"
K6 UnknownLine: line = "a1" > line = "b1"
K6 UnknownLine: line = "a1" > line = "A1"
K6 UnknownLine: line = "a1" > line = "no such!"
K6 UnknownLine: line = "a1" > line = "a1"/second = "b1"
K6 UnknownLine: line = "b1" > line = "b1"/second = "a1"
K6 UnknownLine: line = "a1" > line = "a1"/second = "A1"
K6 UnknownLine: line = "a1" > line = "a1"/second = ""
K7 QuotaOver: capacity = 200 > capacity = 199
K7 QuotaOver: quota = 100 > quota = 3 | quota = 100 > quota = 2 | capacity = 200 > capacity = 4
taken: quota = 100 > quota = 3 | quota = 100 > quota = 2 | capacity = 200 > capacity = 5
taken: quota = 100/files = 8 > files = 1024/quota = 1
taken: capacity = 200 > capacity = 4194240 | quota = 100 > quota = 65535
taken: block = 1024/streams = 4 > block = 300/streams = 1
taken: block = 1024 > block = 4096/port = 65535
taken: streams = 4 > streams = 4/password = "SECRET"
taken: streams = 4 > streams = 4/password = ""/port = 0
taken: streams = 4 > streams = 4/connect = "127.0.0.1:17501"
taken: streams = 4 > streams = 4/connect = "[2001:db8::7]:65535"/port = 0
taken: streams = 4 > streams = 4/port = 17501/from = ["192.0.2.7"]
taken: streams = 4 > streams = 4/from = ["192.0.2.7", "10.1.0.0~16", "2001:db8::~32", "::1"]/port = 1
taken: streams = 4 > streams = 4/port = 17501/from = ["0.0.0.0~0", "::~0", "::ffff:10.1.0.0~112"]
taken: streams = 4 > streams = 4/port = 17501/from = ["10.1.0.1~32", "2001:DB8:0:0:0:0:0:1~128"]
taken: streams = 4 > streams = 4/protocol = "bisync"
taken: streams = 4 > streams = 4/protocol = "tcp"
taken: streams = 4 > streams = 4/protocol = "tcp"/port = 17501
taken: role = "answer" > role = "call"/protocol = "tcp"
taken: role = "answer" > role = "call"/port = 0/connect = "127.0.0.1:17501"/protocol = "tcp"
taken: role = "answer" > role = "call"/port = 17501/protocol = "bisync"
taken: streams = 4 > streams = 4/connect = "127.0.0.1:17501"/protocol = "bisync"
taken: role = "answer" > role = "call" | hub = "BUREAU" > hub = "PARIS"
taken: capacity = 200 > capacity = 200/colour = "red"
"#;

/// Longer ones.
const LONG: &str = "\
    K2 MissingKey: [[customer]] > [[customers]] | [[customer]] > [[customers]] | \
    [[customer. > [[customers. | [[customer. > [[customers. | [[customer. > [[customers. | \
    [[customer. > [[customers.\n\
    taken: [[customer.route]] > [[customer.line]]/name = \"a2\"/node = \"METZ\"/\
    role = \"answer\"/block = 1024/streams = 4/[[customer.route]] | \
    line = \"a1\" > line = \"a1\"/second = \"a2\"\n\
    taken: node = \"LYON\" > node = \"METZ\" | files = 8 > files = 8/route = [] | \
    [[customer.route]]/node = \"LYON\"/line = \"a1\" > #";

/// Lines that say of 16 addresses, and of one more.
const MANY: &str = "\
    taken: streams = 4 > streams = 4/port = 17501/from = [\"10.0.0.1\", \"10.0.0.2\", \
    \"10.0.0.3\", \"10.0.0.4\", \"10.0.0.5\", \"10.0.0.6\", \"10.0.0.7\", \"10.0.0.8\", \
    \"10.0.0.9\", \"10.0.0.10\", \"10.0.0.11\", \"10.0.0.12\", \"10.0.0.13\", \"10.0.0.14\", \
    \"10.0.0.15\", \"10.0.0.16\"]\n\
    K3 BadValue: streams = 4 > streams = 4/port = 17501/from = [\"10.0.0.1\", \"10.0.0.2\", \
    \"10.0.0.3\", \"10.0.0.4\", \"10.0.0.5\", \"10.0.0.6\", \"10.0.0.7\", \"10.0.0.8\", \
    \"10.0.0.9\", \"10.0.0.10\", \"10.0.0.11\", \"10.0.0.12\", \"10.0.0.13\", \"10.0.0.14\", \
    \"10.0.0.15\", \"10.0.0.16\", \"10.0.0.17\"]";

/// Two changes, of which each alone has a fault: the first is told.
const TWO: &str = r#"
K1 BadToml: line = "b1" > line = | capacity = 200 > #
K1 BadToml: line = "b1" > line = | capacity = 200 > capacity = 199
K3 BadValue: capacity = 200 > capacity = 0 | name = "ACME" > #
K2 MissingKey: name = "ACME" > # | hub = "BUREAU" > hub = 1
K3 BadValue: name = "ACME" > name = 1 | name = "BOLT" > #
K2 MissingKey: hub = "BUREAU" > # | quota = 100 > quota = 0
K3 BadValue: quota = 100 > quota = 0 | files = 8 > #
K2 MissingKey: quota = 100 > # | files = 8 > files = 0
K3 BadValue: files = 8 > files = 0 | name = "a1" > #
K3 BadValue: files = 8/[[customer.line]] > files = 8/line = 3/[[customer.other]] | line = "a1" > #
K2 MissingKey: name = "a1" > # | node = "LYON" > node = 1
K2 MissingKey: node = "LYON" > # | role = "answer" > role = 1
K3 BadValue: role = "answer" > role = 1 | block = 1024 > #
K2 MissingKey: block = 1024 > # | streams = 4 > streams = 5
K3 BadValue: streams = 4 > streams = 5 | line = "a1" > line = "b1"
K3 BadValue: streams = 4 > streams = 4/connect = "" | name = "b1" > name = "a1"
K3 BadValue: streams = 4 > streams = 4/from = [] | name = "b1" > name = "a1"
K3 BadValue: streams = 4 > streams = 4/protocol = "" | name = "b1" > name = "a1"
K2 MissingKey: node = "LYON"/line > line | line = "a1" > line = 1
K3 BadValue: line = "a1" > line = 1 | node = "LYON"/line > node = "BUREAU"/line
K3 BadValue: line = "a1" > line = "a1"/second = 3 | node = "LYON"/line > node = "BUREAU"/line
K3 BadValue: line = "a1" > line = "a1"/second = "a1" | node = "LYON"/line > node = "BUREAU"/line
K3 BadValue: line = "a1" > line = "b1" | line = "b1" > line = "b1"/second = "b1"
K5 DoubleNode: line = "a1" > line = "a1"/second = "b1" | node = "LYON"/line > node = "BUREAU"/line
K6 UnknownLine: line = "a1" > line = "a1"/second = "b1" | line = "b1" > line = "b1"/second = "b1"
K5 DoubleNode: node = "LYON"/line > node = "BUREAU"/line | line = "a1" > line = "b1"
K5 DoubleNode: node = "LYON"/line > node = "BUREAU"/line | name = "b1" > name = "a1"
K6 UnknownLine: line = "a1" > line = "b1" | name = "b1" > name = "a1"
K4 DoubleLine: name = "b1" > name = "a1" | node = "LYON" > node = "METZ" | capacity = 200 > capacity = 199
"#;

/// The base tables after changes.
fn changed(alloc: Global, changes: &str) -> Result<String, Fail> {
    let mut text = String::from_str(alloc, BASE)?;
    for change in changes.split(" | ") {
        text = changed_once(alloc, text.as_str(), change)?;
    }
    Ok(text)
}

fn changed_once(alloc: Global, text: &str, change: &str) -> Result<String, Fail> {
    let (from, to) = change.split_once(" > ").ok_or("a change without >")?;
    let from = from.replace(alloc, "/", "\n")?;
    if !text.contains(from.as_str()) {
        return Err("a change of nothing".into());
    }
    let to = to.replace(alloc, "/", "\n")?.replace(alloc, "~", "/")?;
    Ok(text.replacen(alloc, from.as_str(), to.as_str(), 1)?)
}

/// A line of the cases.
fn comes<R: Abort>(rt: &R, alloc: Global, case: &str) -> Result<(), Fail> {
    let (want, changes) = case.split_once(": ").ok_or("a case without :")?;
    let text = changed(alloc, changes)?;
    let found = outcome(alloc, text.as_str())?;
    is_same(rt, found.as_str(), want, case);
    Ok(())
}

#[test]
fn what_comes_of_changes(rt: HostRuntime) -> Result<(), Fail> {
    for cases in [ONE, LONG, MANY, TWO] {
        for case in cases.trim().lines() {
            comes(&rt, rt.alloc(), case)?;
        }
    }
    Ok(())
}

/// Customers, the lines of the first, routes of each, what is last in the file, and what comes
/// of it. What is past its limit is told before its keys, which are missing.
const SIZES: [([u32; 3], &str, &str); 10] = [
    ([64, 4, 0], "", "taken"),
    ([1, 4, 512], "", "taken"),
    ([65, 4, 0], "", "K8 TooMany"),
    ([64, 5, 0], "", "K8 TooMany"),
    ([1, 4, 513], "", "K8 TooMany"),
    ([64, 4, 0], "[[customer]]", "K8 TooMany"),
    ([63, 4, 0], "[[customer]]", "K2 MissingKey"),
    ([1, 256, 0], "[[customer.line]]", "K8 TooMany"),
    ([1, 255, 0], "[[customer.line]]", "K2 MissingKey"),
    ([1, 4, 512], "[[customer.route]]", "K8 TooMany"),
];

/// What a file has again and again: a customer, a line of it and a route of it. Their numbers
/// stand for `#` and for `%`.
const CUSTOMER: &str = r##"[[customer]]
name = "C#"
hub = "H"
quota = 65535
files = 1024
"##;

const LINE: &str = r##"[[customer.line]]
name = "l#x%"
node = "N"
role = "call"
block = 300
streams = 1
"##;

const ROUTE: &str = r##"[[customer.route]]
node = "N%"
line = "l#x3"
"##;

/// A pattern again and again, with each of the numbers in place of its mark.
fn repeated(
    alloc: Global,
    pattern: &str,
    mark: &str,
    numbers: Range<u32>,
) -> Result<String, AllocError> {
    let mut text = String::new(alloc);
    for number in numbers {
        let digits = number.to_string(alloc)?;
        text.push_str(pattern.replace(alloc, mark, digits.as_str())?.as_str())?;
    }
    Ok(text)
}

/// Customers of these numbers with so many lines and routes each.
fn customers(
    alloc: Global,
    numbers: Range<u32>,
    lines: u32,
    routes: u32,
) -> Result<String, AllocError> {
    let lines = repeated(alloc, LINE, "%", 0..lines)?;
    let routes = repeated(alloc, ROUTE, "%", 0..routes)?;
    let pattern = format!(in alloc; "{CUSTOMER}{lines}{routes}")?;
    repeated(alloc, pattern.as_str(), "#", numbers)
}

/// A file of so many customers with four lines each, the first with so many, and so many routes
/// each.
fn file(alloc: Global, [count, lines, routes]: [u32; 3], last: &str) -> Result<String, AllocError> {
    let first = customers(alloc, 0..1, lines, routes)?;
    let others = customers(alloc, 1..count, 4, routes)?;
    format!(in alloc; "capacity = 4194240\n{first}{others}{last}")
}

/// A file of such sizes.
fn comes_of_sizes<R: Abort>(
    rt: &R,
    alloc: Global,
    sizes: [u32; 3],
    last: &str,
    want: &str,
) -> Result<(), Fail> {
    let text = file(alloc, sizes, last)?;
    let found = outcome(alloc, text.as_str())?;
    is_same(rt, found.as_str(), want, last);
    Ok(())
}

#[test]
fn files_at_and_past_a_limit(rt: HostRuntime) -> Result<(), Fail> {
    for (sizes, last, want) in &SIZES {
        comes_of_sizes(&rt, rt.alloc(), *sizes, last, want)?;
    }
    Ok(())
}

/// A key of a line, addresses from which its peer may connect, and some from which it may not.
const FROM: [[&str; 3]; 7] = [
    ["", "192.0.2.7 ::1 255.255.255.255", ""],
    [
        "from = [\"192.0.2.7\"]",
        "192.0.2.7 ::ffff:192.0.2.7",
        "192.0.2.6 192.0.3.7 ::192.0.2.7 ::1",
    ],
    [
        "from = [\"10.1.0.0/16\"]",
        "10.1.0.0 10.1.255.255 ::ffff:10.1.2.3",
        "10.0.255.255 10.2.0.0 11.1.0.0 2001:db8::10.1.0.0",
    ],
    [
        "from = [\"2001:db8::/32\"]",
        "2001:db8:: 2001:db8:ffff:ffff:ffff:ffff:ffff:ffff",
        "2001:db7:ffff:ffff:ffff:ffff:ffff:ffff 2001:db9:: 32.1.13.184",
    ],
    [
        "from = [\"10.0.0.1\", \"10.0.0.8/29\", \"::1\"]",
        "10.0.0.1 10.0.0.8 10.0.0.15 ::1",
        "10.0.0.0 10.0.0.2 10.0.0.7 10.0.0.16 :: 127.0.0.1",
    ],
    [
        "from = [\"0.0.0.0/0\"]",
        "0.0.0.0 255.255.255.255 ::ffff:0.0.0.0",
        ":: ::1 ::fffe:ffff:ffff",
    ],
    [
        "from = [\"::/0\"]",
        ":: ffff:ffff:ffff:ffff:ffff:ffff:ffff:ffff 127.0.0.1",
        "",
    ],
];

/// Whether the peer of a line with this key may connect from an address.
fn connects(alloc: Global, key: &str, address: &str) -> Result<&'static str, Fail> {
    let keys = format!(in alloc; "streams = 4\nport = 17501\n{key}")?;
    let text = BASE.replacen(alloc, "streams = 4", keys.as_str(), 1)?;
    let tables = Tables::read(alloc, text.as_str())?;
    let line = tables.line_owner("a1").ok_or("no line a1")?;
    let address = address.parse::<IpAddr>()?;
    if tables.line(line).from().allows(address) {
        Ok("it may")
    } else {
        Ok("it may not")
    }
}

#[test]
fn from_where_a_peer_may_connect(rt: HostRuntime) -> Result<(), Fail> {
    for [key, within, outside] in &FROM {
        for address in within.split_whitespace() {
            is_same(&rt, connects(rt.alloc(), key, address)?, "it may", address);
        }
        for address in outside.split_whitespace() {
            is_same(
                &rt,
                connects(rt.alloc(), key, address)?,
                "it may not",
                address,
            );
        }
    }
    Ok(())
}

/// Keys of a line, and how its bytes are written on its connections.
const PROTOCOLS: [[&str; 2]; 5] = [
    ["port = 17501", "bisync"],
    ["port = 17501\nprotocol = \"bisync\"", "bisync"],
    ["port = 17501\nprotocol = \"tcp\"", "tcp"],
    ["connect = \"127.0.0.1:17501\"", "bisync"],
    ["protocol = \"tcp\"", "tcp"],
];

/// How the bytes of a line with these keys are written.
fn protocol_of(alloc: Global, keys: &str) -> Result<&'static str, Fail> {
    let keys = format!(in alloc; "streams = 4\n{keys}")?;
    let text = BASE.replacen(alloc, "streams = 4", keys.as_str(), 1)?;
    let tables = Tables::read(alloc, text.as_str())?;
    let line = tables.line_owner("a1").ok_or("no line a1")?;
    match tables.line(line).protocol() {
        Protocol::Bisync => Ok("bisync"),
        Protocol::Tcp => Ok("tcp"),
    }
}

#[test]
fn protocols_of_lines(rt: HostRuntime) -> Result<(), Fail> {
    for [keys, protocol] in &PROTOCOLS {
        is_same(&rt, protocol_of(rt.alloc(), keys)?, protocol, keys);
    }
    Ok(())
}

//! The keys of a services file, a row for each, in the order in which their values are checked.

use file_keys::{Absent, Key, KeyValue, Row, push_keys};
use std::alloc::{AllocError, Global};

pub const VERSION: Key = Row {
    name: "version",
    value: KeyValue::Number { least: 1, most: 1 },
    absent: Absent::Refused,
    help: "the version of the file",
};

pub const URL: Key = Row {
    name: "url",
    value: KeyValue::Text,
    absent: Absent::Words("none"),
    help: "the URL of each machine that has none of its own",
};

pub const CONNECT_MS: Key = Row {
    name: "connect_ms",
    value: KeyValue::Number {
        least: 1,
        most: 60_000,
    },
    absent: Absent::Number(3_500),
    help: "how many milliseconds opening a connection may take",
};

pub const FUNCTIONS: Key = Row {
    name: "functions",
    value: KeyValue::Table,
    absent: Absent::Words("empty"),
    help: "a table that has a table for each function with keys of its own",
};

pub const MACHINES: Key = Row {
    name: "machines",
    value: KeyValue::Table,
    absent: Absent::Words("empty"),
    help: "a table that has a table for each machine with a URL of its own",
};

pub const PAGE: Key = Row {
    name: "page",
    value: KeyValue::Table,
    absent: Absent::Words("no page"),
    help: "where the page of the farm is",
};

pub const TIMEOUT_MS: Key = Row {
    name: "timeout_ms",
    value: KeyValue::Number {
        least: 1,
        most: 4_294_967_295,
    },
    absent: Absent::Words("`job_timeout_ms`"),
    help: "how many milliseconds a job of F may take, never more than `job_timeout_ms`",
};

pub const RETRIES: Key = Row {
    name: "retries",
    value: KeyValue::Number {
        least: 0,
        most: 4_294_967_295,
    },
    absent: Absent::Words("no bound"),
    help: "how many times a job of F that services leave unserved comes again before it fails",
};

pub const RESEND: Key = Row {
    name: "resend",
    value: KeyValue::Boolean,
    absent: Absent::Boolean(true),
    help: "whether a job of F that a kept connection cut off before any byte of a response is sent once more",
};

pub const MACHINE_URL: Key = Row {
    name: "url",
    value: KeyValue::Text,
    absent: Absent::Words("`url`"),
    help: "where the jobs of machine M go",
};

pub const LISTEN: Key = Row {
    name: "listen",
    value: KeyValue::Address,
    absent: Absent::Refused,
    help: "where the page is: an IPv4 address, or an IPv6 address in brackets, a colon and a port from 1 to 65535",
};

pub const HOSTS: Key = Row {
    name: "hosts",
    value: KeyValue::Hosts,
    absent: Absent::Words("none"),
    help: "further names or addresses under which the page may be asked for",
};

pub const BACKLOG: Key = Row {
    name: "backlog",
    value: KeyValue::Number {
        least: 1,
        most: 4_294_967_295,
    },
    absent: Absent::Words("none"),
    help: "how many jobs may wait for each worker of a function: with it the page says how many workers are missing",
};

/// How many keys the top table has.
pub const TOP: usize = 6;

/// The place of `connect_ms` among them.
pub const CONNECT_PLACE: usize = 2;

/// The keys of the top table, in the order in which their values are checked.
pub static TOP_KEYS: [Key; TOP] = [VERSION, URL, CONNECT_MS, FUNCTIONS, MACHINES, PAGE];

/// The keys of the table of a function.
pub static FUNCTION_KEYS: [Key; 3] = [TIMEOUT_MS, RETRIES, RESEND];

/// The keys of the table of a machine.
pub static MACHINE_KEYS: [Key; 1] = [MACHINE_URL];

/// The keys of the table `page`.
pub static PAGE_KEYS: [Key; 3] = [LISTEN, HOSTS, BACKLOG];

/// A row of a table for each key: its name and where it stands, what its value has to be, what a file without it means, and what it is for.
/// The only error is out of memory.
pub fn keys_text(alloc: Global) -> Result<String, AllocError> {
    let mut out = String::new(alloc);
    push_keys(&mut out, "", &TOP_KEYS)?;
    push_keys(&mut out, "machines.M.", &MACHINE_KEYS)?;
    push_keys(&mut out, "functions.F.", &FUNCTION_KEYS)?;
    push_keys(&mut out, "page.", &PAGE_KEYS)?;
    Ok(out)
}

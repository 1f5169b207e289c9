//! The keys of a settings file, a row for each, in the order in which they are checked.

use file_keys::{Absent, Key, KeyValue, Row, push_keys};
use std::alloc::{AllocError, Global};

pub const VERSION: Key = Row {
    name: "version",
    value: KeyValue::Number { least: 1, most: 2 },
    absent: Absent::Refused,
    help: "to 2 for `most`; nothing else differs",
};

pub const SERVER: Key = Row {
    name: "server",
    value: KeyValue::Bytes {
        least: 1,
        most: 255,
    },
    absent: Absent::Text("127.0.0.1:4730"),
    help: "the job server is elsewhere; it is dialled as `host:port`",
};

pub const JOB_TIMEOUT_MS: Key = Row {
    name: "job_timeout_ms",
    value: KeyValue::Number {
        least: 1,
        most: 4_294_967_295,
    },
    absent: Absent::Number(60_000),
    help: "jobs take longer, or stuck workers are to go sooner",
};

pub const MAX_RUNS: Key = Row {
    name: "max_runs",
    value: KeyValue::Number {
        least: 1,
        most: 4_294_967_295,
    },
    absent: Absent::Number(4_294_967_295),
    help: "a job leaks: its worker is replaced after so many runs",
};

pub const ROUND_MS: Key = Row {
    name: "round_ms",
    value: KeyValue::Number {
        least: 1,
        most: 3_600_000,
    },
    absent: Absent::Number(1_000),
    help: "the pause between attempts: less to follow queues faster, more to plan less",
};

pub const LULL_MS: Key = Row {
    name: "lull_ms",
    value: KeyValue::Number {
        least: 1,
        most: 3_600_000,
    },
    absent: Absent::Number(100),
    help: "the read timeout, after which a worker looks at its order: less to see orders sooner, more to idle cheaper",
};

pub const HISTORY: Key = Row {
    name: "history",
    value: KeyValue::Number {
        least: 1,
        most: 1_048_576,
    },
    absent: Absent::Number(1_048_576),
    help: "memory is short: see *What `history` bounds*",
};

pub const FUNCTIONS: Key = Row {
    name: "functions",
    value: KeyValue::Table,
    absent: Absent::Refused,
    help: "a table for each function, by its name",
};

pub const MACHINES: Key = Row {
    name: "machines",
    value: KeyValue::Table,
    absent: Absent::Refused,
    help: "a table for each machine, by its name",
};

pub const LEAST: Key = Row {
    name: "least",
    value: KeyValue::Number {
        least: 0,
        most: 4_096,
    },
    absent: Absent::Number(0),
    help: "F is to have workers even if no job waits",
};

pub const MOST: Key = Row {
    name: "most",
    value: KeyValue::Number {
        least: 0,
        most: 4_096,
    },
    absent: Absent::Words("the number of all workers"),
    help: "the back end of F bears no more",
};

pub const WORKERS: Key = Row {
    name: "workers",
    value: KeyValue::Number {
        least: 0,
        most: 4_096,
    },
    absent: Absent::Refused,
    help: "how many workers M has",
};

pub const LISTED: Key = Row {
    name: "functions",
    value: KeyValue::Texts,
    absent: Absent::Refused,
    help: "the functions that its workers may do",
};

/// How many keys the top table has.
pub const TOP: usize = 9;

/// The places of its numbers.
pub const JOB_TIMEOUT_PLACE: usize = 2;

pub const MAX_RUNS_PLACE: usize = 3;

pub const ROUND_PLACE: usize = 4;

pub const LULL_PLACE: usize = 5;

pub const HISTORY_PLACE: usize = 6;

/// The keys of the top table.
pub static TOP_KEYS: [Key; TOP] = [
    VERSION,
    SERVER,
    JOB_TIMEOUT_MS,
    MAX_RUNS,
    ROUND_MS,
    LULL_MS,
    HISTORY,
    FUNCTIONS,
    MACHINES,
];

/// The keys of the table of a function.
pub static FUNCTION_KEYS: [Key; 2] = [LEAST, MOST];

/// Those of them that version 1 has.
pub static FIRST_FUNCTION_KEYS: [Key; 1] = [LEAST];

/// The keys of the table of a machine.
pub static MACHINE_KEYS: [Key; 2] = [WORKERS, LISTED];

/// A row of a table for each key: its name and where it stands, what its value has to be, what a file without it means, and when to change
/// it. The only error is out of memory.
pub fn keys_text(alloc: Global) -> Result<String, AllocError> {
    let mut out = String::new(alloc);
    push_keys(&mut out, "", &TOP_KEYS)?;
    push_keys(&mut out, "functions.F.", &FUNCTION_KEYS)?;
    push_keys(&mut out, "machines.M.", &MACHINE_KEYS)?;
    Ok(out)
}

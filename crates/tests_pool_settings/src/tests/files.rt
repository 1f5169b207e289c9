//! Whole files: their refusals, and the values of keys that they leave out.

use pool_settings::{Settings, SettingsError};
use refusal::Labelled;
use std::alloc::{AllocError, Global};

/// What a line says in the part of this name, if it has the part.
fn part<'t>(line: &'t str, name: &str) -> Option<&'t str> {
    line.split("; ").find_map(|part| part.strip_prefix(name))
}

/// A file of two machines. A line may give the version, a top key, a function's keys, and the first machine's name, workers and
/// functions otherwise.
fn file(alloc: Global, line: &str) -> Result<String, AllocError> {
    let version = part(line, "version ").unwrap_or("1");
    let top = part(line, "top ").unwrap_or("");
    let function = part(line, "function ").unwrap_or("");
    let machine = part(line, "machine ").unwrap_or("a");
    let workers = part(line, "workers ").unwrap_or("1");
    let listed = part(line, "listed ").unwrap_or("\"x\"");
    format!(in alloc;
        "version = {version}
{top}
[functions.x]
{function}
[functions.y]
[machines.{machine}]
workers = {workers}
functions = [{listed}]
[machines.b]
workers = 1
functions = [\"x\", \"y\"]
"
    )
}

/// The settings of a file that a line gives.
pub fn settings(alloc: Global, line: &str) -> Result<Settings, SettingsError> {
    Settings::read(alloc, file(alloc, line)?.as_bytes())
}

pub fn error_of(alloc: Global, text: &[u8]) -> Option<SettingsError> {
    match Settings::read(alloc, text) {
        Ok(_) => None,
        Err(error) => Some(error),
    }
}

#[test]
fn refusals_of_texts(rt: HostRuntime) {
    let alloc = rt.alloc();
    assert!(rt; error_of(alloc, b"version = ") == Some(SettingsError::Text));
    assert!(rt; error_of(alloc, b"version = 1 # \xff\n") == Some(SettingsError::Text));
    assert!(rt; error_of(alloc, b"") == Some(SettingsError::Version));
    assert!(rt; error_of(alloc, b" \t\r\n# version = 1\n") == Some(SettingsError::Version));
    assert!(rt; error_of(alloc, b"version = 1\n") == Some(SettingsError::MissingKey));
}

/// Files, each after its refusal.
const FILES: [&str; 13] = [
    "none: ",
    "none: version 2; function most = 1",
    "BadValue: version 2; function most = 4097",
    "none: version 2; function least = 2\nmost = 1",
    "Version: version 3; function most = 1",
    "Version: version 1.0",
    "UnknownKey: top speed = 3",
    "UnknownKey: function most = 3; workers -1",
    "BadName: machine \"a/b\"",
    "BadValue: workers -1",
    "UnknownFunction: listed \"z\"",
    "none: workers 4095",
    "TooMany: workers 4096",
];

/// The name of the refusal of a file that a line gives.
fn refusal(alloc: Global, line: &str) -> &'static str {
    match settings(alloc, line) {
        Ok(_) => "none",
        Err(error) => error.label().name(),
    }
}

#[test]
fn refusals_of_parts(rt: HostRuntime) {
    let alloc = rt.alloc();
    for line in FILES {
        let (wanted, file) = line.split_once(": ").unwrap_or((line, ""));
        assert_eq!(rt; refusal(alloc, file), wanted, "{file}");
    }
}

#[test]
fn defaults(rt: HostRuntime) {
    let alloc = rt.alloc();
    let settings = settings(alloc, "").expect(&rt, "settings");
    assert!(rt; settings.server() == "127.0.0.1:4730");
    assert!(rt; (settings.job_timeout_ms(), settings.max_runs()) == (60_000, 4_294_967_295));
    assert!(rt;
        (settings.round_ms(), settings.lull_ms(), settings.history()) == (1_000, 100, 1_048_576)
    );
}

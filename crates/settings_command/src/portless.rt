//! A job server that is named without a port.

ghost use Rattle.std.specs.Prelude.{◌≡◌, ◌++◌, OnOk, string_bytes};
ghost use Rattle.settings_command.specs.Remarks as spec;

use crate::place::push_printable;
use file_keys::has_port;
use pool_settings::Settings;
use std::alloc::AllocError;
use std::fmt::Write;

fn push_portless_line(out: &mut String, server: &str) -> Result<(), AllocError>
    ensures { OnOk result (string_bytes out.new ≡ string_bytes out.old ++ spec.portless_line server.now) }
{
    write!(out, "remark server {server} has no port\n")
}

/// A line on the job server, if a worker cannot dial it for want of a port.
pub fn push_portless(out: &mut String, settings: &Settings) -> Result<(), AllocError>
    ensures { OnOk result (string_bytes out.new ≡ string_bytes out.old ++ spec.portless_remark settings.now) }
{
    let server = settings.server();
    if has_port(server.as_bytes()) {
        return Ok(());
    }
    let mut name = String::new(*out.allocator());
    push_printable(&mut name, server)?;
    push_portless_line(out, name.as_str())
}

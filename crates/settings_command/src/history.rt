//! Settings whose `history` is too short for their workers.

ghost use Rattle.std.specs.Prelude.{◌≡◌, ◌++◌, OnOk, string_bytes};
ghost use Rattle.settings_command.specs.Remarks as spec;

use pool_settings::Settings;
use std::alloc::AllocError;
use std::fmt::Write;

fn push_history_line(
    out: &mut String,
    history: u32,
    room: u32,
    events: u32,
) -> Result<(), AllocError>
    ensures { OnOk result (string_bytes out.new ≡ string_bytes out.old ++ spec.history_line history room events) }
{
    write!(
        out,
        "remark history {history} may leave {room} events between two attempts, and one job of each worker takes {events}\n"
    )
}

/// A history that one job of each worker may fill between two attempts of `run`.
pub(crate) fn push_history(out: &mut String, settings: &Settings) -> Result<(), AllocError>
    ensures { OnOk result (string_bytes out.new ≡ string_bytes out.old ++ spec.history_remark settings.now) }
{
    let history = settings.history();
    let room = history - history / 2;
    let events = 2 + 5 * settings.slots();
    if room < events {
        push_history_line(out, history, room, events)
    } else {
        Ok(())
    }
}

fn push_cut_history_line(out: &mut String, history: u32, events: u32) -> Result<(), AllocError>
    ensures { OnOk result (string_bytes out.new ≡ string_bytes out.old ++ spec.cut_history_line history events) }
{
    write!(
        out,
        "remark history {history} has no room for an attempt while each worker has a job: that takes {events}\n"
    )
}

/// A history that, although `serve` has just cut it, has no room for an attempt while each worker has a job.
pub(crate) fn push_cut_history(out: &mut String, settings: &Settings) -> Result<(), AllocError>
    ensures { OnOk result (string_bytes out.new ≡ string_bytes out.old ++ spec.cut_history_remark settings.now) }
{
    let history = settings.history();
    let events = 2 + 3 * settings.slots();
    if history < events {
        push_cut_history_line(out, history, events)
    } else {
        Ok(())
    }
}

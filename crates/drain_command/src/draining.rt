//! The command `drain`.

ghost use Rattle.std.specs.Prelude.{◌≡◌, ◌-◌, ◌^◌, ◌<◌, IfOk, IfSome, MatchResult};
ghost use Rattle.drain_command.specs.Drain as spec;

use crate::asking::ask_page;
use crate::caller::Caller;
use byte_io::Sink;
use http_jobs::CallTimes;
use plan_commands::{Exit, Fault, deliver, read_page};
use service_settings::Page;
use std::alloc::{AllocError, Global};

/// How long calls of a connection to the page may take. If more peers knock than the system lets wait, a connection is there once the page
/// has let them in.
const CALL_TIMES: CallTimes = CallTimes {
    connect_ms: 15_000,
    read_ms: 100,
};

/// What opens connections to the page. The only error is out of memory.
fn dials_of<H: Caller>(host: &H, alloc: Global, page: &Page) -> Result<H::Dials, AllocError>
    ensures { IfOk result (λ dials. IfSome (H.Dials.host dials) (λ named. named ≡ page.now.listen)) }
{
    let address = String::from_str(alloc, page.listen())?;
    Ok(host.dials(address, CALL_TIMES))
}

/// The totals of the farm that the services file is of.
fn totals<H: Caller>(host: &H, alloc: Global, services_text: &[u8]) -> Result<Vec<u8>, Fault>
    ensures { MatchResult result (λ totals. spec.IsToldBy services_text.now totals.items) (spec.IsNotToldBy services_text.now) }
{
    let page = read_page(alloc, services_text)?;
    let mut dial = dials_of(host, alloc, &page)?;
    let mut clock = host.times();
    ask_page(host, alloc, &mut dial, &mut clock)
}

/// Ends the running farm that has this services file: asks its page for a drain, waits until the farm has ended, and writes its totals, as
/// the page tells them. The status is 0 then.
///
/// The services file is read for its page alone (`read_page`). The fault is its first mistake, or that the page told no totals
/// (`PageError`), or `Memory`; then nothing is written. Or it is that a write failed.
pub fn drain_farm<H: Caller, S: Sink>(
    host: &H,
    alloc: Global,
    services_text: &[u8],
    sink: &mut S,
) -> Exit
    requires { (S.output sink.old).failures < 2 ^ 64 - 1 }
    ensures drains { spec.Drains services_text.now (S.output sink.old) (S.output sink.new) result }
{
    match totals(host, alloc, services_text) {
        Ok(totals) => deliver(sink, &totals, Exit::answered(0)),
        Err(fault) => Exit::refused(fault),
    }
}

//! What a job tells of the host that it was for.

ghost use Rattle.std.specs.Prelude.{◌≡◌};
ghost use Rattle.farm_hosts.specs.Hosts as spec;

use devices::DialError;
use http_jobs::{NotDone, Reply, Unserved};

/// What a job tells of the host that it was for.
#[derive(Clone, Copy, Debug, PartialEq, Eq)]
pub enum HostSign {
    /// It was served.
    Served,
    /// It was not served.
    Unserved,
    /// No connection was opened to the host, for this reason.
    Unreached(DialError),
    /// Nothing: no service was asked, or memory was refused.
    Nothing,
}

/// What a job that ended so tells of its host. The job had so many milliseconds, and a dial may take so many. If the job had fewer, its own
/// time may have cut the dial off, and then it was not served, as one is whose answer comes too late.
pub fn sign_of(done: &Result<Option<Reply>, NotDone>, timeout_ms: u32, connect_ms: u32) -> HostSign
    ensures { result ≡ spec.sign_of timeout_ms connect_ms done.now }
{
    match done {
        Ok(Some(_)) => HostSign::Served,
        Ok(None) | Err(NotDone::Memory) => HostSign::Nothing,
        Err(NotDone::Unserved(Unserved::Unreachable(why))) => {
            sign_of_dial(*why, timeout_ms < connect_ms)
        }
        Err(NotDone::Unserved(_)) => HostSign::Unserved,
    }
}

/// What a dial for a job that failed so tells of the host. The job may have had less time than a dial.
fn sign_of_dial(why: DialError, is_hurried: bool) -> HostSign
    ensures { result ≡ spec.sign_of_dial is_hurried why }
{
    match why {
        DialError::NoAnswer if is_hurried => HostSign::Unserved,
        _ => HostSign::Unreached(why),
    }
}

//! After how long a connection ends whose peer is gone.

ghost use Rattle.std.specs.Prelude.{◌≡◌};
ghost use Rattle.link_options.specs.Limits as spec;

use crate::setting::{OptionRefused, Setting, TcpOption};
use std::net::TcpStream;

/// How a connection on which nothing is under way asks whether its peer is still there. The system refuses a 0 in each of the three, and
/// more than 127 probes.
#[derive(Clone, Copy, Debug, PartialEq, Eq)]
pub struct Keepalive {
    /// After so many seconds in which nothing came from the peer the first probe is sent.
    pub idle_s: u8,
    /// So many seconds pass from one probe to the next.
    pub interval_s: u8,
    /// So many probes are sent, and the connection ends if none of them is answered.
    pub probes: u8,
}

impl Keepalive {
    /// How many milliseconds after its last sign the connection ends, if its peer is gone. Whatever the three are, they are no more than
    /// 65,280,000.
    pub fn gone_after_ms(&self) -> u32
        ensures { result ≡ spec.gone_after_ms self.now }
    {
        let probing_s = self.interval_s as u32 * self.probes as u32;
        (self.idle_s as u32 + probing_s) * 1000
    }
}

/// How a connection finds that its peer is gone: it acknowledges nothing any more, since its machine lost power, or a cable. A read or a
/// write then fails, as if the device had. A peer that acknowledges is not gone, however long it says nothing.
#[derive(Clone, Copy, Debug, PartialEq, Eq)]
pub enum LinkOptions {
    /// By keepalive alone, while nothing that was sent is unacknowledged. Else the system gives up after a number of times that it sent it
    /// again, some 15 minutes. A peer that reads late, and for a long time has no room for what is sent, is never taken for gone.
    Keepalive(Keepalive),
    /// The same, and after the same time (TCP_USER_TIMEOUT) while something that was sent is unacknowledged. That time counts from when it
    /// is sent again, which is mostly within a second. A peer that has no room for what is sent for so long is taken for gone, too.
    KeepaliveAndUserTimeout(Keepalive),
}

impl LinkOptions {
    /// For a link to a job server: 7 seconds. A peer that vanishes while the link is asleep, just before something is sent, is found within
    /// twice that time, and so within 15 seconds.
    pub const JOB_SERVER: LinkOptions = LinkOptions::KeepaliveAndUserTimeout(Keepalive {
        idle_s: 3,
        interval_s: 1,
        probes: 4,
    });

    /// For a connection to a service, which may read a large job late: 13 seconds, by keepalive alone.
    pub const SERVICE: LinkOptions = LinkOptions::Keepalive(Keepalive {
        idle_s: 5,
        interval_s: 2,
        probes: 4,
    });

    /// How it asks whether its peer is still there.
    pub fn keepalive(&self) -> Keepalive
        ensures { result ≡ spec.keepalive_of self.now }
    {
        match self {
            LinkOptions::Keepalive(keepalive) => *keepalive,
            LinkOptions::KeepaliveAndUserTimeout(keepalive) => *keepalive,
        }
    }

    /// After how many milliseconds a peer that acknowledges nothing is found while nothing that was sent is unacknowledged.
    pub fn asleep_ms(&self) -> u32
        ensures { result ≡ spec.asleep_ms self.now }
    {
        self.keepalive().gone_after_ms()
    }

    /// The same while something that was sent is unacknowledged, from when that is sent again. None: as long as the system takes.
    pub fn unacknowledged_ms(&self) -> Option<u32>
        ensures { result ≡ spec.unacknowledged_ms self.now }
    {
        match self {
            LinkOptions::Keepalive(_) => None,
            LinkOptions::KeepaliveAndUserTimeout(keepalive) => Some(keepalive.gone_after_ms()),
        }
    }

    /// The options that it sets, with their values, in this order.
    pub fn settings(&self) -> [Setting; 5]
        ensures { result ≡ spec.settings_of self.now }
    {
        let keepalive = self.keepalive();
        [
            TcpOption::Keepalive.with(1),
            TcpOption::KeepaliveIdle.with(keepalive.idle_s as u32),
            TcpOption::KeepaliveInterval.with(keepalive.interval_s as u32),
            TcpOption::KeepaliveProbes.with(keepalive.probes as u32),
            TcpOption::UserTimeout.with(self.unacknowledged_ms().unwrap_or(0)),
        ]
    }

    /// Sets them on a connection. The error names the first that the system refused: the later ones are not set then.
    pub fn set_on(&self, stream: &TcpStream) -> Result<(), OptionRefused> {
        for setting in &self.settings() {
            setting.set_on(stream)?;
        }
        Ok(())
    }
}

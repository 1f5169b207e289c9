//! Services over TCP, and the system's clock.
ghost use Rattle.std.specs.Prelude.{◌≡◌, IfOk, Some, string_bytes};
ghost use Rattle.job_runner.specs.Run.{seen_link};
ghost use Rattle.http_jobs.specs.Serving.{IsNew};

use crate::clock::Clock;
use crate::last_address::LastAddress;
use crate::look::Look;
use crate::service_jobs::Dial;
use byte_io::{Device, DeviceFault};
use devices::{DialError, TcpLink};
use link_options::LinkOptions;
use std::net::{Net, SocketAddr, TcpStream, ToSocketAddrs};
use std::snapshot::Snapshot;
use std::sync::{Arc, Wait};
use std::time;
use std::time::Duration;

/// The system's monotonic clock.
#[derive(Clone, Copy, Drop)]
pub struct SystemClock<R> {
    rt: R,
}

impl<R: time::Clock> SystemClock<R> {
    /// The clock of this runtime.
    pub fn new(rt: R) -> SystemClock<R> {
        SystemClock { rt }
    }
}

impl<R: time::Clock> Clock for SystemClock<R> {
    ghost use Rattle.std.specs.Prelude.{None};

    ghost shown = { λ _. None };

    fn now_ms(&mut self) -> Option<u64> {
        let time = self.rt.monotonic().ok()?;
        u64::try_from(time.as_millis()).ok()
    }
}

impl Look for TcpLink {
    ghost use Rattle.std.specs.Prelude.{None};

    ghost quiet = { λ _. None };

    fn is_quiet(&self) -> bool {
        TcpLink::is_quiet(self)
    }

    fn limit_writes(&mut self, milliseconds: u64) {
        // If the system does not take it, writes have the limit that they had.
        let _ = TcpLink::limit_writes(self, milliseconds);
    }

    fn limit_reads(&mut self, milliseconds: Option<u64>) {
        // If the system does not take it, reads have the limit that they had.
        let _ = match milliseconds {
            Some(milliseconds) => TcpLink::limit_reads(self, milliseconds),
            None => TcpLink::reset_reads(self),
        };
    }

    fn give_at_once(&mut self, bytes: &[u8]) -> Result<Option<usize>, DeviceFault> {
        TcpLink::give_at_once(self, bytes)
    }
}

/// How long calls of a connection may take, in milliseconds. Zero is no time: then no connection is opened.
#[derive(Clone, Copy, Debug, PartialEq, Eq)]
pub struct CallTimes {
    /// The opening of one, all addresses of the host together, without the time in which its name is looked up.
    pub connect_ms: u32,
    /// One read. A write may take 65 times as long, or until the deadline of its job.
    pub read_ms: u32,
}

/// Opens connections to a service over TCP.
#[derive(Drop)]
pub struct TcpDial<R> {
    rt: R,
    /// Where it is, as `10.0.0.5:8000`.
    host: String,
    times: CallTimes,
    /// The address that took the last connection.
    known: Option<SocketAddr>,
    /// Where others that dial the host find the address that took the last connection.
    shared: Option<Arc<LastAddress>>,
    /// The address that took the last connection of another before this dialled.
    other: Option<SocketAddr>,
}

impl<R: Net<Stream = TcpStream> + time::Clock> TcpDial<R> {
    /// What opens connections to this host, `NAME:PORT` or `ADDRESS:PORT`. A name is looked up, for as long as the system takes, at the
    /// first dial, and again once the address that took the last connection takes none.
    pub fn new(rt: R, host: String, times: CallTimes) -> TcpDial<R>
        ensures host { ⟦<TcpDial<R> as Dial<TcpLink>>⟧.host result ≡ Some (string_bytes host) }
    {
        TcpDial {
            rt,
            host,
            times,
            known: None,
            shared: None,
            other: None,
        }
    }

    /// The same, beside others that dial the host. If its name is not found, the address is dialled that took the last connection of one of
    /// them: while the resolver is down a host that is well is reached.
    pub fn beside<W: Wait>(self, rt: &W, shared: Arc<LastAddress>) -> TcpDial<R>
        ensures host { ⟦<TcpDial<R> as Dial<TcpLink>>⟧.host result ≡ ⟦<TcpDial<R> as Dial<TcpLink>>⟧.host self }
    {
        TcpDial {
            other: shared.get(rt),
            shared: Some(shared),
            ..self
        }
    }

    /// The same for a look whether the host is still there: the address that took the last connection of another is dialled before the name
    /// is looked up, since a resolver that does not answer may take many seconds.
    pub fn from_last(self) -> TcpDial<R>
        ensures host { ⟦<TcpDial<R> as Dial<TcpLink>>⟧.host result ≡ ⟦<TcpDial<R> as Dial<TcpLink>>⟧.host self }
    {
        TcpDial {
            known: self.known.or(self.other),
            ..self
        }
    }

    /// The address that took the last connection of another, as far as it is known.
    fn other_address(&self) -> Option<SocketAddr> {
        let shared = self.shared.as_ref()?;
        shared.try_get().or(self.other)
    }

    /// Keeps an address that took a connection.
    fn keep(&mut self, address: SocketAddr)
        ensures host { self.new.host ≡ self.old.host }
    {
        self.known = Some(address);
        if let Some(shared) = &self.shared {
            shared.set(address);
        }
    }

    /// So many milliseconds from now, but no later than the deadline, or none if the time is not known.
    fn end_of_dial(&self, milliseconds: u64, deadline: Option<u64>) -> Option<u64> {
        let now = SystemClock::new(&self.rt).now_ms()?;
        let end = now.saturating_add(milliseconds);
        Some(deadline.map_or(end, |deadline| end.min(deadline)))
    }

    /// How many milliseconds are left, or none if the time is up.
    fn time_left(&self, end: Option<u64>) -> Option<u64> {
        match (end, SystemClock::new(&self.rt).now_ms()) {
            (Some(end), Some(now)) if end <= now => None,
            (Some(end), Some(now)) => Some(end - now),
            _ => Some(self.times.connect_ms as u64),
        }
    }

    /// A connection to this address, which is the first of so many that share the time that is left. The error says why there is none, or
    /// why the system set no times for its stream; it is `NoAnswer` if the time is up.
    fn dial_address(
        &mut self,
        address: SocketAddr,
        end: Option<u64>,
        count: usize,
    ) -> Result<TcpLink, DialError>
        ensures fresh { IfOk result (λ link. IsNew (seen_link ⟦<TcpLink as Device>⟧.input ⟦<TcpLink as Device>⟧.output link)) }
        ensures host { self.new.host ≡ self.old.host }
    {
        let Some(left) = self.time_left(end) else {
            return Err(DialError::NoAnswer);
        };
        let share = Duration::from_millis((left / (count as u64).max(1)).max(1));
        let stream = match TcpStream::connect_timeout(&self.rt, &address, share) {
            Ok(stream) => stream,
            Err(error) => return Err(DialError::why_not_connected(&self.rt, address, &error)),
        };
        match TcpLink::new(stream, self.times.read_ms, LinkOptions::SERVICE) {
            Ok(link) => {
                self.keep(address);
                Ok(link)
            }
            Err(error) => Err(DialError::of_connect(&error)),
        }
    }

    /// A connection to the address that took the last one of another, if the host's name was not found. Else the error is this one.
    fn dial_other(
        &mut self,
        why: DialError,
        left: u64,
        deadline: Option<u64>,
    ) -> Result<TcpLink, DialError>
        ensures fresh { IfOk result (λ link. IsNew (seen_link ⟦<TcpLink as Device>⟧.input ⟦<TcpLink as Device>⟧.output link)) }
        ensures host { self.new.host ≡ self.old.host }
    {
        match (why, self.other_address()) {
            (DialError::NoAddress, Some(address)) => {
                let end = self.end_of_dial(left, deadline);
                self.dial_address(address, end, 1)
            }
            _ => Err(why),
        }
    }

    /// A connection to the first of the host's addresses that takes one. The error is why the last of them was not reached, or why there is
    /// none.
    fn dial_host(&mut self, left: u64, deadline: Option<u64>) -> Result<TcpLink, DialError>
        ensures fresh { IfOk result (λ link. IsNew (seen_link ⟦<TcpLink as Device>⟧.input ⟦<TcpLink as Device>⟧.output link)) }
        ensures host { self.new.host ≡ self.old.host }
    {
        let addresses = match self.host.as_str().to_socket_addrs(&self.rt) {
            Ok(addresses) => addresses,
            Err(error) => {
                let why = DialError::why_not_found(&self.rt, &error);
                return self.dial_other(why, left, deadline);
            }
        };
        let end = self.end_of_dial(left, deadline);
        let mut count = addresses.len();
        let mut why = DialError::NoAddress;
        for address in addresses {
            match self.dial_address(address, end, count) {
                Ok(link) => return Ok(link),
                Err(error) => why = error,
            }
            count = count.saturating_sub(1);
        }
        Err(why)
    }
}

/// The address that took the last connection is tried first, for half of the time. If there is none, or it takes no connection, the name is
/// looked up, and each of its addresses is tried in turn, for its share of the time that is left, until one accepts. If the name is not
/// found, the address is tried that took the last connection of another. The error is `NoAnswer` if the time is up, else why the last
/// address was not reached, or why its stream could not be used.
impl<R: Net<Stream = TcpStream> + time::Clock> Dial<TcpLink> for TcpDial<R> {
    ghost use Rattle.std.specs.Prelude.{◌≡◌, None, Some, string_bytes};

    ghost calls = { λ _. None };

    ghost host = { λ d. Some (string_bytes d.host) };

    fn dial(&mut self, deadline: Option<u64>) -> Result<TcpLink, DialError> {
        let end = self.end_of_dial(self.times.connect_ms as u64, deadline);
        if let Some(address) = self.known {
            if let Ok(link) = self.dial_address(address, end, 2) {
                return Ok(link);
            }
        }
        let Some(left) = self.time_left(end) else {
            return Err(DialError::NoAnswer);
        };
        self.dial_host(left, deadline)
    }

    fn hung_up(&mut self, _link: Snapshot<TcpLink>)
        ensures { self.new ≡ self.old }
    {}
}

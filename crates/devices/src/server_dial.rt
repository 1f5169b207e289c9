//! One dial of a server: all addresses of its name, in one time.

ghost use Rattle.std.specs.Prelude.{◌≡◌, ◌≤◌, ◌*◌, IfOk, IfSome};
ghost use Rattle.byte_io.specs.Sides.{no_input, no_output};

use crate::dial_error::DialError;
use crate::tcp::TcpLink;
use byte_io::{Device, LAST_TIMEOUT};
use link_options::LinkOptions;
use std::net::{HostAddrs, Net, SocketAddr, TcpStream, ToSocketAddrs};
use std::time::{Clock, Duration};

/// The addresses of one name: as many as are looked up at most, each of them once.
type Addresses = [Option<SocketAddr>; 32];

/// Who waits for a link to a server.
pub trait Caller {
    /// Whether he waits no longer. He is asked before the name is looked up, and before each address is dialled.
    fn has_given_up(&self) -> bool;
}

/// A caller who waits for as long as a dial takes.
#[derive(Clone, Copy, Debug, Drop)]
pub struct PatientCaller;

impl Caller for PatientCaller {
    fn has_given_up(&self) -> bool {
        false
    }
}

/// One dial of a server. Its time is for all addresses together. What the look-up of the name takes is not counted.
#[derive(Drop)]
struct ServerDial<'d, R, C> {
    net: &'d R,
    caller: &'d C,
    lull_ms: u32,
    options: LinkOptions,
    /// How much of its time is left, in milliseconds.
    left_ms: u64,
    /// Why the last address was not reached. None before the first is dialled.
    failure: Option<DialError>,
}

/// How many milliseconds have passed between two readings of a clock, or none if it did not show both.
fn passed_ms(before: Option<Duration>, after: Option<Duration>) -> Option<u64> {
    let passed = after?.saturating_sub(before?);
    u64::try_from(passed.as_millis()).ok()
}

/// The addresses that were found, each of them once, without the one that was tried before.
fn without(found: HostAddrs, tried: Option<SocketAddr>) -> Addresses {
    let mut addresses = [None; 32];
    for (place, address) in found.enumerate() {
        let address = Some(address);
        if address != tried && !addresses.contains(&address) {
            if let Some(free) = addresses.get_mut(place) {
                *free = address;
            }
        }
    }
    addresses
}

impl<'d, R: Net<Stream = TcpStream> + Clock, C: Caller> ServerDial<'d, R, C> {
    /// One that begins, for 65 timeouts of so many milliseconds.
    fn new(net: &'d R, caller: &'d C, lull_ms: u32, options: LinkOptions) -> ServerDial<'d, R, C> {
        ServerDial {
            net,
            caller,
            lull_ms,
            options,
            left_ms: lull_ms as u64 * LAST_TIMEOUT as u64,
            failure: None,
        }
    }

    /// For how many milliseconds an address is dialled that is the first of so many that share the time that is left. None if none is left
    /// for it, or nobody waits for the link any more.
    fn share_ms(&self, count: usize) -> Option<u64>
        ensures some { IfSome result (λ share_ms. 1 ≤ share_ms) }
        ensures enough { IfSome result (λ share_ms. share_ms * count ≤ self.now.left_ms) }
    {
        let share = self.left_ms.checked_div(count as u64)?;
        if share == 0 || self.caller.has_given_up() {
            return None;
        }
        Some(share)
    }

    /// Takes what an address took from the time that is left: what the clock says, or all that it had if that shows no time.
    fn spend(&mut self, share_ms: u64, passed_ms: Option<u64>)
        ensures { self.new.left_ms ≤ self.old.left_ms }
    {
        self.left_ms = self.left_ms.saturating_sub(passed_ms.unwrap_or(share_ms));
    }

    /// A link to this address, which is the first of so many that share the time that is left. None if it was not reached, and then why is
    /// kept, or if it was not dialled.
    fn link_to(&mut self, address: SocketAddr, count: usize) -> Option<TcpLink>
        ensures input { IfSome result (λ link. ⟦<TcpLink as Device>⟧.input link ≡ no_input) }
        ensures output { IfSome result (λ link. ⟦<TcpLink as Device>⟧.output link ≡ no_output) }
    {
        let share_ms = self.share_ms(count)?;
        let before = self.net.monotonic().ok();
        let share = Duration::from_millis(share_ms);
        let connected = TcpStream::connect_timeout(self.net, &address, share);
        let after = self.net.monotonic().ok();
        self.spend(share_ms, passed_ms(before, after));
        let linked = match connected {
            Ok(stream) => TcpLink::new(stream, self.lull_ms, self.options).map_err(
                |error| DialError::of_connect(&error),
            ),
            Err(error) => Err(DialError::why_not_connected(self.net, address, &error)),
        };
        match linked {
            Ok(link) => Some(link),
            Err(error) => {
                self.failure = Some(error);
                None
            }
        }
    }

    /// A link to the first of these addresses that takes one, and which that is. Each has its share of the time that is left.
    fn link_to_one(&mut self, addresses: &Addresses) -> Option<(SocketAddr, TcpLink)>
        ensures input { IfSome result (λ linked. ⟦<TcpLink as Device>⟧.input linked.1 ≡ no_input) }
        ensures output { IfSome result (λ linked. ⟦<TcpLink as Device>⟧.output linked.1 ≡ no_output) }
    {
        let mut count = addresses.iter().flatten().count();
        for address in addresses.iter().flatten() {
            if let Some(link) = self.link_to(*address, count) {
                return Some((*address, link));
            }
            count = count.saturating_sub(1);
        }
        None
    }

    /// A link to the first of the server's addresses that takes one, and which that is. The one that was tried before is left out. The
    /// error says why the last address was not reached, or that there is none; it is `NoAnswer` if none was dialled.
    fn link_by_name(
        &mut self,
        server: &str,
        tried: Option<SocketAddr>,
    ) -> Result<(SocketAddr, TcpLink), DialError>
        ensures input { IfOk result (λ linked. ⟦<TcpLink as Device>⟧.input linked.1 ≡ no_input) }
        ensures output { IfOk result (λ linked. ⟦<TcpLink as Device>⟧.output linked.1 ≡ no_output) }
    {
        let addresses = match server.to_socket_addrs(self.net) {
            Ok(found) => without(found, tried),
            Err(error) => return Err(DialError::why_not_found(self.net, &error)),
        };
        if let Some(linked) = self.link_to_one(&addresses) {
            return Ok(linked);
        }
        let undialled = match addresses.iter().flatten().next() {
            Some(_) => DialError::NoAnswer,
            None => DialError::NoAddress,
        };
        Err(self.failure.unwrap_or(undialled))
    }
}

impl TcpLink {
    /// Dials `host:port`, each address of the host once and in turn, for 65 timeouts in all. The link finds by these options that its peer
    /// is gone. The error says why the last address was not reached, or that there is none.
    pub fn dial<R: Net<Stream = TcpStream> + Clock>(
        net: &R,
        server: &str,
        lull_ms: u32,
        options: LinkOptions,
    ) -> Result<TcpLink, DialError>
        ensures input { IfOk result (λ link. ⟦<TcpLink as Device>⟧.input link ≡ no_input) }
        ensures output { IfOk result (λ link. ⟦<TcpLink as Device>⟧.output link ≡ no_output) }
    {
        TcpLink::dial_again(net, &PatientCaller, &mut None, server, lull_ms, options)
    }

    /// Dials `host:port` for 65 timeouts in all, without the time in which the name is looked up: first the address that took the last
    /// link, if one is known, for half of that time. If it takes none, the name is looked up, and each other address is dialled once and in
    /// turn, for its share of what is left. The one that takes the link is kept. So neither a name that is not found for a while nor a
    /// silent address before the right one costs each dial its time. The known address is forgotten only if the name was found and no
    /// address took a link. The link finds by these options that its peer is gone.
    ///
    /// The error says why the last address was not reached, or that there is none. It is `NoAnswer` if the caller gave up before one was
    /// dialled.
    pub fn dial_again<R: Net<Stream = TcpStream> + Clock, C: Caller>(
        net: &R,
        caller: &C,
        known: &mut Option<SocketAddr>,
        server: &str,
        lull_ms: u32,
        options: LinkOptions,
    ) -> Result<TcpLink, DialError>
        ensures input { IfOk result (λ link. ⟦<TcpLink as Device>⟧.input link ≡ no_input) }
        ensures output { IfOk result (λ link. ⟦<TcpLink as Device>⟧.output link ≡ no_output) }
    {
        let mut dial = ServerDial::new(net, caller, lull_ms, options);
        let tried = *known;
        if let Some(address) = tried {
            if let Some(link) = dial.link_to(address, 2) {
                return Ok(link);
            }
        }
        if caller.has_given_up() {
            return Err(dial.failure.unwrap_or(DialError::NoAnswer));
        }
        match dial.link_by_name(server, tried) {
            Ok((address, link)) => {
                *known = Some(address);
                Ok(link)
            }
            Err(error) => {
                if error.is_of_address() {
                    *known = None;
                }
                Err(error)
            }
        }
    }
}

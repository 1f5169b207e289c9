//! Places for peers, one of which only a near peer may take.
ghost use Rattle.std.specs.Prelude.{◌≡◌, ◌+◌, ◌≤◌, IfSome, IsFalse, IsSome, IsTrue};
ghost use Rattle.page_server.specs.Places.{has_room, is_near};

use crate::guests::Guests;
use std::alloc::Global;
use std::net::{IpAddr, TcpStream};
use std::sync::{Arc, Condvar, Mutex, Wait};
use std::time::{Clock, Duration};

/// How many peers are served at once. Each takes a file.
pub const MOST_PEERS: u32 = 64;

/// How many of them may be far away.
const MOST_FAR: u32 = 63;

/// Where a peer is.
#[derive(Clone, Copy, Debug, PartialEq, Eq)]
pub enum Distance {
    /// On this machine: its address is one of the loopback, or the one that it called.
    Near,
    /// Elsewhere.
    Far,
}

impl Distance {
    /// Where a peer is that has this address and called that one, if it is known. A machine that calls one of its own addresses does so
    /// from the same address.
    pub fn of_peer(peer: IpAddr, called: Option<IpAddr>) -> Distance {
        let peer = peer.to_canonical();
        let is_own = called.is_some_and(|called| called.to_canonical() == peer);
        if is_own || peer.is_loopback() {
            Distance::Near
        } else {
            Distance::Far
        }
    }

    /// Whether it is on this machine.
    pub fn is_near(self) -> bool
        ensures { result ≡ is_near self }
    {
        matches!(self, Distance::Near)
    }
}

/// How many places are taken.
#[derive(Clone, Copy)]
struct Taken {
    all: u32,
    far: u32,
    ghost all_fit: { all ≤ 64 },
    ghost far_fit: { far ≤ 63 },
    ghost far_count: { far ≤ all },
}

impl Taken {
    /// Takes a place if there is one for such a peer. Whether there was.
    fn take(&mut self, distance: Distance) -> bool
        ensures room { result ≡ has_room self.old.all self.old.far distance }
        ensures refused { IsFalse result → self.new ≡ self.old }
        ensures taken { IsTrue result → self.new.all ≡ self.old.all + 1 }
    {
        let Taken { all, far } = *self;
        if all >= MOST_PEERS {
            return false;
        }
        match distance {
            Distance::Near => *self = Taken { all: all + 1, far },
            Distance::Far if far < MOST_FAR => {
                *self = Taken {
                    all: all + 1,
                    far: far + 1,
                };
            }
            Distance::Far => return false,
        }
        true
    }

    /// Gives a place back.
    fn leave(&mut self, distance: Distance) {
        let Taken { all, far } = *self;
        match distance {
            Distance::Near if far < all => *self = Taken { all: all - 1, far },
            Distance::Far if far > 0 => {
                *self = Taken {
                    all: all - 1,
                    far: far - 1,
                };
            }
            _ => {}
        }
    }
}

/// A peer's right to its place.
#[derive(Clone, Copy, Debug)]
pub struct Ticket {
    /// Its number among the peers.
    number: u64,
    /// Where the peer is.
    pub distance: Distance,
}

/// Who has a place.
#[derive(Drop)]
struct Held {
    taken: Taken,
    guests: Guests,
}

impl Held {
    /// Takes a place for a peer with this connection, if there is one, and memory for its ticket.
    fn take(&mut self, distance: Distance, stream: Arc<TcpStream>) -> Option<Ticket>
        ensures room { IsSome result → IsTrue (has_room self.old.taken.all self.old.taken.far distance) }
        ensures taken { IsSome result → self.new.taken.all ≡ self.old.taken.all + 1 }
        ensures own { IfSome result (λ ticket. ticket.distance ≡ distance) }
    {
        let mut taken = self.taken;
        if !taken.take(distance) {
            return None;
        }
        let number = self.guests.come(stream).ok()?;
        self.taken = taken;
        Some(Ticket { number, distance })
    }

    /// Gives a place back.
    fn leave(&mut self, ticket: Ticket) {
        self.taken.leave(ticket.distance);
        self.guests.leave(ticket.number);
    }
}

/// Places for 64 peers, of which 63 may be far away. A near peer that finds none is given that of the peer that came first, unless all wait
/// for the end of the farm: so neither peers from elsewhere nor slow ones of this machine keep out one from this machine, while threads can
/// be started.
#[derive(Drop)]
pub struct Places {
    held: Mutex<Held>,
    left: Condvar,
}

/// Nobody.
fn nobody() -> Taken {
    Taken { all: 0, far: 0 }
}

impl Places {
    /// Places that nobody has.
    pub fn new(alloc: Global) -> Places {
        Places {
            held: Mutex::new(Held {
                taken: nobody(),
                guests: Guests::new(alloc),
            }),
            left: Condvar::new(),
        }
    }

    /// Takes a place for a peer with this connection, if there is one, and memory for its ticket.
    pub fn take<R: Wait>(
        &self,
        rt: &R,
        distance: Distance,
        stream: Arc<TcpStream>,
    ) -> Option<Ticket> {
        self.held.lock(rt).take(distance, stream)
    }

    /// The peer waits for the end of the farm, and keeps its place until it has ended.
    pub fn keep<R: Wait>(&self, rt: &R, ticket: Ticket) {
        self.held.lock(rt).guests.wait(ticket.number);
    }

    /// Gives a place back.
    pub fn leave<R: Wait>(&self, rt: &R, ticket: Ticket) {
        self.held.lock(rt).leave(ticket);
        self.left.notify_all();
    }

    /// Whether there is room for a near peer. If there is none, the connection is ended of the peer that came first among those that do not
    /// wait for the end of the farm, and room is waited for, but no longer than so many milliseconds.
    pub fn make_room<R: Wait + Clock>(&self, rt: &R, milliseconds: u32) -> bool {
        let mut held = self.held.lock(rt);
        if held.taken.all < MOST_PEERS {
            return true;
        }
        if !held.guests.cut_off_first() {
            return false;
        }
        let most = Duration::from_millis(milliseconds as u64);
        let (held, _) = self
            .left
            .wait_timeout_while(rt, held, most, |held| held.taken.all >= MOST_PEERS);
        held.taken.all < MOST_PEERS
    }

    /// Reads nothing more of what peers say, and answers what they have asked.
    pub fn stop_hearing<R: Wait>(&self, rt: &R) {
        self.held.lock(rt).guests.stop_hearing();
    }

    /// How many are taken.
    pub fn count<R: Wait>(&self, rt: &R) -> u32
        ensures { result ≤ 64 }
    {
        self.held.lock(rt).taken.all
    }

    /// Waits until nobody has one, but no longer than so many milliseconds. Whether nobody has.
    pub fn wait_until_empty<R: Wait + Clock>(&self, rt: &R, milliseconds: u32) -> bool {
        let held = self.held.lock(rt);
        let most = Duration::from_millis(milliseconds as u64);
        let (held, _) = self
            .left
            .wait_timeout_while(rt, held, most, |held| held.taken.all > 0);
        held.taken.all == 0
    }
}

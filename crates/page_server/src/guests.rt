//! The peers that have a place, and which of them gives it up.

ghost use Rattle.std.specs.Prelude.{◌≡◌, ◌++◌, ◌∷◌, [], IfErr, IfOk, IsFalse, IsTrue, length, nat_lt, remove};
ghost use Rattle.page_server.specs.Places as spec;

use std::alloc::{AllocError, Global};
use std::net::{Shutdown, TcpStream};
use std::sync::Arc;

/// What a peer has its place for.
#[derive(Clone, Copy, Debug, PartialEq, Eq)]
pub(crate) enum Stay {
    /// It asks, or is answered.
    Asks,
    /// It waits for the end of its farm.
    Waits,
}

/// A peer that has a place.
#[derive(Drop)]
pub(crate) struct Guest {
    /// Its number, which no other has.
    number: u64,
    /// What it has its place for.
    stay: Stay,
    /// Its connection.
    stream: Arc<TcpStream>,
}

impl Guest {
    /// Whether it waits for the end of its farm.
    fn waits(&self) -> bool
        ensures { result ≡ spec.waits self.now }
    {
        matches!(self.stay, Stay::Waits)
    }
}

/// How many peers before the first that does not wait for the end of its farm.
fn first_to_go(guests: &[Guest]) -> usize
    ensures { result ≡ spec.first_to_go guests.now }
{
    guests.iter().take_while(|guest| guest.waits()).count()
}

/// The peers that can give up their places, in the order in which they came.
#[derive(Drop)]
pub(crate) struct Guests {
    present: Vec<Guest>,
    /// The number of the next one.
    next: u64,
}

impl Guests {
    /// Nobody.
    pub(crate) fn new(alloc: Global) -> Guests
        ensures { result.present.items ≡ [] }
    {
        Guests {
            present: Vec::new(alloc),
            next: 0,
        }
    }

    /// A peer comes with this connection. Its number. The only error is out of memory, and then nobody has come.
    pub(crate) fn come(&mut self, stream: Arc<TcpStream>) -> Result<u64, AllocError>
        ensures stays { IfErr result (λ _. self.new.present.items ≡ self.old.present.items) }
        ensures comes { IfOk result (λ number. (guest : Guest) × (self.new.present.items ≡ self.old.present.items ++ guest ∷ [])
            × (guest.number ≡ number) × IsFalse (spec.waits guest)) }
    {
        let number = self.next;
        self.present.push(Guest {
            number,
            stay: Stay::Asks,
            stream,
        })?;
        self.next = number.saturating_add(1);
        Ok(number)
    }

    /// The peer of this number waits for the end of its farm from now on, if it is still there.
    pub(crate) fn wait(&mut self, number: u64) {
        for guest in self.present.iter_mut() {
            if guest.number == number {
                guest.stay = Stay::Waits;
            }
        }
    }

    /// The peer of this number is gone.
    pub(crate) fn leave(&mut self, number: u64) {
        self.present.retain(|guest| guest.number != number);
    }

    /// What peers say from now on is not read: nobody waits for one that says nothing. What they are answered is still written.
    pub(crate) fn stop_hearing(&self) {
        for guest in self.present.iter() {
            // A connection that has ended already is as good.
            let _ = guest.stream.shutdown(Shutdown::Read);
        }
    }

    /// Ends the connection of the first peer that does not wait for the end of its farm: it gives up its place. Whether there was one.
    pub(crate) fn cut_off_first(&mut self) -> bool
        ensures there { result ≡ nat_lt (spec.first_to_go self.old.present.items) (length self.old.present.items) }
        ensures first { IsTrue result
            → self.new.present.items ≡ remove self.old.present.items (spec.first_to_go self.old.present.items) }
        ensures nobody { IsFalse result → self.new ≡ self.old }
    {
        let place = first_to_go(&self.present);
        if place >= self.present.len() {
            return false;
        }
        let guest = self.present.remove(place);
        // A connection that has ended already is as good.
        let _ = guest.stream.shutdown(Shutdown::Both);
        true
    }
}

//! What the threads of a page share.

use crate::end_flag::EndFlag;
use crate::end_text::EndText;
use crate::places::Places;
use crate::shown::Shown;
use farm_page::FarmView;
use std::alloc::Global;
use std::net::TcpListener;
use std::num::NonZeroU32;
use std::sync::{Arc, Condvar, Mutex, Wait};
use std::time::Clock;

/// The times of a farm that its page goes by, in milliseconds.
#[derive(Clone, Copy)]
pub struct PageTimes {
    /// Between two attempts.
    pub round_ms: u32,
    /// For how long at most a drain waits for the end of the farm.
    pub drain_ms: u32,
}

/// Where a page is asked for.
#[derive(Drop)]
pub struct Door {
    /// The socket at its address. An accept of it does not wait.
    pub listener: TcpListener,
    /// Its address, as `127.0.0.1:4780`.
    pub listen: String,
    /// Further names under which it is asked for.
    pub hosts: Vec<String>,
    /// The times of the farm.
    pub times: PageTimes,
    /// The backlog that the services file wants, if it wants one. Without it there is no size, also before the first attempt.
    pub backlog: Option<NonZeroU32>,
}

/// Whether a page has a door.
#[derive(Drop)]
enum Access {
    /// Not yet.
    Shut,
    /// It has one, which nobody has taken yet.
    Open(Door),
    /// No door comes any more.
    Closed,
}

/// What a farm shares with the threads of its page, which nobody joins.
#[derive(Drop)]
pub struct SharedPage {
    /// Whether the farm has to end. A drain raises it.
    pub end: Arc<EndFlag>,
    /// What the page shows.
    pub shown: Shown<FarmView>,
    /// What the farm came to.
    pub end_text: EndText,
    /// Those who are served now.
    pub places: Places,
    /// Raised when the page is to be closed.
    pub closed: EndFlag,
    access: Mutex<Access>,
    changed: Condvar,
}

/// No door yet.
fn shut() -> Access {
    Access::Shut
}

impl Access {
    fn is_shut(&self) -> bool {
        match self {
            Access::Shut => true,
            Access::Open(_) | Access::Closed => false,
        }
    }
}

impl SharedPage {
    /// A page without a door, of a farm that has this flag.
    pub fn new(alloc: Global, end: Arc<EndFlag>) -> SharedPage {
        SharedPage {
            end,
            shown: Shown::new(),
            end_text: EndText::new(),
            places: Places::new(alloc),
            closed: EndFlag::new(),
            access: Mutex::new(shut()),
            changed: Condvar::new(),
        }
    }

    /// Lets peers in by this door from now on.
    pub fn open<R: Wait>(&self, rt: &R, door: Door) {
        let mut held = self.access.lock(rt);
        if held.is_shut() {
            *held = Access::Open(door);
        }
        self.changed.notify_all();
    }

    /// The door, for which it waits. None if the page is closed.
    pub fn door<R: Wait>(&self, rt: &R) -> Option<Door> {
        let held = self.access.lock(rt);
        let mut held = self.changed.wait_while(rt, held, |access| access.is_shut());
        match std::mem::replace(&mut *held, Access::Closed) {
            Access::Open(door) => Some(door),
            Access::Shut | Access::Closed => None,
        }
    }

    /// Lets nobody in any more, and waits until all have left, but no longer than so many milliseconds. Peers get their answers, and those
    /// that ask nothing leave at once.
    pub fn close<R: Wait + Clock>(&self, rt: &R, milliseconds: u32) {
        let mut held = self.access.lock(rt);
        if held.is_shut() {
            *held = Access::Closed;
        }
        drop(held);
        self.changed.notify_all();
        self.closed.raise(rt);
        self.places.stop_hearing(rt);
        let _ = self.places.wait_until_empty(rt, milliseconds);
    }
}

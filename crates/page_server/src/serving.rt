//! The threads of a page: one that lets peers in, and one for each of them.

use crate::limited::{Limit, Limited};
use crate::places::{Distance, Places, Ticket};
use crate::service::PageService;
use crate::shared_page::{Door, PageTimes, SharedPage};
use farm_page::Site;
use http_server::{Config, Connection, serve};
use std::alloc::{AllocError, Global};
use std::hash::RandomState;
use std::net::{IpAddr, TcpListener, TcpStream};
use std::num::NonZeroU32;
use std::sync::{Arc, Wait};
use std::thread::{Builder, Threads};
use std::time::Clock;

/// How long a peer is served, in milliseconds from its accept on, over all that it asks.
pub const PEER_MS: u32 = 10_000;

/// For how many milliseconds a peer is served for whom there is no thread, unless it drains the farm. Nobody else is let in meanwhile.
const HASTY_MS: u32 = 500;

/// For how many milliseconds a peer that was cut off is waited for at most. All that it waited for has failed by then.
const LEAVE_MS: u32 = 1_000;

/// For how many milliseconds the page rests if nobody knocks.
const POLL_MS: u32 = 50;

/// The most bytes that the body of a request may have.
const MOST_BODY: usize = 4_096;

/// The stack of a peer's thread, in bytes.
const STACK: usize = 512 * 1_024;

/// What the peers' threads share.
#[derive(Drop)]
struct Hall {
    page: Arc<SharedPage>,
    listen: String,
    hosts: Vec<String>,
    times: PageTimes,
    backlog: Option<NonZeroU32>,
    keys: RandomState,
}

/// Answers a peer until it leaves, or so many milliseconds are over.
fn serve_peer<R: Wait + Clock>(
    rt: &R,
    alloc: Global,
    hall: &Hall,
    stream: &TcpStream,
    ticket: Ticket,
    milliseconds: u32,
) {
    let Ok(limit) = Limit::from_now(rt, milliseconds) else {
        return;
    };
    let _ = stream.set_nodelay(true);
    let mut config = Config::default();
    config.max_body_len = MOST_BODY;
    let mut connection = Connection::new(alloc, hall.keys, config);
    let mut service = PageService {
        rt,
        alloc,
        page: &hall.page,
        place: Site {
            listen: hall.listen.as_str(),
            hosts: &hall.hosts,
        },
        limit: &limit,
        ticket,
        times: hall.times,
        backlog: hall.backlog,
    };
    let mut reader = Limited {
        rt,
        stream,
        limit: &limit,
    };
    let mut writer = Limited {
        rt,
        stream,
        limit: &limit,
    };
    let _ = serve(&mut connection, &mut service, &mut reader, &mut writer);
}

/// Serves a peer, who has a place, in a thread of its own. The error is that there is none.
fn welcome<R: Threads + Wait + Clock + Copy + Send + Sync + Drop + 'static>(
    rt: R,
    alloc: Global,
    hall: &Arc<Hall>,
    stream: Arc<TcpStream>,
    ticket: Ticket,
) -> Result<(), AllocError> {
    let theirs = Arc::try_clone(hall)?;
    let begun = Builder::new().stack_size(STACK).spawn(&rt, move || {
        serve_peer(&rt, alloc, &theirs, &stream, ticket, PEER_MS);
        drop(stream);
        theirs.page.places.leave(&rt, ticket);
    });
    match begun {
        Ok(_) => Ok(()),
        Err(_) => Err(AllocError),
    }
}

/// A place for a peer with this connection. A near one that finds none is given that of another.
fn place_for<R: Wait + Clock>(
    rt: &R,
    places: &Places,
    distance: Distance,
    stream: &Arc<TcpStream>,
) -> Option<Ticket> {
    let ticket = places.take(rt, distance, Arc::try_clone(stream).ok()?);
    if ticket.is_some() || !distance.is_near() || !places.make_room(rt, LEAVE_MS) {
        return ticket;
    }
    places.take(rt, distance, Arc::try_clone(stream).ok()?)
}

/// Serves a peer that knocked from there, if there is a place for it. Else it is turned away at once. If there is no thread for it, this
/// serves it for a moment, or until the farm has ended if it asks for that: so a farm without threads can be looked at and drained.
fn receive<R: Threads + Wait + Clock + Copy + Send + Sync + Drop + 'static>(
    rt: R,
    alloc: Global,
    hall: &Arc<Hall>,
    stream: TcpStream,
    peer: IpAddr,
) {
    let called = stream.local_addr().ok().map(|called| called.ip());
    let distance = Distance::of_peer(peer, called);
    let Ok(stream) = Arc::new(alloc, stream) else {
        return;
    };
    let Some(ticket) = place_for(&rt, &hall.page.places, distance, &stream) else {
        return;
    };
    let again = Arc::try_clone(&stream).ok();
    if welcome(rt, alloc, hall, stream, ticket).is_err() {
        if let Some(stream) = again {
            serve_peer(&rt, alloc, hall, &stream, ticket, HASTY_MS);
        }
        hall.page.places.leave(&rt, ticket);
    }
}

/// Lets peers in until the page is closed.
fn let_in<R: Threads + Wait + Clock + Copy + Send + Sync + Drop + 'static>(
    rt: R,
    alloc: Global,
    hall: &Arc<Hall>,
    listener: &TcpListener,
) {
    for _ in rt.forever() {
        match listener.accept() {
            Ok((stream, peer)) => receive(rt, alloc, hall, stream, peer.ip()),
            Err(_) => hall.page.closed.rest(&rt, POLL_MS),
        }
        if hall.page.closed.is_raised(&rt) {
            return;
        }
    }
}

/// Serves a page: waits for its door, and lets peers in until the page is closed. Each has a thread of its own, which nobody
/// joins.
pub fn serve_page<R: Threads + Wait + Clock + Copy + Send + Sync + Drop + 'static>(
    rt: R,
    alloc: Global,
    keys: RandomState,
    page: &Arc<SharedPage>,
) {
    let Some(door) = page.door(&rt) else {
        return;
    };
    let Ok(page) = Arc::try_clone(page) else {
        return;
    };
    let Door {
        listener,
        listen,
        hosts,
        times,
        backlog,
    } = door;
    let hall = Hall {
        page,
        listen,
        hosts,
        times,
        backlog,
        keys,
    };
    let Ok(hall) = Arc::new(alloc, hall) else {
        return;
    };
    let_in(rt, alloc, &hall, &listener);
}

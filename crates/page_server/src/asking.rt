//! What a request asks a page.

ghost use Rattle.std.specs.Prelude.{◌≡◌, ℕ, List};
ghost use Rattle.std.specs.Option.{option_copied};
ghost use Rattle.http.specs.Request.{head_of};
ghost use Rattle.page_server.specs.Answers as spec;

use crate::places::Distance;
use bytes::Bytes;
use farm_page::{Asked, Method};
use http::Request;

/// The method of a request.
fn method_of(request: &Request<Bytes>) -> Method
    ensures { result ≡ spec.method_of (head_of request.now).method }
{
    let name = request.method().as_str().as_bytes();
    if name == b"GET".as_slice() {
        Method::Get
    } else if name == b"HEAD".as_slice() {
        Method::Head
    } else if name == b"POST".as_slice() {
        Method::Post
    } else {
        Method::Other
    }
}

/// The value of a header, if it is there.
fn header<'r>(request: &'r Request<Bytes>, name: &'static str) -> Option<&'r [u8]>
    ensures { option_copied {T = List ℕ} result ≡ spec.header request.now name.now }
{
    match request.headers().get(name) {
        Some(value) => Some(value.as_bytes()),
        None => None,
    }
}

/// The authority of a request's target, if it has one.
fn authority<'r>(request: &'r Request<Bytes>) -> Option<&'r [u8]>
    ensures { option_copied {T = List ℕ} result ≡ spec.authority request.now }
{
    match request.uri().authority() {
        Some(authority) => Some(authority.as_str().as_bytes()),
        None => None,
    }
}

/// Whether a request asks for a page that is not asked for again.
fn is_still(request: &Request<Bytes>) -> bool
    ensures { result ≡ spec.is_still request.now }
{
    match request.uri().query() {
        Some(query) => query.as_bytes() == b"still".as_slice(),
        None => false,
    }
}

/// Whether a request has the header of a drain.
fn asks_drain(request: &Request<Bytes>) -> bool
    ensures { result ≡ spec.asks_drain request.now }
{
    match header(request, "poolman") {
        Some(value) => value == b"drain".as_slice(),
        None => false,
    }
}

/// What a request asks that comes from a peer so far away, as far as it decides what is answered.
pub fn asked_by<'r>(request: &'r Request<Bytes>, distance: Distance) -> Asked<'r>
    ensures { spec.IsAskedBy request.now distance result }
{
    Asked {
        method: method_of(request),
        path: request.uri().path().as_bytes(),
        host: header(request, "host"),
        authority: authority(request),
        is_still: is_still(request),
        is_near: distance.is_near(),
        asks_drain: asks_drain(request),
    }
}

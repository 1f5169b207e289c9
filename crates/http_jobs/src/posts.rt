//! A request by POST, as it is sent.

ghost use Rattle.std.specs.Prelude.{◌≡◌, ◌++◌, length, IfOk, IfErr, OnOk};
ghost use Rattle.http1.specs.Client.{new_client};
ghost use Rattle.http1.specs.Head.{pairs};
ghost use Rattle.http_jobs.specs.Post.{CanBeSent, text_of};
ghost use Rattle.http_jobs.specs.Reading.{HasAsked};

use http1::{BodySize, Client, Header, WriteError};
use std::alloc::{AllocError, Global};

/// A request by POST.
#[derive(Clone, Copy)]
pub struct Post<'p> {
    /// Its target, as `/jobs/resize`.
    pub target: &'p [u8],
    /// Its headers, without the length of its body.
    pub headers: &'p [Header<'p>],
    /// Its body, which may be empty.
    pub body: &'p [u8],
}

/// Room for the head of a request, which is seldom longer.
const HEAD_ROOM: usize = 1024;

/// The longest body that is sent in one write with the head of its request.
const MOST_COPIED: usize = 16384;

/// A request, as it is sent.
#[derive(Drop)]
pub struct EncodedRequest<'p> {
    /// Its head, and its body if that is short.
    pub text: Vec<u8>,
    /// What comes after: a longer body, from where it lies.
    pub rest: &'p [u8],
}

/// What is copied of the body, and what is sent from where it lies.
fn split_body(body: &[u8]) -> (&[u8], &[u8])
    ensures { result.0.now ++ result.1.now ≡ body.now }
{
    if body.len() <= MOST_COPIED {
        body.split_at(body.len())
    } else {
        body.split_at(0)
    }
}

/// How many bytes a body has.
fn len_of(body: &[u8]) -> usize
    ensures { result ≡ length body.now }
{
    body.len()
}

/// Writes a request into memory.
fn write_post<'p>(
    alloc: Global,
    client: &mut Client,
    post: &Post<'p>,
) -> Result<EncodedRequest<'p>, WriteError>
    requires fresh { client.old ≡ new_client client.old.limits }
    requires sendable { CanBeSent post.now.target.now (pairs post.now.headers.now) }
    ensures text { IfOk result (λ r. r.text.items ++ r.rest.now ≡ text_of post.now) }
    ensures asked { OnOk result (HasAsked client.old.limits client.new) }
    ensures reads { OnOk result (client.new.reading ≡ client.old.reading) }
    ensures memory { IfErr result (λ e. e ≡ WriteError.OutOfMemory) }
{
    let size = len_of(post.body);
    let (near, rest) = split_body(post.body);
    let mut text = Vec::with_capacity(alloc, near.len().saturating_add(HEAD_ROOM))?;
    client.write_request(
        &mut text,
        b"POST",
        post.target,
        post.headers,
        BodySize::Known(size as u64),
    )?;
    // Nothing stands around a body of a known length, so it is counted here and sent as it is.
    client.frame_data(size)?;
    client.write_end(&mut text, &[])?;
    text.extend_from_slice(near)?;
    Ok(EncodedRequest { text, rest })
}

/// Encodes a request, for a client that has asked nothing yet. The only error is out of memory.
pub fn encode_post<'p>(
    alloc: Global,
    client: &mut Client,
    post: &Post<'p>,
) -> Result<EncodedRequest<'p>, AllocError>
    requires fresh { client.old ≡ new_client client.old.limits }
    requires sendable { CanBeSent post.now.target.now (pairs post.now.headers.now) }
    ensures text { IfOk result (λ r. r.text.items ++ r.rest.now ≡ text_of post.now) }
    ensures asked { OnOk result (HasAsked client.old.limits client.new) }
    ensures reads { OnOk result (client.new.reading ≡ client.old.reading) }
{
    match write_post(alloc, client, post) {
        Ok(request) => Ok(request),
        Err(_) => Err(AllocError),
    }
}

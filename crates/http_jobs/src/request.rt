//! The request for a job.

ghost use Rattle.std.specs.Prelude.{◌≡◌, ◌++◌, string_bytes, IfOk, OnOk};
ghost use Rattle.http1.specs.Head.{pairs};
ghost use Rattle.gear_packets.specs.Reading.{job_of};
ghost use Rattle.http_jobs.specs.Request.{attempt_header, target_of, sent_header, headers_of, has_no_path, most_body};

use crate::service::Service;
use crate::values::is_sent;
use gear_packets::Assignment;
use http1::Header;
use percent_encoding::{AsciiSet, NON_ALPHANUMERIC, ascii_set, percent_encode};
use std::alloc::{AllocError, Global};

/// The most bytes that the body of a packet may have.
const PACKET_BODY: usize = 16_777_216;

/// What is percent-encoded in a path: all but the unreserved characters (RFC 3986, section 2.3).
pub const UNRESERVED: AsciiSet = ascii_set!(
    NON_ALPHANUMERIC
        .remove(b'-')
        .remove(b'.')
        .remove(b'_')
        .remove(b'~')
);

/// Which time a job is sent.
#[derive(Clone, Copy, Debug, PartialEq, Eq)]
pub enum Attempt {
    /// The first time.
    First,
    /// Once more, over a new connection: the kept one ended or failed before a byte of a response came.
    Second,
}

/// Whether a function of this name has no path of its own: the empty name, and `.` and `..`, of which servers make other paths.
pub fn has_no_path(name: &[u8]) -> bool
    ensures { result ≡ has_no_path name.now }
{
    name.is_empty() || name == b".".as_slice() || name == b"..".as_slice()
}

/// The most bytes of a body that a packet can hold beside the job's handle and its end.
pub fn most_body(job: &Assignment) -> usize
    ensures { result ≡ most_body (job_of job.now) }
{
    PACKET_BODY - (job.handle.bytes().len() + 1)
}

/// The target of a job's request.
pub fn target(alloc: Global, service: &Service, job: &Assignment) -> Result<String, AllocError>
    ensures { IfOk result (λ target. string_bytes target ≡ target_of service.now (job_of job.now)) }
{
    let mut target = String::from_str(alloc, service.path.as_str())?;
    target.push_str("/")?;
    percent_encode(job.function.as_slice(), UNRESERVED).append_to(&mut target)?;
    Ok(target)
}

/// Adds a header if its value may be sent.
fn push_sent<'h>(
    headers: &mut Vec<Header<'h>>,
    name: &'h [u8],
    value: &'h [u8],
) -> Result<(), AllocError>
    ensures { OnOk result (pairs headers.new.items ≡ pairs headers.old.items ++ sent_header name.now value.now) }
{
    if is_sent(value) {
        headers.push(Header { name, value })?;
    }
    Ok(())
}

/// Adds the header that says that a job is sent once more, if it is.
fn push_attempt(headers: &mut Vec<Header<'_>>, attempt: Attempt) -> Result<(), AllocError>
    ensures { OnOk result (pairs headers.new.items ≡ pairs headers.old.items ++ attempt_header attempt) }
{
    match attempt {
        Attempt::First => Ok(()),
        Attempt::Second => {
            headers.push(Header {
                name: b"poolman-sending",
                value: b"2",
            })?;
            Ok(())
        }
    }
}

/// The headers of a job's request, without its length.
pub fn headers<'h>(
    alloc: Global,
    service: &'h Service,
    job: &'h Assignment,
    attempt: Attempt,
) -> Result<Vec<Header<'h>>, AllocError>
    ensures { IfOk result (λ headers. pairs headers.items ≡ headers_of service.now (job_of job.now) attempt) }
{
    let mut headers = Vec::new(alloc);
    headers.push(Header {
        name: b"host",
        value: service.host.as_bytes(),
    })?;
    headers.push(Header {
        name: b"content-type",
        value: b"application/octet-stream",
    })?;
    push_sent(&mut headers, b"gearman-handle", job.handle.bytes())?;
    push_sent(&mut headers, b"gearman-unique", job.unique.as_slice())?;
    push_sent(&mut headers, b"poolman-worker", service.worker.as_bytes())?;
    push_attempt(&mut headers, attempt)?;
    Ok(headers)
}

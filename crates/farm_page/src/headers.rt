//! The headers of an answer.

ghost use Rattle.std.specs.Prelude.{◌≡◌, ◌++◌, [], ◌∷◌, IfOk, OnOk};
ghost use Rattle.farm_page.specs.Answer as spec;
ghost use Rattle.farm_page.specs.Headers.{pairs};

use crate::answer::{Allowed, Answer};
use crate::style::POLICY;
use std::alloc::{AllocError, Global};

/// A header of an answer.
#[derive(Drop)]
pub struct Header {
    /// Its name, in small letters.
    pub name: &'static str,
    /// Its value.
    pub value: String,
}

/// Adds a header.
fn put(headers: &mut Vec<Header>, name: &'static str, value: &str) -> Result<(), AllocError>
    ensures { OnOk result (pairs headers.new.items ≡ pairs headers.old.items ++ (name.now, value.now) ∷ []) }
{
    let value = String::from_str(*headers.allocator(), value)?;
    headers.push(Header { name, value })?;
    Ok(())
}

/// Adds what keeps a page safe.
fn put_safety(headers: &mut Vec<Header>) -> Result<(), AllocError>
    ensures { OnOk result (pairs headers.new.items ≡ pairs headers.old.items ++ spec.safety) }
{
    put(headers, "content-security-policy", POLICY)?;
    put(headers, "x-content-type-options", "nosniff")?;
    put(headers, "referrer-policy", "no-referrer")?;
    put(headers, "cache-control", "no-store")
}

/// Adds the number of the attempt, if there is one.
fn put_attempt(headers: &mut Vec<Header>, attempt: Option<u32>) -> Result<(), AllocError>
    ensures { OnOk result (pairs headers.new.items ≡ pairs headers.old.items ++ spec.attempt_header attempt) }
{
    match attempt {
        Some(attempt) => {
            let number = attempt.to_string(*headers.allocator())?;
            put(headers, "poolman-attempt", number.as_str())
        }
        None => Ok(()),
    }
}

/// Adds the methods that may be used, if another was.
fn put_allowed(headers: &mut Vec<Header>, allowed: Option<Allowed>) -> Result<(), AllocError>
    ensures { OnOk result (pairs headers.new.items ≡ pairs headers.old.items ++ spec.allow_header allowed) }
{
    match allowed {
        Some(allowed) => put(headers, "allow", allowed.methods()),
        None => Ok(()),
    }
}

/// The headers of an answer: its media type, those that keep a page safe, the number of the attempt that the body is of, and the methods
/// that may be used in place of the one that was. The only error is out of memory.
pub fn headers_of(alloc: Global, answer: &Answer) -> Result<Vec<Header>, AllocError>
    ensures { IfOk result (λ headers. pairs headers.items ≡ spec.headers answer.now) }
{
    let mut headers = Vec::new(alloc);
    put(&mut headers, "content-type", answer.content().media_type())?;
    put_safety(&mut headers)?;
    put_attempt(&mut headers, answer.attempt())?;
    put_allowed(&mut headers, answer.allowed())?;
    Ok(headers)
}

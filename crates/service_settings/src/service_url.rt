//! Where the jobs of a machine go.

ghost use Rattle.std.specs.Prelude.{◌≡◌, ◌≤◌, IfOk, length, string_bytes, true};
ghost use Rattle.service_settings.specs.Url as spec;

use crate::url_parts::parts_of;
use file_keys::is_host;
use std::alloc::{AllocError, Global};
use std::marker::Model;

/// Where the jobs of a machine go: a job of the function F is a POST to the path, a slash and F, at the host.
#[derive(Drop)]
pub struct ServiceUrl {
    host: String,
    path: String,
}

impl Model for ServiceUrl {
    ghost use Rattle.std.specs.Prelude.{string_bytes};
    ghost use Rattle.service_settings.specs.Services.{IsSendable, Url};

    ghost Value = { Url };

    ghost view = { λ u. record { host = string_bytes u.host; path = string_bytes u.path } };

    ghost invariant = { λ u. IsSendable (record { host = string_bytes u.host; path = string_bytes u.path }) };
}

impl ServiceUrl {
    /// The URL that a text is, if it is one. The only error is out of memory.
    pub(crate) fn read(alloc: Global, text: &[u8]) -> Result<Option<ServiceUrl>, AllocError>
        ensures { IfOk result (λ url. url ≡ spec.url_of text.now) }
    {
        let Some(parts) = parts_of(text) else {
            return Ok(None);
        };
        let host = with_port(alloc, parts.authority)?;
        let path = String::from_str(alloc, parts.path)?;
        Ok(Some(ServiceUrl { host, path }))
    }

    /// The host and its port, as `10.0.0.5:8000`: a name of letters, digits, `-`, `.` and `_`, an IPv4 address or an IPv6 address in
    /// brackets, a colon, and a number from 1 to 65,535.
    pub fn host(&self) -> &str
        ensures all { result.now ≡ self.now.host }
        ensures some { 1 ≤ length result.now }
        ensures visible { spec.is_visible result.now ≡ true }
    {
        self.host.as_str()
    }

    /// The path under which the functions are, as `/jobs`: empty, or what begins with a slash. A slash at the end of the URL is
    /// dropped.
    pub fn path(&self) -> &str
        ensures all { result.now ≡ self.now.path }
        ensures visible { spec.is_visible result.now ≡ true }
    {
        self.path.as_str()
    }
}

/// A host and its port, which is 80 if none is given.
fn with_port(alloc: Global, authority: &str) -> Result<String, AllocError>
    ensures { IfOk result (λ host. string_bytes host ≡ spec.with_port authority.now) }
{
    if is_host(authority.as_bytes()) {
        let host = format!(in alloc; "{authority}:80")?;
        return Ok(host);
    }
    String::from_str(alloc, authority)
}

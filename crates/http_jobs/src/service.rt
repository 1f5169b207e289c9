//! Where a service is.

ghost use Rattle.std.specs.Prelude.{◌≡◌, true, string_bytes, IfOk, Err, Some, None, if◌then◌else◌, not};
ghost use Rattle.std.specs.Result.{result_err};
ghost use Rattle.http_jobs.specs.Values.{is_sent, is_visible};

use crate::values::{is_sent, is_visible};
use thiserror::Error;

/// Why a service cannot be asked. The variants are in the order in which they are looked for.
#[derive(Clone, Copy, Debug, PartialEq, Eq, Error)]
pub enum ServiceError {
    /// The host is no value of a header: it is empty, or has a control character, or white space at an end.
    #[error("the host cannot be sent in a header")]
    Host,
    /// The path has another character than the visible ones of ASCII.
    #[error("the path cannot be sent in a request")]
    Path,
}

/// Where a service is, and which worker calls it. Each request to it can be sent.
#[derive(Drop)]
pub struct Service {
    /// Its host, as `10.0.0.5:8000`.
    pub(crate) host: String,
    /// The path under which its functions are, as `/jobs`, without a slash at its end.
    pub(crate) path: String,
    /// The name of the worker, as `north/0#3`.
    pub(crate) worker: String,
    ghost hosted: { is_sent (string_bytes host) ≡ true },
    ghost visible: { is_visible (string_bytes path) ≡ true },
}

impl Service {
    /// A service at a host, as `10.0.0.5:8000`, whose functions are under a path, as `/jobs`, without a slash at its end. The worker's
    /// name is left out of a request that cannot hold it.
    pub fn new(host: String, path: String, worker: String) -> Result<Service, ServiceError>
        ensures host { IfOk result (λ service. service.host ≡ host) }
        ensures path { IfOk result (λ service. service.path ≡ path) }
        ensures worker { IfOk result (λ service. service.worker ≡ worker) }
        ensures refused { result_err result ≡ (if not (is_sent (string_bytes host)) then Some ServiceError.Host
            else (if not (is_visible (string_bytes path)) then Some ServiceError.Path else None)) }
    {
        if !is_sent(host.as_bytes()) {
            return Err(ServiceError::Host);
        }
        if !is_visible(path.as_bytes()) {
            return Err(ServiceError::Path);
        }
        Ok(Service { host, path, worker })
    }
}

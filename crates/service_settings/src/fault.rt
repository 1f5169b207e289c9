//! Why the services of a file are not taken, and where the first fault is.

ghost use Rattle.std.specs.Prelude.{◌≡◌};
ghost use Rattle.service_settings.specs.Fault as spec;

use crate::ServicesError;
use crate::place::ServicesPlace;
use std::alloc::AllocError;

/// Why the services of a file are not taken.
#[derive(Clone, Copy, Debug, PartialEq, Eq)]
pub enum ServicesFault<'f> {
    /// The first fault of the file: what `Services::read` answers, which is not `Memory`, and where that is. With `Text` it is a line
    /// and a column, with `DotFunction` and `NoUrl` a name of the settings, and else a key or a name of the file.
    At(ServicesError, ServicesPlace<&'f str>),
    /// An allocation was refused.
    Memory,
}

impl ServicesFault<'_> {
    /// The refusal without its place, as `Services::read` answers it.
    pub fn error(&self) -> ServicesError
        ensures { result ≡ spec.error_of self.now }
    {
        match *self {
            ServicesFault::At(error, _) => error,
            ServicesFault::Memory => ServicesError::Memory,
        }
    }
}

impl From<AllocError> for ServicesFault<'_> {
    ghost use Rattle.std.specs.Prelude.{◌≡◌};
    ghost use Rattle.service_settings.specs.declared.fault.ServicesFault.TheVariants.{Memory};

    ghost from_gives = { λ _ fault. fault ≡ Memory };

    fn from(_: AllocError) -> Self {
        ServicesFault::Memory
    }
}

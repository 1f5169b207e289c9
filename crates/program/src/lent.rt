//! What the program is lent.

use fault_detail::Reader;
use std::alloc::{AllocError, Global};

/// What the program is lent: the files that it may open, the host of a run, where memory comes from, and who reads error output.
pub struct Lent<'w, F, H> {
    /// The files.
    pub files: &'w F,
    /// The host.
    pub host: &'w H,
    /// Where memory comes from.
    pub alloc: Global,
    /// Who reads error output.
    pub reader: Reader,
}

impl<'w, F, H> Clone for Lent<'w, F, H> {
    ghost use Rattle.std.specs.Prelude.{◌≡◌, ⊤};

    ghost is_clone = { λ lent copy. copy ≡ lent };

    ghost is_infallible = { λ _. ⊤ };

    fn clone(&self) -> Result<Lent<'w, F, H>, AllocError> {
        Ok(*self)
    }
}

// Not derived, since that would ask the same of all that is lent.
impl<'w, F, H> Copy for Lent<'w, F, H> {}

//! Jobs that are kept no longer.
ghost use Rattle.std.specs.Prelude.{◌≡◌};
ghost use Rattle.pool_core.specs.Book.{has_closed_prefix};
ghost use Rattle.pool_core.specs.Calls.{Forgets};

use super::Pool;
use crate::event::Forgotten;
use crate::table;
use worker_state::Ticket;

impl Pool {
    /// Whether the job of the first ticket that is not forgotten is reported or lost.
    fn has_closed_prefix(&self) -> bool
        ensures { result ≡ has_closed_prefix self.now }
    {
        match self.standings.get(self.standings.forgotten()) {
            None => false,
            Some(standing) => table::is_closed(standing),
        }
    }

    /// Forgets the job of the first ticket that is not forgotten, and hands it out, if it is reported or lost. None if it goes on, or if
    /// no such ticket was given. This is no event; it needs no room in the history, and takes constant time on average.
    ///
    /// `standing` and `job` answer None for a forgotten ticket. It stays given: tickets go on rising, and the totals count it. A job
    /// that goes on keeps those of later tickets from being forgotten.
    pub fn forget(&mut self) -> Option<Forgotten>
        ensures { Forgets self.old self.new result }
    {
        if !self.has_closed_prefix() {
            return None;
        }
        let job = self.jobs.forget()?;
        let standing = self.standings.forget()?;
        let ticket = Ticket::new(self.standings.forgotten());
        Some(Forgotten {
            ticket,
            job,
            standing,
        })
    }
}

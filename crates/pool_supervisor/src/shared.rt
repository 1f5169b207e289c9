//! The pool that sessions share.
ghost use Rattle.std.specs.Prelude.{◌≡◌, []};
ghost use Rattle.pool_core.specs.Book.{totals_of};

use crate::booked::Booked;
use crate::place::{RoundsOf, RunLedger};
use agreed_rounds::{NoRounds, RoundsTold};
use pool_core::Pool;
use std::sync::ledger::{Blank, Ledger, Share};
use std::sync::{Mutex, MutexGuard, Wait};

/// A pool that threads share: one lock round a [`Booked`].
///
/// Whoever gets the lock finds a pool whose state is the replay of its history, with books that stand at its totals. Its calls are
/// those of the [`Booked`] that [`Shared::hold`] gives. It may wait for as long as other threads hold the lock.
#[derive(Drop)]
pub struct Shared<G: RunLedger, D: Ledger> {
    lock: Mutex<Booked<G, D>>,
}

impl<G: RunLedger, D: Ledger> Shared<G, D> {
    /// Shares a pool that has grabbed nothing and made no round, with the whole shares of both ledgers, which stand at 0, and no rounds to
    /// tell.
    pub fn new(
        pool: Pool,
        grabbed: Blank,
        reported: Blank,
        rounds: NoRounds,
    ) -> (Shared<G, D>, (Share<G>, Share<D>), RoundsTold<RoundsOf<G>>)
        requires pool { ((totals_of pool).grabbed ≡ 0) × ((totals_of pool).rounds ≡ 0) }
        requires rounds { rounds ≡ G.rounds }
        requires settings { pool.settings ≡ G.settings }
        requires grabbed { (grabbed.name ≡ G.name) × (grabbed.parts ≡ G.parts) }
        requires reported { (reported.name ≡ D.name) × (reported.parts ≡ D.parts) }
        ensures grabbed { (result.1.0.parts ≡ G.parts) × (result.1.0.amount ≡ 0) }
        ensures reported { (result.1.1.parts ≡ D.parts) × (result.1.1.amount ≡ 0) }
        ensures told { result.2 ≡ [] }
    {
        let (booked, grab_share, report_share, told) = Booked::new(pool, grabbed, reported, rounds);
        let shared = Shared {
            lock: Mutex::new(booked),
        };
        (shared, (grab_share, report_share), told)
    }

    /// The pool as it is now, until the guard is dropped. No other thread has it meanwhile.
    pub fn hold<R: Wait>(&self, rt: &R) -> MutexGuard<'_, Booked<G, D>> {
        self.lock.lock(rt)
    }

    /// The pool, once no session has it any more.
    pub fn into_pool(self) -> Pool {
        let Shared { lock } = self;
        lock.into_inner().into_pool()
    }
}

//! The name of a run, and a session's place at its board.
ghost use Rattle.std.specs.Prelude.{◌≡◌, ◌≤◌};
ghost use Rattle.atomic_table.specs.Seated.{TableId};
ghost use Rattle.pool_settings.specs.Slots.{slots};

use crate::attempts::Until;
use agreed_rounds::{RoundsId, RoundsTold};
use order_board::{Board, ReaderSeat};
use pool_settings::Settings;
use std::alloc::AllocError;
use std::marker::{Brand, PhantomData};
use std::sync::ledger::Ledger;

/// The name of a run: its board, the settings of its pool, how long it makes attempts, which slots its source allows and which jobs it
/// gives, the ledgers of its grabs and of its reports, and its rounds. Each call of a program picks it, so that what a thread hands back is
/// known to be of its own run.
pub trait RunId {
    ghost use Rattle.std.specs.Prelude.{ℕ, Bool};
    ghost use Rattle.atomic_table.specs.Seated.{TableId};
    ghost use Rattle.pool_settings.specs.Settings.{Settings};
    ghost use Rattle.pool_supervisor.specs.Sessions.{PastSession};
    ghost use Rattle.pool_supervisor.specs.declared.attempts.Until.{Until};

    ghost board: { TableId };

    ghost settings: { Settings };

    ghost until: { Until };

    ghost allows: { ℕ → Bool → Bool };

    ghost had_jobs: { PastSession → Type 0 };

    ghost grabs: { ℕ };

    ghost reports: { ℕ };

    ghost rounds: { TableId };
}

impl RunId for Brand {
    ghost use Rattle.std.specs.Prelude.{⊤};
    ghost use Rattle.pool_supervisor.specs.Boards.{no_board, no_settings, no_rule, no_until};

    ghost board = { no_board };

    ghost settings = { no_settings };

    ghost until = { no_until };

    ghost allows = { no_rule };

    ghost had_jobs = { λ _. ⊤ };

    ghost grabs = { 0 };

    ghost reports = { 0 };

    ghost rounds = { no_board };
}

/// A ledger of a run. It knows the settings of the run's pool, and the name of its rounds.
pub trait RunLedger: Ledger {
    ghost use Rattle.atomic_table.specs.Seated.{TableId};
    ghost use Rattle.pool_settings.specs.Settings.{Settings};

    ghost settings: { Settings };

    ghost rounds: { TableId };
}

/// The rounds of a run, by a ledger of it.
pub struct RoundsOf<G> {
    of: PhantomData<G>,
}

impl<G: RunLedger> RoundsId for RoundsOf<G> {
    ghost rounds = { G.rounds };
}

/// The ledger of a run's grabs.
pub struct Grabs<N> {
    of: PhantomData<N>,
}

impl<N: RunId> Ledger for Grabs<N> {
    ghost use Rattle.std.specs.Prelude.{◌^◌};

    ghost name = { N.grabs };

    ghost parts = { 2 ^ 40 };
}

impl<N: RunId> RunLedger for Grabs<N> {
    ghost settings = { N.settings };

    ghost rounds = { N.rounds };
}

/// The rounds of a run, for its supervisor, who tells them.
pub type RunRounds<N> = RoundsTold<RoundsOf<Grabs<N>>>;

/// The ledger of a run's reports.
pub struct Reports<N> {
    of: PhantomData<N>,
}

impl<N: RunId> Ledger for Reports<N> {
    ghost use Rattle.std.specs.Prelude.{◌^◌};

    ghost name = { N.reports };

    ghost parts = { 2 ^ 40 };
}

/// A session's seat at the board of a run.
#[derive(Drop)]
pub struct Place<N: RunId> {
    /// The seat.
    pub seat: ReaderSeat,
    /// Whose board it is.
    pub of: PhantomData<N>,
    /// The seat is one of that board.
    pub ghost here: { seat.board ≡ N.board },
}

/// The board of a run, which has a place for each slot, the settings of its pool, and how long it goes on.
pub struct RunBoard<'e, N: RunId> {
    /// The board.
    pub board: &'e Board,
    /// The settings.
    pub settings: &'e Settings,
    /// How long the run makes attempts, and so when its history is cut.
    pub until: Until,
    /// Whose they are.
    pub of: PhantomData<N>,
    /// The board is the run's.
    pub ghost here: { board.now.id ≡ N.board },
    /// The settings are those of the run's pool.
    pub ghost settings_are: { settings.now ≡ N.settings },
    /// It goes on as long as the run.
    pub ghost until_is: { until ≡ N.until },
    /// There is a place for each slot.
    pub ghost room: { slots settings.now ≤ board.now.slots },
}

impl<'e, N: RunId> Clone for RunBoard<'e, N> {
    ghost use Rattle.std.specs.Prelude.{◌≡◌, ⊤};

    ghost is_clone = { λ board copy. copy ≡ board };

    ghost is_infallible = { λ _. ⊤ };

    fn clone(&self) -> Result<RunBoard<'e, N>, AllocError> {
        Ok(*self)
    }
}

impl<'e, N: RunId> Copy for RunBoard<'e, N> {}

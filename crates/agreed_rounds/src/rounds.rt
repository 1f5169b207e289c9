//! The rounds of a run, by who keeps them and by who tells them.
ghost use Rattle.std.specs.Prelude.{◌≡◌, ◌++◌, ◌∷◌, []};

use crate::known::{AddedRound, Adds, Cell, Finds, Known, Parts, Spare};
use pool_core::Ran;
use std::alloc::{AllocError, Global};
use std::marker::{Brand, Model, PhantomData};
use std::mem;
use std::sync::Wait;

/// The name of the rounds of a run. Each call of a program picks it.
pub trait RoundsId {
    ghost use Rattle.atomic_table.specs.Seated.{TableId};

    ghost rounds: { TableId };
}

/// No rounds yet, and no name. Contracts see it as the name that it may get.
#[derive(Drop)]
pub struct NoRounds {
    cell: Cell,
    pass: Known,
}

impl Model for NoRounds {
    ghost use Rattle.std.specs.Prelude.{◌≡◌, []};
    ghost use Rattle.atomic_table.specs.Seated.{TableId};
    ghost use Rattle.crossbeam_utils.specs.Seq.{cell_view};
    ghost use Rattle.agreed_rounds.specs.Agreed.{alone};

    ghost Value = { TableId };

    ghost view = { λ none. none.cell.table.shared.table_id };

    ghost invariant = { λ none. (none.pass.table_id ≡ none.cell.table.shared.table_id) × (cell_view none.pass ≡ alone []) };
}

impl NoRounds {
    /// No rounds yet. The error is that memory was refused.
    pub fn new(alloc: Global) -> Result<NoRounds, AllocError> {
        let (cell, pass) = Cell::ruled(alloc, [0])?;
        Ok(NoRounds { cell, pass })
    }

    /// No rounds yet, under a name: for who keeps them, and for who tells them.
    pub fn named<X: RoundsId>(self) -> (RoundsKept<X>, RoundsTold<X>)
        requires name { self ≡ X.rounds }
        ensures kept { result.0 ≡ [] }
        ensures told { result.1 ≡ [] }
    {
        let NoRounds { cell, mut pass } = self;
        let told = cell.split_pass::<Parts>(&mut pass);
        (
            RoundsKept {
                cell,
                pass,
                of: PhantomData,
            },
            RoundsTold {
                pass: told,
                of: PhantomData,
            },
        )
    }
}

/// The rounds of a run, for who keeps them. Contracts see them as what each came to, the first one first.
#[derive(Drop)]
pub struct RoundsKept<X: RoundsId> {
    cell: Cell,
    pass: Known,
    of: PhantomData<X>,
}

impl<X: RoundsId> Model for RoundsKept<X> {
    ghost use Rattle.std.specs.Prelude.{◌≡◌, List};
    ghost use Rattle.crossbeam_utils.specs.Seq.{cell_view};
    ghost use Rattle.pool_core.specs.declared.answer.Ran.{Ran};
    ghost use Rattle.agreed_rounds.specs.Agreed.{keeper};

    ghost Value = { List Ran };

    ghost view = { λ r. (cell_view r.pass).kept };

    ghost invariant = { λ r. (r.cell.table.shared.table_id ≡ X.rounds) × (r.pass.table_id ≡ X.rounds)
        × (cell_view r.pass ≡ keeper (cell_view r.pass).kept) };
}

/// The rounds of a run, for who tells them. Contracts see them as what each came to, the first one first.
#[derive(Drop)]
pub struct RoundsTold<X: RoundsId> {
    pass: Known,
    of: PhantomData<X>,
}

impl<X: RoundsId> Model for RoundsTold<X> {
    ghost use Rattle.std.specs.Prelude.{◌≡◌, List, []};
    ghost use Rattle.crossbeam_utils.specs.Seq.{cell_view};
    ghost use Rattle.pool_core.specs.declared.answer.Ran.{Ran};
    ghost use Rattle.agreed_rounds.specs.Agreed.{teller};

    ghost Value = { List Ran };

    ghost view = { λ r. (cell_view r.pass).told };

    ghost invariant = { λ r. (r.pass.table_id ≡ X.rounds) × (r.pass.me.1 ≡ []) × (cell_view r.pass ≡ teller (cell_view r.pass).told) };
}

impl<X: RoundsId> RoundsKept<X> {
    /// One more round. It is the next one for both, who know the same rounds before it.
    pub fn push<R: Wait>(&mut self, rt: &R, told: &mut RoundsTold<X>, ran: Ran)
        ensures same { told.old ≡ self.old }
        ensures kept { self.new ≡ self.old ++ ran ∷ [] }
        ensures told { told.new ≡ told.old ++ ran ∷ [] }
    {
        self.add::<Brand, R>(rt, told, &ran)
    }

    /// One more round, of this name.
    fn add<Y: AddedRound, R: Wait>(&mut self, rt: &R, told: &mut RoundsTold<X>, ran: &Ran)
        requires name { ran.now ≡ Y.ran }
        ensures same { told.old ≡ self.old }
        ensures kept { self.new ≡ self.old ++ ran.entry.now ∷ [] }
        ensures told { told.new ≡ told.old ++ ran.entry.now ∷ [] }
    {
        // Only proofs read what it came to.
        let _ran = ran;
        let RoundsKept { cell, pass, of: _ } = self;
        let spare = cell.split_pass::<Spare>(pass);
        let other = mem::replace(&mut told.pass, spare);
        cell.join_pass::<Parts>(pass, other);
        cell.load_as::<Finds, R>(rt, pass);
        cell.load_as::<Adds<Y>, R>(rt, pass);
        told.pass = cell.split_pass::<Parts>(pass);
    }

    /// Both know the same rounds. Nothing is told any more.
    pub fn reconcile<R: Wait>(&mut self, rt: &R, told: RoundsTold<X>)
        ensures same { told ≡ self.old }
        ensures kept { self.new ≡ self.old }
    {
        let RoundsKept { cell, pass, of: _ } = self;
        let RoundsTold { pass: other, of: _ } = told;
        cell.join_pass::<Parts>(pass, other);
        cell.load_as::<Finds, R>(rt, pass);
        let _told = cell.split_pass::<Parts>(pass);
    }
}

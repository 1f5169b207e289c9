//! The history of a run, by who keeps it, who has its roster, and who tells of a session.
ghost use Rattle.std.specs.Prelude.{◌≡◌, ◌+◌, ◌-◌, ◌++◌, ◌∷◌, [], true, false};
ghost use Rattle.pool_core.specs.declared.event.Event.TheVariants.{Join};
ghost use Rattle.agreed_history.specs.declared.known.Entry.TheVariants.{Happened, ChapterEnd};
ghost use Rattle.worker_state.specs.declared.slot.WorkerName.{WorkerName};
ghost use Rattle.agreed_history.specs.Agreed.{has, is_own, past, IsClosed};

use crate::known::{
    AddsOther, AddsOwn, Begins, Cell, Cuts, Ends, Finds, Known, OfRoster, OfSession, Picked, Spare,
};
use pool_core::Event;
use std::alloc::{AllocError, Global};
use std::marker::{Brand, Model, PhantomData};
use std::mem;
use std::sync::Wait;
use worker_state::WorkerName;

/// The name of a run's history. Each call of a program picks it.
pub trait RunName {
    ghost use Rattle.atomic_table.specs.Seated.{TableId};

    ghost history: { TableId };
}

impl RunName for Brand {
    ghost use Rattle.agreed_history.specs.Agreed.{no_name};

    ghost history = { no_name };
}

/// Nothing has happened, and there is no name. Contracts see it as the name that it may get.
#[derive(Drop)]
pub struct NoHistory {
    cell: Cell,
    pass: Known,
}

impl Model for NoHistory {
    ghost use Rattle.std.specs.Prelude.{◌≡◌};
    ghost use Rattle.atomic_table.specs.Seated.{TableId};
    ghost use Rattle.crossbeam_utils.specs.Seq.{cell_view};
    ghost use Rattle.agreed_history.specs.Agreed.{alone};

    ghost Value = { TableId };

    ghost view = { λ none. none.cell.table.shared.table_id };

    ghost invariant = { λ none. (none.pass.table_id ≡ none.cell.table.shared.table_id) × (cell_view none.pass ≡ alone) };
}

impl NoHistory {
    /// Nothing has happened yet. The error is that memory was refused.
    pub fn new(alloc: Global) -> Result<NoHistory, AllocError> {
        let (cell, pass) = Cell::ruled(alloc, [0])?;
        Ok(NoHistory { cell, pass })
    }

    /// The empty history under a name, and its roster.
    pub fn named<X: RunName>(self) -> (HistoryKept<X>, Roster<X>)
        requires name { self ≡ X.history }
        ensures kept { (result.0.entries ≡ []) × (result.0.born ≡ []) }
        ensures roster { (result.1.count ≡ 0) × (result.1.known ≡ []) }
    {
        let NoHistory { cell, mut pass } = self;
        let roster = cell.split_pass::<OfRoster>(&mut pass);
        (
            HistoryKept {
                cell,
                pass,
                of: PhantomData,
            },
            Roster {
                pass: roster,
                of: PhantomData,
            },
        )
    }
}

/// The whole history, for who keeps it. Contracts see it as its events, the first one first.
#[derive(Drop)]
pub struct HistoryKept<X: RunName> {
    cell: Cell,
    pass: Known,
    of: PhantomData<X>,
}

impl<X: RunName> Model for HistoryKept<X> {
    ghost use Rattle.std.specs.Prelude.{◌≡◌};
    ghost use Rattle.crossbeam_utils.specs.Seq.{cell_view};
    ghost use Rattle.agreed_history.specs.Agreed.{Kept, kept, keeper};

    ghost Value = { Kept };

    ghost view = { λ h. kept (cell_view h.pass) };

    ghost invariant = { λ h. (h.cell.table.shared.table_id ≡ X.history) × (h.pass.table_id ≡ X.history)
        × (cell_view h.pass ≡ keeper (cell_view h.pass).log (cell_view h.pass).born) };
}

/// The sessions of a run, for its supervisor.
#[derive(Drop)]
pub struct Roster<X: RunName> {
    pass: Known,
    of: PhantomData<X>,
}

impl<X: RunName> Model for Roster<X> {
    ghost use Rattle.std.specs.Prelude.{◌≡◌, []};
    ghost use Rattle.crossbeam_utils.specs.Seq.{cell_view};
    ghost use Rattle.agreed_history.specs.Agreed.{Listed, listed, ruler};

    ghost Value = { Listed };

    ghost view = { λ r. listed (cell_view r.pass) };

    ghost invariant = { λ r. (r.pass.table_id ≡ X.history) × (r.pass.me.1 ≡ [])
        × (cell_view r.pass ≡ ruler (cell_view r.pass).count (cell_view r.pass).known) };
}

/// What a session did in the history, for the session.
#[derive(Drop)]
pub struct Told<X: RunName> {
    pass: Known,
    of: PhantomData<X>,
}

impl<X: RunName> Model for Told<X> {
    ghost use Rattle.std.specs.Prelude.{◌≡◌, []};
    ghost use Rattle.crossbeam_utils.specs.Seq.{cell_view};
    ghost use Rattle.agreed_history.specs.declared.known.Past.{Past};
    ghost use Rattle.agreed_history.specs.Agreed.{past, teller};

    ghost Value = { Past };

    ghost view = { λ t. past (cell_view t.pass).who (cell_view t.pass).did };

    ghost invariant = { λ t. (t.pass.table_id ≡ X.history) × (t.pass.me.1 ≡ [])
        × (cell_view t.pass ≡ teller (cell_view t.pass).who (cell_view t.pass).did) };
}

/// The history of a run that is over. Contracts see it as its events, and what its sessions did.
#[derive(Drop)]
pub struct Closed {
    pass: Known,
}

impl Model for Closed {
    ghost use Rattle.std.specs.Prelude.{◌≡◌, List};
    ghost use Rattle.crossbeam_utils.specs.Seq.{cell_view};
    ghost use Rattle.agreed_history.specs.Agreed.{Story, closed_of, IsClosed};

    ghost Value = { Story };

    ghost view = { λ c. closed_of (cell_view c.pass) };

    ghost invariant = { λ c. IsClosed (closed_of (cell_view c.pass)) };
}

impl<X: RunName> HistoryKept<X> {
    /// A session joins, whose name is new.
    pub fn join(&mut self, roster: &mut Roster<X>, who: WorkerName) -> Told<X>
        requires new { has who self.old.born ≡ false }
        ensures kept { (self.new.entries ≡ self.old.entries ++ Happened (Join who.slot) ∷ []) × (self.new.born ≡ who ∷ self.old.born) }
        ensures count { roster.new.count ≡ roster.old.count + 1 }
        ensures same { roster.new.known ≡ roster.old.known }
        ensures told { result ≡ past who [] }
    {
        self.begin::<Brand>(roster, who)
    }

    fn begin<Y: Picked>(&mut self, roster: &mut Roster<X>, who: WorkerName) -> Told<X>
        requires name { who ≡ Y.who }
        requires new { has who self.old.born ≡ false }
        ensures kept { (self.new.entries ≡ self.old.entries ++ Happened (Join who.slot) ∷ []) × (self.new.born ≡ who ∷ self.old.born) }
        ensures count { roster.new.count ≡ roster.old.count + 1 }
        ensures same { roster.new.known ≡ roster.old.known }
        ensures told { result ≡ past who [] }
    {
        // Only proofs read the name.
        let _who = who;
        let HistoryKept { cell, pass, of: _ } = self;
        let spare = cell.split_pass::<Spare>(pass);
        let other = mem::replace(&mut roster.pass, spare);
        cell.join_pass::<OfRoster>(pass, other);
        let told = cell.split_pass::<Begins<Y>>(pass);
        roster.pass = cell.split_pass::<OfRoster>(pass);
        Told {
            pass: told,
            of: PhantomData,
        }
    }

    /// A session adds an event of its own.
    pub fn add(&mut self, told: &mut Told<X>, event: &Event)
        requires own { is_own told.old.who event.now ≡ true }
        ensures kept { (self.new.entries ≡ self.old.entries ++ Happened event.entry.now ∷ []) × (self.new.born ≡ self.old.born) }
        ensures told { told.new ≡ past told.old.who (told.old.did ++ event.entry.now ∷ []) }
    {
        self.add_own::<Brand>(told, event)
    }

    fn add_own<Y: Picked>(&mut self, told: &mut Told<X>, event: &Event)
        requires name { event.now ≡ Y.event }
        requires own { is_own told.old.who event.now ≡ true }
        ensures kept { (self.new.entries ≡ self.old.entries ++ Happened event.entry.now ∷ []) × (self.new.born ≡ self.old.born) }
        ensures told { told.new ≡ past told.old.who (told.old.did ++ event.entry.now ∷ []) }
    {
        // Only proofs read the event.
        let _event = event;
        let HistoryKept { cell, pass, of: _ } = self;
        let spare = cell.split_pass::<Spare>(pass);
        let other = mem::replace(&mut told.pass, spare);
        cell.join_pass::<OfSession>(pass, other);
        told.pass = cell.split_pass::<AddsOwn<Y>>(pass);
    }

    /// An event of no session is added.
    pub fn note(&mut self, event: &Event)
        requires other { (k : WorkerName) → is_own k event.now ≡ false }
        ensures kept { (self.new.entries ≡ self.old.entries ++ Happened event.entry.now ∷ []) × (self.new.born ≡ self.old.born) }
    {
        self.add_other::<Brand>(event)
    }

    fn add_other<Y: Picked>(&mut self, event: &Event)
        requires name { event.now ≡ Y.event }
        requires other { (k : WorkerName) → is_own k event.now ≡ false }
        ensures kept { (self.new.entries ≡ self.old.entries ++ Happened event.entry.now ∷ []) × (self.new.born ≡ self.old.born) }
    {
        // Only proofs read the event.
        let _event = event;
        let HistoryKept { cell, pass, of: _ } = self;
        let _nobody = cell.split_pass::<AddsOther<Y>>(pass);
    }

    /// A chapter ends.
    pub fn cut(&mut self)
        ensures kept { (self.new.entries ≡ self.old.entries ++ ChapterEnd ∷ []) × (self.new.born ≡ self.old.born) }
    {
        let HistoryKept { cell, pass, of: _ } = self;
        let _nobody = cell.split_pass::<Cuts>(pass);
    }

    /// A session has ended: the roster has what it did.
    pub fn end(&mut self, roster: &mut Roster<X>, told: Told<X>)
        ensures kept { self.new ≡ self.old }
        ensures count { roster.new.count ≡ roster.old.count - 1 }
        ensures known { roster.new.known ≡ roster.old.known ++ told ∷ [] }
    {
        let HistoryKept { cell, pass, of: _ } = self;
        let spare = cell.split_pass::<Spare>(pass);
        let other = mem::replace(&mut roster.pass, spare);
        cell.join_pass::<OfRoster>(pass, other);
        let Told { pass: own, of: _ } = told;
        cell.join_pass::<Ends>(pass, own);
        roster.pass = cell.split_pass::<OfRoster>(pass);
    }

    /// The history, when its run is over: no session goes on.
    pub fn close<R: Wait>(self, rt: &R, roster: Roster<X>) -> Closed
        requires over { roster.count ≡ 0 }
        ensures entries { result.entries ≡ self.entries }
        ensures sessions { result.sessions ≡ roster.known }
        ensures told { IsClosed result }
    {
        let HistoryKept {
            cell,
            mut pass,
            of: _,
        } = self;
        let Roster { pass: other, of: _ } = roster;
        cell.join_pass::<OfRoster>(&mut pass, other);
        cell.load_as::<Finds, R>(rt, &mut pass);
        Closed { pass }
    }
}

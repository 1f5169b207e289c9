//! What a holder of the history knows, and the rule over what all of them know.

use atomic_table::{Join, Split};
use crossbeam_utils::atomic::seq_cell::{Pass, RuledSeqCell};
use crossbeam_utils::rule::{Outcome, Protocol};
use pool_core::Event;
use std::collections::LinkedList;
use std::marker::{Brand, PhantomData};
use worker_state::WorkerName;

/// What stands in a history: an event, or the end of a chapter. No value of it is made.
pub enum Entry {
    Happened(Event),
    ChapterEnd,
}

/// What a session that has ended did. No value of it is made.
pub struct Past {
    pub who: WorkerName,
    pub did: LinkedList<Event>,
}

/// What a pass knows: the whole history, and the names that were given; how many sessions go on, what those did that have ended, or what
/// one session did. No value of it is made.
pub struct View {
    pub keeps: bool,
    pub log: LinkedList<Entry>,
    pub born: LinkedList<WorkerName>,
    pub rules: bool,
    pub count: u64,
    pub known: LinkedList<Past>,
    pub tells: bool,
    pub who: WorkerName,
    pub did: LinkedList<Event>,
}

/// All speak of one history.
pub struct Agreed;

impl Protocol<[u64; 1], View> for Agreed {
    ghost use Rattle.agreed_history.specs.Agreed.{Agree, alone};

    ghost holds = { Agree };

    ghost first = { alone };
}

/// A look at what is kept, told and known.
pub struct Finds;

impl Outcome<[u64; 1], View> for Finds {
    ghost use Rattle.agreed_history.specs.Agreed as spec;

    ghost then = { spec.Finds };
}

/// An event, and the name of a worker. The call that needs it picks it.
pub trait Picked {
    ghost use Rattle.worker_state.specs.declared.slot.WorkerName.{WorkerName};
    ghost use Rattle.pool_core.specs.declared.event.Event.{Event};

    ghost event: { Event };

    ghost who: { WorkerName };
}

impl Picked for Brand {
    ghost use Rattle.agreed_history.specs.Agreed.{no_event, no_worker};

    ghost event = { no_event };

    ghost who = { no_worker };
}

/// A pass beside one that knows nothing.
pub struct Spare;

impl Split<View> for Spare {
    ghost use Rattle.agreed_history.specs.Agreed.{nobody};

    ghost left = { λ view. view };

    ghost right = { λ _. nobody };
}

/// One that keeps the history, and one that has the roster.
pub struct OfRoster;

impl Split<View> for OfRoster {
    ghost use Rattle.agreed_history.specs.Agreed.{keeper_of, ruler_of};

    ghost left = { keeper_of };

    ghost right = { ruler_of };
}

impl Join<View> for OfRoster {
    ghost use Rattle.agreed_history.specs.Agreed.{with_ruler, nobody};

    ghost both = { with_ruler };

    ghost spent = { nobody };
}

/// One that keeps the history, and one that tells of a session.
pub struct OfSession;

impl Join<View> for OfSession {
    ghost use Rattle.agreed_history.specs.Agreed.{with_teller, nobody};

    ghost both = { with_teller };

    ghost spent = { nobody };
}

/// An event of no session is added, by who keeps.
pub struct AddsOther<Y> {
    of: PhantomData<Y>,
}

impl<Y: Picked> Split<View> for AddsOther<Y> {
    ghost use Rattle.agreed_history.specs.Agreed.{with_entry, keeper_of, nobody};
    ghost use Rattle.agreed_history.specs.declared.known.Entry.TheVariants.{Happened};

    ghost left = { λ v. keeper_of (with_entry (Happened Y.event) v) };

    ghost right = { λ _. nobody };
}

/// An event of a session is added, by who keeps and tells of it.
pub struct AddsOwn<Y> {
    of: PhantomData<Y>,
}

impl<Y: Picked> Split<View> for AddsOwn<Y> {
    ghost use Rattle.agreed_history.specs.Agreed.{with_entry, keeper_of, teller_of};
    ghost use Rattle.agreed_history.specs.declared.known.Entry.TheVariants.{Happened};

    ghost left = { λ v. keeper_of (with_entry (Happened Y.event) v) };

    ghost right = { λ v. teller_of (with_entry (Happened Y.event) v) };
}

/// The end of a chapter is added, by who keeps.
pub struct Cuts;

impl Split<View> for Cuts {
    ghost use Rattle.agreed_history.specs.Agreed.{with_entry, keeper_of, nobody};
    ghost use Rattle.agreed_history.specs.declared.known.Entry.TheVariants.{ChapterEnd};

    ghost left = { λ v. keeper_of (with_entry ChapterEnd v) };

    ghost right = { λ _. nobody };
}

/// A session joins, under this name.
pub struct Begins<Y> {
    of: PhantomData<Y>,
}

impl<Y: Picked> Split<View> for Begins<Y> {
    ghost use Rattle.agreed_history.specs.Agreed.{with_session, teller};
    ghost use Rattle.std.specs.Prelude.{[]};

    ghost left = { with_session Y.who };

    ghost right = { λ _. teller Y.who [] };
}

/// A session has ended.
pub struct Ends;

impl Join<View> for Ends {
    ghost use Rattle.agreed_history.specs.Agreed.{with_past, nobody};

    ghost both = { with_past };

    ghost spent = { nobody };
}

/// A cell of the rule. Its word is 0: all that it is for is the rule.
pub type Cell = RuledSeqCell<[u64; 1], View, Agreed, 1>;

/// A pass of it.
pub type Known = Pass<[u64; 1], View>;

//! Laws over every history: contracts of functions that do nothing.
ghost use Rattle.pool_core.specs.Laws.{HistoriesExtend, HistoriesAreSound, HistoriesCount, ChaptersCount, JobsAreBookedOnce};
ghost use Rattle.pool_core.specs.Laws.{JobsAreLostWithTheirWorkers, JobsAreAccountedFor, WorkersAreNew, RoundsAreShown, RoundsOrder};
ghost use Rattle.pool_core.specs.Laws.{HistoriesJoin, HistoriesCut, BasesAreSound, EventsCount, CallsReplay, JobsAreHandedOutOnce};

use crate::pool::Pool;

/// Jobs are never dropped, a report or a loss is never taken back, and generations never fall.
pub fn histories_extend()
    ensures { HistoriesExtend }
{}

/// Grabbed is running, reported and lost; what is grabbed and what is reported are the events of that kind.
pub fn histories_count()
    ensures { HistoriesCount }
{}

/// The same of a chapter, from any base that a pool can have: the base's numbers, and those of the chapter's events.
pub fn chapters_count()
    ensures { ChaptersCount }
{}

/// Every state of a history is sound: so a job that goes on is held by one live worker.
pub fn histories_are_sound()
    ensures { HistoriesAreSound }
{}

/// The jobs are those of the grab events, and each is reported by at most one event.
pub fn jobs_are_booked_once()
    ensures { JobsAreBookedOnce }
{}

/// A lost job names the worker that grabbed it.
pub fn jobs_are_lost_with_their_workers()
    ensures { JobsAreLostWithTheirWorkers }
{}

/// Each grabbed job is running with the worker that grabbed it, reported once, or lost with the worker that it names.
pub fn jobs_are_accounted_for()
    ensures { JobsAreAccountedFor }
{}

/// A slot gives each generation to one worker alone.
pub fn workers_are_new()
    ensures { WorkersAreNew }
{}

/// Every round holds an answer that is shown for its input, and so is best of all plans.
pub fn rounds_are_shown()
    ensures { RoundsAreShown }
{}

/// A round with a plan orders each live worker to its function by the plan, and no other.
pub fn rounds_order()
    ensures { RoundsOrder }
{}

/// The parts of a history replay one after the other.
pub fn histories_join()
    ensures { HistoriesJoin }
{}

/// A history that is cut anywhere is two: so whoever drops the chapters that have ended has a history from the base of this one.
pub fn histories_cut()
    ensures { HistoriesCut }
{}

/// The base of each chapter is sound, so what holds from any sound base, as `chapters_count`, holds of it.
pub fn bases_are_sound()
    ensures { BasesAreSound }
{}

/// Each event that may come next counts in the totals as one grab, as one report, or as neither.
#[tactic(auto)]
pub fn events_count(pool: &Pool)
    ensures { EventsCount pool.now }
{
    let _events = pool.history();
}

/// After any list of calls the state is the replay of the events, those that were handed out among them.
pub fn calls_replay()
    ensures { CallsReplay }
{}

/// Each job that is forgotten was handed out once, by its ticket, and what was handed out stays as it was.
pub fn jobs_are_handed_out_once()
    ensures { JobsAreHandedOutOnce }
{}

//! One round of planning: what the server says, the plan, and its orders.
ghost use Rattle.std.specs.Prelude.{◌≡◌, true, false, IfSome, IfNone, IfOk, IfErr, OnOk};
ghost use Rattle.pool_supervisor.specs.Asking.{Given, IsNotTaken, Tells, is_planned};
ghost use Rattle.pool_supervisor.specs.FarmPosts.{IsRelaxedFor, PostsBy};
ghost use Rattle.pool_supervisor.specs.Rounds.{Notes, is_round};
ghost use Rattle.pool_supervisor.specs.Steps.{AnswersPool, AnswersView, IsMadeOf, IsViewOf};

use crate::asking::ask_for_load;
use crate::attempt::{Attempt, PoolRefusal};
use crate::attempts::{Supervisor, Until};
use crate::dial::Dial;
use crate::jobs::JobSource;
use crate::news::Progress;
use crate::place::RunId;
use crate::planner::Planner;
use crate::queue::longest_queue;
use crate::session::Site;
use crate::steps::Found;
use byte_io::{Sink, Source};
use gear_status::Load;
use plan_model::{Answer, Certified, Input, Plan};
use pool_core::{AdoptError, ViewError};
use relaxed_plan::{Relaxed, relaxed_plan};
use std::alloc::Global;
use std::sync::Wait;

/// How often a round is planned if the pool changes while the planner is at work.
const TRIES: u32 = 3;

/// What a round would plan for, and the plan before it.
fn view_pool<N: RunId, J, C, R: Wait>(
    site: &Site<'_, N, J, C, R>,
) -> Result<(Input, Option<Plan>), ViewError>
    ensures input { IfOk result (λ viewed. IsMadeOf N.settings viewed.0) }
    ensures view { IfOk result (IsViewOf N.settings) }
{
    let held = site.shared.hold(site.lent.rt);
    held.facts();
    held.view()
}

/// The answer of the planner to what was viewed, as one that is shown, with the plan before it. The lock is free meanwhile. None if memory
/// was refused.
fn planned_for<P: Planner>(
    planner: &P,
    viewed: (Input, Option<Plan>),
) -> Option<(Certified, Option<Plan>)>
    ensures { IfSome result (λ planned. AnswersView viewed planned.0) }
{
    let (input, previous) = viewed;
    match planner.solve(&input, previous.as_ref()) {
        Ok(answer) => Some((Certified::of(input, answer), previous)),
        Err(_) => None,
    }
}

/// The plan of an answer that has one.
fn plan_of(certified: &Certified) -> Option<&Plan> {
    match certified.answer() {
        Answer::Planned { plan, .. } => Some(plan),
        Answer::NoPlan { .. } => None,
    }
}

/// A relaxed plan, if the answer is that there is no plan. None too if memory was refused, or if the search for one gave up.
fn relaxed_for(alloc: Global, certified: &Certified, previous: Option<&Plan>) -> Option<Relaxed>
    ensures { IfSome result (IsRelaxedFor certified.now.input) }
{
    let Answer::NoPlan { short } = certified.answer() else {
        return None;
    };
    match relaxed_plan(alloc, certified.input(), short, previous) {
        Ok(found) => found,
        Err(_) => None,
    }
}

/// Gives the pool the load. The error is the line of an attempt whose load was not taken.
fn give_load<N: RunId, J, C, R: Wait>(
    site: &Site<'_, N, J, C, R>,
    load: Load,
) -> Result<(), Attempt>
    ensures err { IfErr result IsNotTaken }
{
    let mut held = site.shared.hold(site.lent.rt);
    held.facts();
    match held.load(load) {
        Ok(()) => Ok(()),
        Err(error) => Err(Attempt::Refused(PoolRefusal::Load(error))),
    }
}

impl<
    'e,
    N: RunId,
    L: Source + Sink + Drop,
    Y: Dial<L>,
    P: Planner,
    J: JobSource,
    C: Progress,
    R: Wait,
> Supervisor<'e, N, L, Y, P, J, C, R> {
    /// Asks the server for its load, and gives it to the pool. The error is the line of an attempt that has no load to plan for.
    pub fn take_load(&mut self) -> Result<(), Attempt>
        ensures ok { OnOk result (Given (Y.calls self.old.dial) (Y.calls self.new.dial)) }
        ensures err { IfErr result (λ line. Tells line (Y.calls self.old.dial) (Y.calls self.new.dial)) }
        ensures no_round { IfErr result (λ line. is_round line ≡ false) }
        ensures posts { self.new.seats.publisher ≡ self.old.seats.publisher }
        ensures rounds { self.new.rounds ≡ self.old.rounds }
        ensures crew { self.new.crew ≡ self.old.crew }
    {
        let load = ask_for_load(self.site.lent.alloc, &mut self.dial)?;
        give_load(&self.site, load)
    }

    /// A relaxed plan, if the answer is that there is no plan, in a run that goes on until its watch ends it. It keeps the relaxed plan of
    /// the round before, or else this previous plan, if that is best.
    fn relax(&self, certified: &Certified, previous: Option<&Plan>) -> Option<Relaxed>
        ensures { IfSome result (IsRelaxedFor certified.now.input) }
    {
        let Until::Ended = self.site.run.until else {
            return None;
        };
        let last = match &self.relaxed {
            Some(relaxed) => plan_of(&relaxed.certified),
            None => previous,
        };
        relaxed_for(self.site.lent.alloc, certified, last)
    }

    /// Views the pool, plans while the lock is free, and adopts the plan, whose orders are posted in the same hold of the lock. None if the
    /// pool has changed meanwhile.
    fn try_round(&mut self) -> Option<Attempt>
        ensures posts { IfSome result
            (λ line. PostsBy N.until N.settings line self.old.seats.publisher.posts self.new.seats.publisher.posts) }
        ensures notes { IfSome result (λ line. Notes line self.old.rounds self.new.rounds) }
        ensures stale { IfNone result ((self.new.seats.publisher ≡ self.old.seats.publisher) × (self.new.rounds ≡ self.old.rounds)) }
        ensures planned { IfSome result (λ line. is_planned line ≡ true) }
        ensures answers { IfSome result (λ line. is_round line ≡ true → AnswersPool N.settings line) }
        ensures dial { self.new.dial ≡ self.old.dial }
        ensures crew { self.new.crew ≡ self.old.crew }
    {
        let site = self.site;
        let viewed = match view_pool(&site) {
            Ok(viewed) => viewed,
            Err(error) => return Some(Attempt::Refused(PoolRefusal::View(error))),
        };
        let Some((certified, previous)) = planned_for(self.planner, viewed) else {
            return Some(Attempt::Memory);
        };
        site.lent.watch.planned(site.run.settings, &certified);
        let longest = longest_queue(&certified);
        let relaxed = self.relax(&certified, previous.as_ref());
        if let Some(relaxed) = &relaxed {
            site.lent.watch.relaxed(site.run.settings, relaxed);
        }
        let found = Found {
            certified,
            relaxed: relaxed.as_ref(),
        };
        let rt = site.lent.rt;
        let mut held = site.shared.hold(rt);
        held.facts();
        let publisher = &mut self.seats.publisher;
        match site
            .run
            .adopt_and_publish(rt, &mut held, publisher, &mut self.rounds, found)
        {
            Ok(ran) => {
                self.longest = longest;
                self.relaxed = relaxed;
                Some(Attempt::of_round(&ran))
            }
            Err(AdoptError::Stale) => None,
            Err(error) => Some(Attempt::Refused(PoolRefusal::Adopt(error))),
        }
    }

    /// A round for the load that the pool has. If the pool changes while it is planned, it is tried again, three times in all.
    pub fn plan_round(&mut self) -> Attempt
        ensures posts { PostsBy N.until N.settings result self.old.seats.publisher.posts self.new.seats.publisher.posts }
        ensures notes { Notes result self.old.rounds self.new.rounds }
        ensures planned { is_planned result ≡ true }
        ensures answers { is_round result ≡ true → AnswersPool N.settings result }
        ensures dial { self.new.dial ≡ self.old.dial }
        ensures crew { self.new.crew ≡ self.old.crew }
    {
        for _turn in 0..TRIES {
            if let Some(attempt) = self.try_round() {
                return attempt;
            }
        }
        Attempt::Refused(PoolRefusal::Adopt(AdoptError::Stale))
    }
}

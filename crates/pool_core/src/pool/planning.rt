//! Loads and rounds.
ghost use Rattle.std.specs.Prelude.{◌≡◌, ◌<◌, IsTrue, ◌↔◌, IfSome, IfOk, OnOk, OnErr};
ghost use Rattle.worker_state.specs.Limits.{max_rounds};
ghost use Rattle.plan_model.specs.Planning.{IsInstance};
ghost use Rattle.plan_model.specs.Shown.{Shown};
ghost use Rattle.plan_model.specs.declared.answer.Answer.TheVariants.{Planned, NoPlan};
ghost use Rattle.level_search.specs.Steady.{IsSteady};
ghost use Rattle.pool_core.specs.Machine.{input_of, IsPossible};
ghost use Rattle.pool_core.specs.Book.{IsStep, has_room, has_round, ran_of};
ghost use Rattle.pool_core.specs.Calls.{Loads, Views, Rounds, Adopts};
ghost use Rattle.pool_core.specs.declared.event.Event.TheVariants as event;

use super::Pool;
use crate::answer::Ran;
use crate::error::{AdoptError, LoadError, RoundError, ViewError};
use crate::event::Event;
use crate::rounds;
use bumpalo::Bump;
use gear_status::Load;
use level_search::solve;
use plan_model::{Answer, Certified, FuncSet, Input, Plan};
use std::alloc::AllocError;
use worker_state::MAX_ROUNDS;

impl Pool {
    /// Takes what the server says of its queues, in the place of what it said before. Refused, in this order, as `HistoryFull` or
    /// `Memory`.
    pub fn load(&mut self, load: Load) -> Result<(), LoadError>
        ensures { Loads load self.old self.new result }
    {
        if !self.has_room(1) {
            return Err(LoadError::HistoryFull);
        }
        let noted = load.copy()?;
        self.events.reserve(self.owed as usize + 1)?;
        self.events.push_reserved(Event::Load { load: noted });
        self.load = Some(load);
        Ok(())
    }

    fn has_round(&self) -> bool
        ensures { result ≡ has_round self.now }
    {
        self.has_room(1) && self.rounds < MAX_ROUNDS
    }

    /// What a round has to plan for now.
    fn input(&self, load: &Load) -> Result<Input, AllocError>
        ensures input { IfOk result (λ input. input ≡ input_of self.now.settings self.now.state load.now) }
        ensures valid { OnOk result (IsInstance (input_of self.now.settings self.now.state load.now)) }
    {
        let live = rounds::live_marks(self.alloc, &self.slots)?;
        let waiting = self.settings.waiting_jobs(self.alloc, load)?;
        let input = self.settings.input(self.alloc, &live, &waiting)?;
        input.facts();
        Ok(input)
    }

    /// What a round would plan for now, and the plan before it, for a search elsewhere. Nothing changes. Refused, in this order, as
    /// `NoLoad` or `Memory`.
    pub fn view(&self) -> Result<(Input, Option<Plan>), ViewError>
        ensures { Views self.now result }
    {
        let Some(load) = &self.load else {
            return Err(ViewError::NoLoad);
        };
        let input = self.input(load)?;
        let previous = match &self.previous {
            Some(plan) => Some(plan.copy(self.alloc)?),
            None => None,
        };
        Ok((input, previous))
    }

    /// The best answer for the input of now. All tables of the search lie in one arena, which is given up here.
    fn solution(&self, load: &Load) -> Result<Answer, AllocError>
        ensures valid { OnOk result (IsInstance (input_of self.now.settings self.now.state load.now)) }
        ensures shown { IfOk result (λ answer. Shown (input_of self.now.settings self.now.state load.now) answer) }
        ensures steady { IfOk result (λ answer. IfSome self.now.state.previous (λ plan.
            IsSteady (input_of self.now.settings self.now.state load.now) plan answer)) }
    {
        let input = self.input(load)?;
        let bump = Bump::new(self.alloc);
        let solved = solve(self.alloc, &bump, &input, self.previous.as_ref())?;
        Ok(solved.answer)
    }

    /// One round: the live workers get a plan of the least backlog, or there is no plan, for the load of now. It is always
    /// decided.
    ///
    /// It is `view`, `solve` and `adopt` in one event. An order whose function stays keeps its round number. If there is no
    /// plan, the orders and the previous plan stay as they are. If the previous plan, cut to live workers and permitted
    /// functions, is best and leaves nobody idle who may do a function below its greatest number, it is the round's plan.
    ///
    /// Refused, in this order, as `NoLoad`, `HistoryFull` or `Memory`.
    pub fn round(&mut self) -> Result<Ran, RoundError>
        ensures { Rounds self.old self.new result }
    {
        let Some(load) = &self.load else {
            return Err(RoundError::NoLoad);
        };
        if !self.has_round() {
            return Err(RoundError::HistoryFull);
        }
        let answer = self.solution(load)?;
        Ok(self.record(answer)?)
    }

    fn is_input(&self, load: &Load, input: &Input) -> bool
        ensures same { IsTrue result ↔ (input.now ≡ input_of self.now.settings self.now.state load.now) }
        ensures valid { IsInstance input.now }
    {
        input.facts();
        rounds::is_input(&self.settings, &self.slots, load, input)
    }

    /// Takes over an answer that was found elsewhere, if its input is, by value, the one that `view` would give now.
    ///
    /// Refused, in this order, as `NoLoad`, `Stale`, `HistoryFull` or `Memory`.
    pub fn adopt(&mut self, certified: Certified) -> Result<Ran, AdoptError>
        ensures { Adopts certified self.old self.new result }
    {
        let Some(load) = &self.load else {
            return Err(AdoptError::NoLoad);
        };
        let (input, answer) = certified.parts();
        if !self.is_input(load, &input) {
            return Err(AdoptError::Stale);
        }
        if !self.has_round() {
            return Err(AdoptError::HistoryFull);
        }
        Ok(self.record(answer)?)
    }

    fn record(&mut self, answer: Answer) -> Result<Ran, AllocError>
        requires possible { IsPossible self.old.settings (event.Round answer) self.old.state }
        requires room { IsTrue (has_room self.old 1) }
        requires number { self.old.state.rounds < max_rounds }
        ensures step { OnOk result (IsStep (event.Round answer) self.old self.new) }
        ensures ran { IfOk result (λ ran. ran ≡ ran_of answer self.old.state) }
        ensures err { OnErr result (self.new ≡ self.old) }
    {
        match answer {
            Answer::Planned {
                plan,
                backlog,
                short,
            } => self.record_plan(plan, backlog, short),
            Answer::NoPlan { short } => self.record_no_plan(short),
        }
    }

    /// Takes over a plan that is shown for the input of now.
    fn record_plan(
        &mut self,
        plan: Plan,
        backlog: u64,
        short: Option<FuncSet>,
    ) -> Result<Ran, AllocError>
        requires possible { IsPossible self.old.settings (event.Round (Planned plan backlog short)) self.old.state }
        requires room { IsTrue (has_room self.old 1) }
        requires number { self.old.state.rounds < max_rounds }
        ensures step { OnOk result (IsStep (event.Round (Planned plan backlog short)) self.old self.new) }
        ensures ran { IfOk result (λ ran. ran ≡ ran_of (Planned plan backlog short) self.old.state) }
        ensures err { OnErr result (self.new ≡ self.old) }
    {
        let number = self.rounds + 1;
        let orders = rounds::orders_after(
            self.alloc,
            &plan,
            number,
            self.slots.as_slice(),
            self.orders.as_slice(),
        )?;
        let noted = plan.copy(self.alloc)?;
        self.events.reserve(self.owed as usize + 1)?;
        let moved = rounds::moved(
            self.slots.as_slice(),
            self.orders.as_slice(),
            orders.as_slice(),
        );
        self.orders = orders;
        self.previous = Some(noted);
        self.rounds = number;
        self.events.push_reserved(Event::Round {
            answer: Answer::Planned {
                plan,
                backlog,
                short,
            },
        });
        Ok(Ran {
            number,
            backlog: Some(backlog),
            moved,
        })
    }

    fn record_no_plan(&mut self, short: FuncSet) -> Result<Ran, AllocError>
        requires possible { IsPossible self.old.settings (event.Round (NoPlan short)) self.old.state }
        requires room { IsTrue (has_room self.old 1) }
        requires number { self.old.state.rounds < max_rounds }
        ensures step { OnOk result (IsStep (event.Round (NoPlan short)) self.old self.new) }
        ensures ran { IfOk result (λ ran. ran ≡ ran_of (NoPlan short) self.old.state) }
        ensures err { OnErr result (self.new ≡ self.old) }
    {
        self.events.reserve(self.owed as usize + 1)?;
        let number = self.rounds + 1;
        self.rounds = number;
        self.events.push_reserved(Event::Round {
            answer: Answer::NoPlan { short },
        });
        Ok(Ran {
            number,
            backlog: None,
            moved: 0,
        })
    }
}

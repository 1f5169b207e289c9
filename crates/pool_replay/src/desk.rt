//! The desk at which a pool is driven: the pool, the passes under their workers' names, and the view that was kept.

ghost use Rattle.std.specs.Prelude.{◌≡◌, ◌<◌, IfOk, OnOk, string_bytes, length};
ghost use Rattle.pool_commands.specs.Grammar.{IsCommandWithin};
ghost use Rattle.pool_core.specs.Book.{totals_of, kept_standing};
ghost use Rattle.pool_core.specs.Totals.{totals_line};
ghost use Rattle.pool_replay.specs.Lines as spec;
ghost use Rattle.pool_replay.specs.Step.{TellsJoin, TellsLoad, TellsRound, TellsView, TellsAdoption, TellsGrab, TellsBegin, TellsReport};
ghost use Rattle.pool_replay.specs.Step.{TellsLoss, TellsExpiry, TellsOrder, TellsChapter, WithPass, StepOf, Sees, with_joined};
ghost use Rattle.pool_replay.specs.Step.{with_viewed};
ghost use Rattle.pool_replay.specs.Transcript.{first_desk};

use crate::lines::{self, NO_PASS, NO_VIEW};
use crate::passes::Passes;
use bumpalo::Bump;
use gear_packets::Handle;
use gear_status::Load;
use level_search::solve;
use plan_model::{Certified, SlotId};
use pool_commands::Command;
use pool_core::{JoinError, Pass, Pool, ViewError, totals_line};
use pool_settings::Settings;
use std::alloc::{AllocError, Global};
use worker_state::{Cause, EndKind, Ticket, WorkerName};

/// What is kept between two commands.
///
/// Each command is a method that makes one call of the pool and gives the line that it prints. If there is no memory for the
/// line the pool may have changed.
#[derive(Drop)]
pub struct Desk {
    /// The pool.
    pub pool: Pool,
    /// The passes of the workers that joined, until a loss takes them.
    pub passes: Passes,
    /// The last view, with the answer that was found for it, until an adoption spends it.
    pub viewed: Option<Certified>,
}

impl Desk {
    /// A pool of these settings in which nothing has happened, without passes or a view.
    pub fn new(alloc: Global, settings: &Settings) -> Result<Desk, AllocError>
        ensures { IfOk result (λ desk. desk ≡ first_desk settings.now) }
    {
        Ok(Desk {
            pool: Pool::new(alloc, settings.copy(alloc)?)?,
            passes: Passes::new(alloc),
            viewed: None,
        })
    }

    /// One command, and what it prints.
    pub fn execute(
        &mut self,
        alloc: Global,
        settings: &Settings,
        command: Command,
    ) -> Result<String, AllocError>
        requires { IsCommandWithin (length self.old.pool.state.slots) command }
        ensures { IfOk result (λ line. StepOf settings.now command self.old (string_bytes line) self.new) }
    {
        match command {
            Command::Join(slot) => self.join(alloc, settings, slot),
            Command::Load(load) => self.load(alloc, load),
            Command::Round => self.round(alloc),
            Command::View => self.view(alloc),
            Command::Adopt => self.adopt(alloc),
            Command::Grab {
                worker,
                handle,
                function,
                now_ms,
            } => self.grab(alloc, &worker, handle, function.bytes(), now_ms),
            Command::Begin { worker, ticket } => self.begin(alloc, &worker, ticket),
            Command::Report {
                worker,
                ticket,
                end,
            } => self.report(alloc, &worker, ticket, end),
            Command::Lose { worker, cause } => self.lose(alloc, &worker, cause),
            Command::Expire { worker, now_ms } => self.expire(alloc, &worker, now_ms),
            Command::Job(ticket) => self.job(alloc, settings, ticket),
            Command::Order(slot) => self.order(alloc, settings, slot),
            Command::Totals => self.totals(alloc),
            Command::Chapter => self.chapter(alloc),
        }
    }

    /// A new worker, whose pass is kept.
    fn join(
        &mut self,
        alloc: Global,
        settings: &Settings,
        slot: SlotId,
    ) -> Result<String, AllocError>
        requires { slot < length self.old.pool.state.slots }
        ensures { IfOk result (λ line. TellsJoin settings.now slot self.old (string_bytes line) self.new) }
    {
        let answer = self.pool.join(slot);
        let line = lines::join_line(alloc, settings, &answer)?;
        keep_pass(&mut self.passes, answer)?;
        Ok(line)
    }

    fn load(&mut self, alloc: Global, load: Load) -> Result<String, AllocError>
        ensures { IfOk result (λ line. TellsLoad load self.old (string_bytes line) self.new) }
    {
        let answer = self.pool.load(load);
        lines::ok_line(alloc, answer)
    }

    fn round(&mut self, alloc: Global) -> Result<String, AllocError>
        ensures { IfOk result (λ line. TellsRound self.old (string_bytes line) self.new) }
    {
        let answer = self.pool.round();
        lines::ran_or(alloc, answer)
    }

    /// Looks at the pool and plans for what it sees. The plan is kept in the place of an older one; a refused view leaves that
    /// in place.
    fn view(&mut self, alloc: Global) -> Result<String, AllocError>
        ensures { IfOk result (λ line. TellsView self.old (string_bytes line) self.new) }
    {
        let answer = look(alloc, &self.pool);
        let line = lines::view_line(alloc, &answer)?;
        keep_view(&mut self.viewed, answer);
        Ok(line)
    }

    /// Offers the plan that was kept, and spends it, also if it is refused.
    fn adopt(&mut self, alloc: Global) -> Result<String, AllocError>
        ensures { IfOk result (λ line. TellsAdoption self.old.viewed self.old (string_bytes line) self.new) }
    {
        let Some(viewed) = std::mem::replace(&mut self.viewed, None) else {
            return String::from_str(alloc, NO_VIEW);
        };
        let answer = self.pool.adopt(viewed);
        lines::ran_or(alloc, answer)
    }

    fn grab(
        &mut self,
        alloc: Global,
        worker: &WorkerName,
        handle: Handle,
        function: &[u8],
        now_ms: u64,
    ) -> Result<String, AllocError>
        ensures { IfOk result (λ line.
            WithPass worker.now (TellsGrab worker.now handle function.now now_ms) self.old (string_bytes line) self.new) }
    {
        let Some(pass) = self.passes.get(worker) else {
            return String::from_str(alloc, NO_PASS);
        };
        let answer = self.pool.grab(pass, handle, function, now_ms);
        lines::grab_line(alloc, answer)
    }

    fn begin(
        &mut self,
        alloc: Global,
        worker: &WorkerName,
        ticket: Ticket,
    ) -> Result<String, AllocError>
        ensures { IfOk result (λ line. WithPass worker.now (TellsBegin worker.now ticket) self.old (string_bytes line) self.new) }
    {
        let Some(pass) = self.passes.get(worker) else {
            return String::from_str(alloc, NO_PASS);
        };
        let answer = self.pool.begin_report(pass, ticket);
        lines::ok_line(alloc, answer)
    }

    fn report(
        &mut self,
        alloc: Global,
        worker: &WorkerName,
        ticket: Ticket,
        end: EndKind,
    ) -> Result<String, AllocError>
        ensures { IfOk result (λ line. WithPass worker.now (TellsReport worker.now ticket end) self.old (string_bytes line) self.new) }
    {
        let Some(pass) = self.passes.get(worker) else {
            return String::from_str(alloc, NO_PASS);
        };
        let answer = self.pool.reported(pass, ticket, end);
        lines::report_line(alloc, answer)
    }

    /// Loses a worker. Its pass is handed over, and gone also if the loss is refused.
    fn lose(
        &mut self,
        alloc: Global,
        worker: &WorkerName,
        cause: Cause,
    ) -> Result<String, AllocError>
        ensures { IfOk result (λ line. WithPass worker.now (TellsLoss worker.now cause) self.old (string_bytes line) self.new) }
    {
        let Some(pass) = self.passes.take(worker) else {
            return String::from_str(alloc, NO_PASS);
        };
        let answer = self.pool.lose(pass, cause);
        lines::ok_line(alloc, answer)
    }

    /// Loses a worker whose job is late. This needs no pass.
    fn expire(
        &mut self,
        alloc: Global,
        worker: &WorkerName,
        now_ms: u64,
    ) -> Result<String, AllocError>
        requires { worker.now.slot < length self.old.pool.state.slots }
        ensures { IfOk result (λ line. TellsExpiry worker.now now_ms self.old (string_bytes line) self.new) }
    {
        let answer = self.pool.expire(worker.slot, worker.generation, now_ms);
        lines::ok_line(alloc, answer)
    }

    fn job(&self, alloc: Global, settings: &Settings, ticket: Ticket) -> Result<String, AllocError>
        ensures { IfOk result (λ line.
            string_bytes line ≡ spec.job_line settings.now (kept_standing self.now.pool ticket)) }
    {
        lines::job_line(alloc, settings, &self.pool.standing(ticket))
    }

    fn order(&self, alloc: Global, settings: &Settings, slot: SlotId) -> Result<String, AllocError>
        requires { slot < length self.now.pool.state.slots }
        ensures { IfOk result (λ line. TellsOrder settings.now slot self.now (string_bytes line) self.now) }
    {
        let order = self.pool.order(slot);
        lines::order_line(alloc, settings, &order)
    }

    fn totals(&self, alloc: Global) -> Result<String, AllocError>
        ensures { IfOk result (λ line. string_bytes line ≡ totals_line (totals_of self.now.pool)) }
    {
        totals_line(alloc, self.pool.totals())
    }

    /// Ends the chapter of the history. The events that are handed out are given up: nobody here reads them.
    fn chapter(&mut self, alloc: Global) -> Result<String, AllocError>
        ensures { IfOk result (λ line. TellsChapter self.old (string_bytes line) self.new) }
    {
        let answer = self.pool.end_chapter();
        lines::chapter_line(alloc, &answer)
    }
}

/// Keeps the pass that a join gave.
fn keep_pass(passes: &mut Passes, answer: Result<Pass, JoinError>) -> Result<(), AllocError>
    ensures { OnOk result (passes.new ≡ with_joined passes.old answer) }
{
    if let Ok(pass) = answer {
        passes.keep(pass)?;
    }
    Ok(())
}

/// A view of the pool, with the best answer for it. All tables of the search lie in one arena, which is given up here.
fn look(alloc: Global, pool: &Pool) -> Result<Certified, ViewError>
    ensures { Sees pool.now result }
{
    let (input, previous) = pool.view()?;
    let bump = Bump::new(alloc);
    let solved = solve(alloc, &bump, &input, previous.as_ref())?;
    Ok(Certified::of(input, solved.answer))
}

/// Keeps a view in the place of an older one. What was refused leaves that in place.
fn keep_view(viewed: &mut Option<Certified>, answer: Result<Certified, ViewError>)
    ensures { viewed.new ≡ with_viewed viewed.old answer }
{
    if let Ok(certified) = answer {
        *viewed = Some(certified);
    }
}

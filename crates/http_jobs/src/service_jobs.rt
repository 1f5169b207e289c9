//! The jobs of a service, over one connection that is kept.

ghost use Rattle.std.specs.Prelude.{◌≡◌, ◌++◌, ◌+◌, ◌∷◌, [], ℕ, List, Option, Bool, IfOk, IfErr, IfSome, Ok, Some, None};
ghost use Rattle.std.specs.Prelude.{is_some, true, false, not};
ghost use Rattle.gear_packets.specs.Reading.{job_of};
ghost use Rattle.http_jobs.specs.Response.{reply_of};
ghost use Rattle.std.specs.Option.{option_map};
ghost use Rattle.job_runner.specs.Run.{seen_link};
ghost use Rattle.byte_io.specs.Deadline as spec;
ghost use Rattle.http_jobs.specs.Serving as serving;
ghost use Rattle.http_jobs.specs.Serving.{AnsweredNew, AnsweredOver, DialCall, DropsKept, DropsLost, IsNew, IsOpened, Leaves, MakesReady};
ghost use Rattle.http_jobs.specs.Serving.{NotAnswered, NotServed};
ghost use Rattle.http_jobs.specs.Serving.{Served, TakesKept, Tells, Tries, UnansweredAgain, UnansweredNew, UnansweredOver, Visible, closed};
ghost use Rattle.http_jobs.specs.Serving.{dialled, kept_failures, second_by, then_called, visible};
ghost use Rattle.http_jobs.specs.Clock.{shown_then};

use crate::clock::{Clock, is_late};
use crate::exchanging::{Sending, exchange};
use crate::fault::{Came, NotDone, Unanswered, Unserved};
use crate::look::Look;
use crate::outcome::Reply;
use crate::request::{Attempt, has_no_path};
use crate::service::Service;
use byte_io::{Sink, Source, deadline_from, is_past};
use devices::DialError;
use gear_packets::Assignment;
use job_runner::{Jobs, Outcome, Readiness};
use std::alloc::Global;
use std::snapshot::Snapshot;

/// What opens connections to a service, and gets word of those that were closed.
///
/// One in memory can show contracts its calls, as a list. Of the system's network nothing is known, and it shows None.
pub trait Dial<L: Source + Sink> {
    ghost use Rattle.std.specs.Prelude.{◌≡◌, ℕ, List, Option};
    ghost use Rattle.http_jobs.specs.Serving.{DialCall};

    /// The calls so far, the first one first, or None.
    ghost calls: { Self → Option (List DialCall) };

    /// The host that it says it dials, as `host:port`, or None if it does not say.
    ghost host: { Self → Option (List ℕ) };

    /// A new connection. The error says why none was opened by the deadline, in milliseconds of the clock.
    fn dial(&mut self, deadline: Option<u64>) -> Result<L, DialError>
        ensures calls { Self.calls self.new ≡ then_called (Self.calls self.old) (dialled result ∷ []) }
        ensures host { Self.host self.new ≡ Self.host self.old }
        ensures fresh { IfOk result (λ link. IsNew (seen_link L.input L.output link)) };

    /// A connection was closed. This is what it was then.
    fn hung_up(&mut self, link: Snapshot<L>)
        ensures calls { Self.calls self.new
            ≡ then_called (Self.calls self.old) (closed (seen_link L.input L.output link.value) ∷ []) }
        ensures host { Self.host self.new ≡ Self.host self.old };
}

/// Closes a connection.
fn hang_up<L: Source + Sink + Drop, D: Dial<L>>(dial: &mut D, link: L)
    ensures calls { D.calls dial.new ≡ then_called (D.calls dial.old) (closed (seen_link L.input L.output link) ∷ []) }
    ensures host { D.host dial.new ≡ D.host dial.old }
{
    let left = Snapshot::of(&link);
    drop(link);
    dial.hung_up(left);
}

/// Lets a write take as long as its job, if the time is not known. Else each write is limited by the deadline.
fn limit_untimed<L: Look>(link: &mut L, deadline: Option<u64>, timeout_ms: u64)
    ensures input { L.input link.new ≡ L.input link.old }
    ensures output { L.output link.new ≡ L.output link.old }
{
    if deadline.is_none() {
        link.limit_writes(timeout_ms);
    }
}

/// Opens a connection, and closes it. The error says why none was opened.
pub fn try_dial<L: Source + Sink + Drop, D: Dial<L>>(dial: &mut D) -> Result<(), DialError>
    ensures tries { Tries result (D.calls dial.old) (D.calls dial.new) }
    ensures host { D.host dial.new ≡ D.host dial.old }
{
    let link = dial.dial(None)?;
    hang_up(dial, link);
    Ok(())
}

/// For how many milliseconds a connection is kept over which no job begins. What is on the way may forget one that carries nothing, without
/// a word, and a job over it would wait for its deadline: so this is less than any NAT or balancer keeps one.
const IDLE_MS: u64 = 15_000;

/// The start of a job.
#[derive(Clone, Copy)]
struct Start {
    /// By when its response has to be whole, or none.
    deadline: Option<u64>,
    /// Whether the kept connection has carried nothing for too long.
    is_idle: bool,
}

/// Whether a job is sent once more that was cut off over the kept connection before a byte of a response came.
#[derive(Clone, Copy, Debug, PartialEq, Eq)]
pub enum Resend {
    /// It is, over a new connection, and its request says so.
    Once,
    /// It is not.
    Never,
}

/// What holds for a job.
#[derive(Clone, Copy, Debug, PartialEq, Eq)]
pub struct JobTerms {
    /// How many milliseconds it has, from its start until its response is whole.
    pub timeout_ms: u64,
    /// Whether it is sent once more.
    pub resend: Resend,
}

/// Whether the connection ended, or a read or a write of it failed.
fn is_cut(reason: Unserved) -> bool
    ensures { result ≡ serving.is_cut reason }
{
    matches!(reason, Unserved::Ended | Unserved::Read | Unserved::Write)
}

/// Whether a job that was not answered over the kept connection is sent once more.
fn is_sent_again(resend: Resend, unanswered: Unanswered) -> bool
    ensures { result ≡ serving.is_sent_again resend unanswered }
{
    match (resend, unanswered) {
        (Resend::Once, Unanswered::Unserved(reason, Came::Nothing)) => is_cut(reason),
        _ => false,
    }
}

/// Whether there was no connection.
fn is_unreachable(why: NotDone) -> bool
    ensures { result ≡ serving.is_unreachable why }
{
    matches!(why, NotDone::Unserved(Unserved::Unreachable(_)))
}

/// The jobs of a service, which does each by one request and one response. The connection is kept from one to the next if it can be.
#[derive(Drop)]
pub struct ServiceJobs<L: Source + Sink, D, C> {
    service: Service,
    dial: D,
    clock: C,
    terms: JobTerms,
    kept: Option<L>,
    /// When the kept connection was opened, or its last job began, if that is known.
    used_at: Option<u64>,
    ghost sound: { kept_failures L.input L.output kept ≡ 0 },
}

impl<L: Source + Sink + Look + Drop, D: Dial<L>, C: Clock> ServiceJobs<L, D, C> {
    /// Jobs for which no connection was opened yet, and the terms of the first ones.
    pub fn new(service: Service, dial: D, clock: C, terms: JobTerms) -> ServiceJobs<L, D, C>
        ensures service { result.service ≡ service }
        ensures dial { result.dial ≡ dial }
        ensures clock { result.clock ≡ clock }
        ensures terms { result.terms ≡ terms }
        ensures kept { result.kept ≡ None }
    {
        ServiceJobs {
            service,
            dial,
            clock,
            terms,
            kept: None,
            used_at: None,
        }
    }

    /// Gives the jobs that come these terms.
    pub fn set_terms(&mut self, terms: JobTerms)
        ensures terms { self.new.terms ≡ terms }
        ensures service { self.new.service ≡ self.old.service }
        ensures dial { self.new.dial ≡ self.old.dial }
        ensures clock { self.new.clock ≡ self.old.clock }
        ensures kept { self.new.kept ≡ self.old.kept }
    {
        self.terms = terms;
    }

    /// Opens a connection, if none is kept. The error says why none could be opened.
    pub fn open(&mut self) -> Result<(), DialError>
        ensures opens { IsOpened (visible L.input L.output L.quiet self.old.kept (D.calls self.old.dial) (C.shown self.old.clock))
            (visible L.input L.output L.quiet self.new.kept (D.calls self.new.dial) (C.shown self.new.clock)) result }
        ensures host { D.host self.new.dial ≡ D.host self.old.dial }
        ensures service { self.new.service ≡ self.old.service }
        ensures terms { self.new.terms ≡ self.old.terms }
    {
        if self.kept.is_some() {
            return Ok(());
        }
        self.kept = Some(self.dial.dial(None)?);
        self.used_at = self.clock.now_ms();
        Ok(())
    }

    /// Whether a connection is kept.
    pub fn is_open(&self) -> bool
        ensures { result ≡ is_some self.now.kept }
    {
        self.kept.is_some()
    }

    /// Whether a connection is kept that was closed by the service, or over which came what nobody asked for. It does not wait.
    pub fn is_lost(&self) -> bool
        ensures none { self.now.kept ≡ None → result ≡ false }
        ensures shown { IfSome self.now.kept (λ link. IfSome (L.quiet link) (λ quiet. result ≡ not quiet)) }
    {
        self.kept.as_ref().is_some_and(|link| !link.is_quiet())
    }

    /// Closes the kept connection if the service closed it, or if over it came what nobody asked for.
    fn drop_lost(&mut self)
        ensures drops { DropsLost (visible L.input L.output L.quiet self.old.kept (D.calls self.old.dial) (C.shown self.old.clock))
            (visible L.input L.output L.quiet self.new.kept (D.calls self.new.dial) (C.shown self.new.clock)) }
        ensures host { D.host self.new.dial ≡ D.host self.old.dial }
        ensures service { self.new.service ≡ self.old.service }
        ensures terms { self.new.terms ≡ self.old.terms }
    {
        if !self.is_lost() {
            return;
        }
        if let Some(link) = self.kept.take() {
            hang_up(&mut self.dial, link);
        }
    }

    /// Makes a connection ready for one more job. A kept one that the service closed, or over which came what nobody asked for, is closed.
    /// Then one is opened, if none is kept. The error says why none could be opened.
    pub fn make_ready(&mut self) -> Result<(), DialError>
        ensures ready { MakesReady (visible L.input L.output L.quiet self.old.kept (D.calls self.old.dial) (C.shown self.old.clock))
            (visible L.input L.output L.quiet self.new.kept (D.calls self.new.dial) (C.shown self.new.clock)) result }
        ensures host { D.host self.new.dial ≡ D.host self.old.dial }
        ensures service { self.new.service ≡ self.old.service }
        ensures terms { self.new.terms ≡ self.old.terms }
    {
        self.drop_lost();
        self.open()
    }

    /// The kept connection, if it is quiet and not idle for too long. Else it is closed.
    fn reuse(&mut self, is_idle: bool) -> Option<L>
        ensures kept { self.new.kept ≡ None }
        ensures sound { kept_failures L.input L.output result ≡ 0 }
        ensures clock { self.new.clock ≡ self.old.clock }
        ensures service { self.new.service ≡ self.old.service }
        ensures terms { self.new.terms ≡ self.old.terms }
        ensures taken { IfSome result (λ link. TakesKept
            (visible L.input L.output L.quiet self.old.kept (D.calls self.old.dial) (C.shown self.old.clock))
            (seen_link L.input L.output link)
            (visible L.input L.output L.quiet self.new.kept (D.calls self.new.dial) (C.shown self.new.clock))) }
        ensures dropped { result ≡ None → DropsKept
            (visible L.input L.output L.quiet self.old.kept (D.calls self.old.dial) (C.shown self.old.clock))
            (visible L.input L.output L.quiet self.new.kept (D.calls self.new.dial) (C.shown self.new.clock)) }
        ensures host { D.host self.new.dial ≡ D.host self.old.dial }
    {
        let link = self.kept.take()?;
        if !is_idle && link.is_quiet() {
            return Some(link);
        }
        hang_up(&mut self.dial, link);
        None
    }

    /// Keeps a connection after its job, or closes it.
    fn leave(&mut self, link: L, is_kept: bool)
        requires free { self.old.kept ≡ None }
        requires sound { is_kept ≡ true → (L.input link).failures + (L.output link).failures ≡ 0 }
        ensures leaves { (calls : List DialCall) × (D.calls self.new.dial ≡ then_called (D.calls self.old.dial) calls)
            × Leaves (option_map (seen_link L.input L.output) self.new.kept) calls is_kept (seen_link L.input L.output link) }
        ensures host { D.host self.new.dial ≡ D.host self.old.dial }
        ensures clock { self.new.clock ≡ self.old.clock }
        ensures service { self.new.service ≡ self.old.service }
        ensures terms { self.new.terms ≡ self.old.terms }
    {
        if is_kept {
            self.kept = Some(link);
        } else {
            hang_up(&mut self.dial, link);
        }
    }

    /// Starts a job now.
    fn start(&mut self) -> Start
        ensures shown { (time : Option ℕ) × (C.shown self.new.clock ≡ shown_then (C.shown self.old.clock) (time ∷ []))
            × (result.deadline ≡ spec.deadline_from self.old.terms.timeout_ms time) }
        ensures kept { self.new.kept ≡ self.old.kept }
        ensures dial { self.new.dial ≡ self.old.dial }
        ensures service { self.new.service ≡ self.old.service }
        ensures terms { self.new.terms ≡ self.old.terms }
    {
        let now = self.clock.now_ms();
        let is_idle = is_past(deadline_from(IDLE_MS, self.used_at), now);
        // The connection has this job next, or is closed. The end of the job would cost another look at the clock.
        self.used_at = now;
        Start {
            deadline: deadline_from(self.terms.timeout_ms, now),
            is_idle,
        }
    }

    /// Sends a job over this connection, and reads the response to it. Then the connection is kept, or closed.
    fn serve_over(
        &mut self,
        alloc: Global,
        link: L,
        job: &Assignment,
        sending: Sending,
    ) -> Result<Reply, Unanswered>
        requires free { self.old.kept ≡ None }
        requires sound { (L.input link).failures + (L.output link).failures ≡ 0 }
        ensures answered { IfOk result (λ reply. AnsweredOver self.old.service sending
            (visible L.input L.output L.quiet self.old.kept (D.calls self.old.dial) (C.shown self.old.clock))
            (visible L.input L.output L.quiet self.new.kept (D.calls self.new.dial) (C.shown self.new.clock))
            (job_of job.now) (seen_link L.input L.output link) (reply_of reply)) }
        ensures unanswered { IfErr result (UnansweredOver self.old.service sending
            (visible L.input L.output L.quiet self.old.kept (D.calls self.old.dial) (C.shown self.old.clock))
            (visible L.input L.output L.quiet self.new.kept (D.calls self.new.dial) (C.shown self.new.clock))
            (job_of job.now) (seen_link L.input L.output link)) }
        ensures closed { IfErr result (λ _. self.new.kept ≡ None) }
        ensures host { D.host self.new.dial ≡ D.host self.old.dial }
        ensures service { self.new.service ≡ self.old.service }
        ensures terms { self.new.terms ≡ self.old.terms }
    {
        let mut link = link;
        limit_untimed(&mut link, sending.deadline, self.terms.timeout_ms);
        match exchange(
            alloc,
            &mut link,
            &mut self.clock,
            &self.service,
            job,
            sending,
        ) {
            Ok(done) => {
                self.leave(link, done.is_kept);
                Ok(done.reply)
            }
            Err(e) => {
                self.leave(link, false);
                Err(e)
            }
        }
    }

    /// Does a job over a new connection.
    fn serve_new(
        &mut self,
        alloc: Global,
        job: &Assignment,
        sending: Sending,
    ) -> Result<Reply, NotDone>
        requires free { self.old.kept ≡ None }
        ensures answered { IfOk result (λ reply. AnsweredNew self.old.service sending
            (visible L.input L.output L.quiet self.old.kept (D.calls self.old.dial) (C.shown self.old.clock))
            (visible L.input L.output L.quiet self.new.kept (D.calls self.new.dial) (C.shown self.new.clock))
            (job_of job.now) (reply_of reply)) }
        ensures unanswered { IfErr result (UnansweredNew self.old.service sending
            (visible L.input L.output L.quiet self.old.kept (D.calls self.old.dial) (C.shown self.old.clock))
            (visible L.input L.output L.quiet self.new.kept (D.calls self.new.dial) (C.shown self.new.clock))
            (job_of job.now)) }
        ensures host { D.host self.new.dial ≡ D.host self.old.dial }
        ensures service { self.new.service ≡ self.old.service }
        ensures terms { self.new.terms ≡ self.old.terms }
    {
        let link = match self.dial.dial(sending.deadline) {
            Ok(link) => link,
            Err(why) => return Err(NotDone::from(why)),
        };
        match self.serve_over(alloc, link, job, sending) {
            Ok(reply) => Ok(reply),
            Err(unanswered) => Err(NotDone::from(unanswered)),
        }
    }

    /// Does a job over the connection that was kept. If it was cut off there before a byte of a response came, and may be sent once more,
    /// it is done over a new one. If none can be opened, it is not served for the first reason.
    fn serve_kept(
        &mut self,
        alloc: Global,
        link: L,
        job: &Assignment,
        deadline: Option<u64>,
    ) -> Result<Reply, NotDone>
        requires free { self.old.kept ≡ None }
        requires sound { (L.input link).failures + (L.output link).failures ≡ 0 }
        ensures answered { (old : Visible) → TakesKept old (seen_link L.input L.output link)
            (visible L.input L.output L.quiet self.old.kept (D.calls self.old.dial) (C.shown self.old.clock))
            → IfOk result (λ reply. Served self.old.service self.old.terms.resend deadline old
            (visible L.input L.output L.quiet self.new.kept (D.calls self.new.dial) (C.shown self.new.clock))
            (job_of job.now) (reply_of reply)) }
        ensures unanswered { (old : Visible) → TakesKept old (seen_link L.input L.output link)
            (visible L.input L.output L.quiet self.old.kept (D.calls self.old.dial) (C.shown self.old.clock))
            → IfErr result (NotAnswered self.old.service self.old.terms.resend deadline old
            (visible L.input L.output L.quiet self.new.kept (D.calls self.new.dial) (C.shown self.new.clock))
            (job_of job.now)) }
        ensures host { D.host self.new.dial ≡ D.host self.old.dial }
        ensures service { self.new.service ≡ self.old.service }
        ensures terms { self.new.terms ≡ self.old.terms }
    {
        let first = Sending {
            attempt: Attempt::First,
            deadline,
        };
        let unanswered = match self.serve_over(alloc, link, job, first) {
            Ok(reply) => return Ok(reply),
            Err(unanswered) => unanswered,
        };
        if !is_sent_again(self.terms.resend, unanswered) {
            return Err(NotDone::from(unanswered));
        }
        if is_late(&mut self.clock, deadline) {
            return Err(NotDone::from(unanswered));
        }
        self.serve_again(alloc, job, deadline, unanswered)
    }

    /// Does a job over a new connection that was cut off for this reason over the kept one. If none can be opened, that is why it is not
    /// served: the job may be what its service ended by.
    fn serve_again(
        &mut self,
        alloc: Global,
        job: &Assignment,
        deadline: Option<u64>,
        unanswered: Unanswered,
    ) -> Result<Reply, NotDone>
        requires free { self.old.kept ≡ None }
        ensures answered { IfOk result (λ reply. AnsweredNew self.old.service (second_by deadline)
            (visible L.input L.output L.quiet self.old.kept (D.calls self.old.dial) (C.shown self.old.clock))
            (visible L.input L.output L.quiet self.new.kept (D.calls self.new.dial) (C.shown self.new.clock))
            (job_of job.now) (reply_of reply)) }
        ensures unanswered { IfErr result (UnansweredAgain self.old.service deadline unanswered
            (visible L.input L.output L.quiet self.old.kept (D.calls self.old.dial) (C.shown self.old.clock))
            (visible L.input L.output L.quiet self.new.kept (D.calls self.new.dial) (C.shown self.new.clock))
            (job_of job.now)) }
        ensures host { D.host self.new.dial ≡ D.host self.old.dial }
        ensures service { self.new.service ≡ self.old.service }
        ensures terms { self.new.terms ≡ self.old.terms }
    {
        let second = Sending {
            attempt: Attempt::Second,
            deadline,
        };
        let why = match self.serve_new(alloc, job, second) {
            Ok(reply) => return Ok(reply),
            Err(why) => why,
        };
        if is_unreachable(why) {
            return Err(NotDone::from(unanswered));
        }
        Err(why)
    }

    /// Does a job that begins now, over the kept connection or a new one.
    fn serve_from(
        &mut self,
        alloc: Global,
        job: &Assignment,
        start: Start,
    ) -> Result<Reply, NotDone>
        ensures answered { IfOk result (λ reply. Served self.old.service self.old.terms.resend start.deadline
            (visible L.input L.output L.quiet self.old.kept (D.calls self.old.dial) (C.shown self.old.clock))
            (visible L.input L.output L.quiet self.new.kept (D.calls self.new.dial) (C.shown self.new.clock))
            (job_of job.now) (reply_of reply)) }
        ensures unanswered { IfErr result (NotAnswered self.old.service self.old.terms.resend start.deadline
            (visible L.input L.output L.quiet self.old.kept (D.calls self.old.dial) (C.shown self.old.clock))
            (visible L.input L.output L.quiet self.new.kept (D.calls self.new.dial) (C.shown self.new.clock))
            (job_of job.now)) }
        ensures host { D.host self.new.dial ≡ D.host self.old.dial }
        ensures service { self.new.service ≡ self.old.service }
        ensures terms { self.new.terms ≡ self.old.terms }
    {
        let Some(link) = self.reuse(start.is_idle) else {
            let first = Sending {
                attempt: Attempt::First,
                deadline: start.deadline,
            };
            return self.serve_new(alloc, job, first);
        };
        self.serve_kept(alloc, link, job, start.deadline)
    }

    /// Does a job. None if its function has no path of its own: then nothing is sent.
    ///
    /// It is sent over the kept connection, or over a new one if there is none, or if that has ended, holds a byte that nobody asked for,
    /// or was not used for 15 seconds. If the kept connection ends or fails before a byte of a response, as one does that the service
    /// closed when the job came, the job is sent once more, over a new one and by the same deadline, and its request says so by a header.
    /// That is not done if its terms say so. Unserved says that no answer came, and why the last time that the job was sent.
    pub fn serve(&mut self, alloc: Global, job: &Assignment) -> Result<Option<Reply>, NotDone>
        ensures served { IfOk result (λ reply. Tells self.old.service self.old.terms
            (visible L.input L.output L.quiet self.old.kept (D.calls self.old.dial) (C.shown self.old.clock))
            (visible L.input L.output L.quiet self.new.kept (D.calls self.new.dial) (C.shown self.new.clock))
            (job_of job.now) (option_map reply_of reply)) }
        ensures failed { IfErr result (NotServed self.old.service self.old.terms
            (visible L.input L.output L.quiet self.old.kept (D.calls self.old.dial) (C.shown self.old.clock))
            (visible L.input L.output L.quiet self.new.kept (D.calls self.new.dial) (C.shown self.new.clock))
            (job_of job.now)) }
        ensures host { D.host self.new.dial ≡ D.host self.old.dial }
        ensures service { self.new.service ≡ self.old.service }
        ensures terms { self.new.terms ≡ self.old.terms }
    {
        if has_no_path(job.function.as_slice()) {
            return Ok(None);
        }
        let start = self.start();
        match self.serve_from(alloc, job, start) {
            Ok(reply) => Ok(Some(reply)),
            Err(e) => Err(e),
        }
    }
}

/// A session's jobs are done by the service. A job that is not served ends the session as `Unserved`, whatever the reason.
impl<L: Source + Sink + Look + Drop, D: Dial<L>, C: Clock> Jobs for ServiceJobs<L, D, C> {
    ghost use Rattle.std.specs.Prelude.{◌≡◌};
    ghost use Rattle.http_jobs.specs.Serving.{IsDoneBy, IsNotDoneBy, MayMakeReady, visible};

    ghost tells = { λ before after job told. IsDoneBy before.service before.terms
        (visible L.input L.output L.quiet before.kept (D.calls before.dial) (C.shown before.clock))
        (visible L.input L.output L.quiet after.kept (D.calls after.dial) (C.shown after.clock))
        after.service after.terms job told };

    ghost fails = { λ before after job error. IsNotDoneBy before.service before.terms
        (visible L.input L.output L.quiet before.kept (D.calls before.dial) (C.shown before.clock))
        (visible L.input L.output L.quiet after.kept (D.calls after.dial) (C.shown after.clock))
        after.service after.terms job error };

    ghost prepares = { λ before after. MayMakeReady
        (visible L.input L.output L.quiet before.kept (D.calls before.dial) (C.shown before.clock))
        (visible L.input L.output L.quiet after.kept (D.calls after.dial) (C.shown after.clock))
        × (after.service ≡ before.service) × (after.terms ≡ before.terms) };

    /// A connection is opened if none is kept: a service that cannot be reached is better known before there is a job.
    fn prepare(&mut self) -> Readiness {
        match self.make_ready() {
            Ok(()) => Readiness::Ready,
            Err(_) => Readiness::Unready,
        }
    }

    fn run(
        &mut self,
        alloc: Global,
        job: Assignment,
    ) -> Result<Option<Outcome>, job_runner::NotDone> {
        Ok(Reply::outcome_in(self.serve(alloc, &job)?))
    }

    fn readiness(&self) -> Readiness {
        if self.is_lost() {
            Readiness::Lost
        } else {
            Readiness::Ready
        }
    }
}

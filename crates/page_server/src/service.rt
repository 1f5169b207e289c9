//! What a page answers.

ghost use Rattle.std.specs.Prelude.{IfOk};
ghost use Rattle.farm_page.specs.Replying.{Replies};
ghost use Rattle.farm_page.specs.Request.{place_asked};
ghost use Rattle.farm_page.specs.declared.replying.Seen.{Seen};

use crate::answering::{put_answer, put_header};
use crate::asking::asked_by;
use crate::limited::Limit;
use crate::places::Ticket;
use crate::shared_page::{PageTimes, SharedPage};
use bytes::{BufMut, Bytes};
use farm_page::{
    Asked, Attempts, Failures, FarmPhase, FarmView, JobsAgain, MissingView, Moment, Outcome, Reply,
    Seen, Site, SizeView, Turnover, Workers, reply_to,
};
use http::{Request, StatusCode};
use http_server::{Response, Service};
use std::alloc::{AllocError, Global};
use std::num::NonZeroU32;
use std::sync::Wait;
use std::time::Clock;

/// For how many milliseconds the answer to a drain may be written, once the farm has ended.
const WRITE_MS: u32 = 5_000;

/// Answers the requests of one peer.
#[derive(Drop)]
pub struct PageService<'a, R> {
    /// Clock and locks.
    pub rt: &'a R,
    /// Where memory comes from.
    pub alloc: Global,
    /// The page.
    pub page: &'a SharedPage,
    /// Where the page is.
    pub place: Site<'a>,
    /// Until when the peer is served.
    pub limit: &'a Limit,
    /// The peer's place.
    pub ticket: Ticket,
    /// The times of the farm.
    pub times: PageTimes,
    /// The backlog that is wanted, if one is.
    pub backlog: Option<NonZeroU32>,
}

/// What is known of the size before the first attempt: there is none if no backlog is wanted, and else there was no round for it yet.
fn size_before(backlog: Option<NonZeroU32>) -> (MissingView, SizeView) {
    match backlog {
        Some(_) => (MissingView::NoLoad, SizeView::NoRound),
        None => (MissingView::NotAsked, SizeView::NotAsked),
    }
}

/// What a page shows before the first attempt, if this backlog is wanted.
fn before_attempts(alloc: Global, backlog: Option<NonZeroU32>) -> Result<FarmView, AllocError> {
    let (missing, size) = size_before(backlog);
    Ok(FarmView {
        server: String::new(alloc),
        time: None,
        attempt: 0,
        outcome: Outcome::NoRound(String::from_str(alloc, "no attempt yet")?),
        shortage: None,
        workers: Workers { alive: 0, all: 0 },
        turnover: Turnover {
            alive_before: 0,
            ended: 0,
            most_used: 0,
        },
        again: JobsAgain { times: 0, held: 0 },
        without_room: Vec::new(alloc),
        functions: Vec::new(alloc),
        hosts: Vec::new(alloc),
        ends: Vec::new(alloc),
        failures: Failures::new(alloc),
        evidence: None,
        relaxed: None,
        missing,
        size,
        attempts: Attempts::new(alloc),
    })
}

impl<'a, R: Wait + Clock> PageService<'a, R> {
    /// Whether the farm goes on.
    fn phase(&self) -> FarmPhase {
        if self.page.end.is_raised(self.rt) {
            FarmPhase::Ends
        } else {
            FarmPhase::GoesOn
        }
    }

    /// What is answered of a farm that was seen so many milliseconds ago.
    fn reply_of(&self, farm: &FarmView, age_ms: u64, asked: &Asked<'_>) -> Result<Reply, AllocError>
        ensures { IfOk result
            (λ reply. (seen : Seen) × Replies seen asked.now (place_asked self.now.place asked.now) reply) }
    {
        let moment = Moment {
            age_ms,
            round_ms: self.times.round_ms,
            phase: self.phase(),
        };
        let seen = Seen { farm, moment };
        reply_to(self.alloc, &seen, &self.place, asked)
    }

    /// What is answered of the farm as it is shown now.
    fn reply(&self, asked: &Asked<'_>) -> Result<Reply, AllocError>
        ensures { IfOk result
            (λ reply. (seen : Seen) × Replies seen asked.now (place_asked self.now.place asked.now) reply) }
    {
        match self.page.shown.current(self.rt)? {
            Some((view, age_ms)) => self.reply_of(&view, age_ms, asked),
            None => self.reply_of(&before_attempts(self.alloc, self.backlog)?, 0, asked),
        }
    }

    /// Ends the farm, and answers with what it came to.
    fn drain(&self, response: &mut Response) -> Result<(), AllocError> {
        self.page.places.keep(self.rt, self.ticket);
        self.page.end.raise(self.rt);
        let text = self
            .page
            .end_text
            .wait(self.rt, self.alloc, self.times.drain_ms)?;
        let _ = self.limit.renew(self.rt, WRITE_MS);
        put_header(
            response,
            self.alloc,
            "content-type",
            "text/plain; charset=utf-8",
        )?;
        put_header(response, self.alloc, "x-content-type-options", "nosniff")?;
        match text {
            Some(text) => response.body.put_slice(text.as_bytes()),
            None => {
                response.status = StatusCode::GATEWAY_TIMEOUT;
                response
                    .body
                    .put_slice(b"504: the farm has not ended yet\n")
            }
        }
    }
}

impl<'a, R: Wait + Clock> Service for PageService<'a, R> {
    ghost use Rattle.std.specs.Prelude.{◌≡◌};
    ghost use Rattle.page_server.specs.Answers.{IsAnswered};

    ghost answers = { λ old request response new. (new ≡ old) × IsAnswered old.place old.ticket.distance request response };

    fn call(
        &mut self,
        request: &Request<Bytes>,
        response: &mut Response,
    ) -> Result<(), AllocError> {
        let asked = asked_by(request, self.ticket.distance);
        match self.reply(&asked)? {
            Reply::Told(answer) => put_answer(self.alloc, answer, response),
            Reply::Drain => self.drain(response),
        }
    }
}

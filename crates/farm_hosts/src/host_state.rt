//! How a host is, and what a dial makes of it.

ghost use Rattle.std.specs.Prelude.{◌≡◌, ◌↔◌, ◌≤◌, ◌<◌, ◌*◌, ◌^◌, ◌-◌, ◌+◌, IfErr, IfOk, IfSome, None, Some};
ghost use Rattle.std.specs.Prelude.{false, min, true};
ghost use Rattle.std.specs.Option.{option_map};
ghost use Rattle.farm_hosts.specs.Hosts as spec;
ghost use Rattle.farm_hosts.specs.declared.host_state.Reason.TheVariants.{Unreachable, Unserved};

use crate::waits::{
    ALL_STARTS, FIRST_STARTS, FIRST_WAIT, LONGEST_UNSERVED, LONGEST_WAIT, due_after, longer_wait,
    more_starts,
};
use devices::DialError;
use worker_state::WorkerName;

/// Why a host is left alone.
#[derive(Clone, Copy, Debug, PartialEq, Eq)]
pub enum Reason {
    /// A dial failed, and not since files, ports or memory were lacking here.
    Unreachable,
    /// So many new jobs in a row were not served, and none for a while.
    Unserved,
}

impl Reason {
    /// Its name.
    pub fn name(self) -> &'static str {
        match self {
            Reason::Unreachable => "Unreachable",
            Reason::Unserved => "Unserved",
        }
    }

    /// How many attempts pass at most between two tries of a host that is left alone for this. One that takes no connection may wait for as
    /// many as `longest_unreached`.
    fn longest_wait(self, longest_unreached: u64) -> u64
        ensures { result ≡ spec.longest_wait self longest_unreached }
    {
        match self {
            Reason::Unreachable => longest_unreached,
            Reason::Unserved => LONGEST_UNSERVED,
        }
    }
}

/// What a worker does before it asks for one more job.
#[derive(Clone, Copy, Debug, PartialEq, Eq)]
pub enum BeforeJob {
    /// Nothing: it asks.
    Ask,
    /// It dials its host, to which a dial failed before, and asks if that is reached, or if nothing is learnt of it.
    Dial,
    /// It dials its host to see whether it is still there: the worker's connection was closed, or nothing was heard of the host for long.
    /// It asks as after a dial.
    Look,
    /// It ends.
    End,
}

/// A host that is left alone.
#[derive(Clone, Copy, Debug, PartialEq, Eq)]
pub struct Absence {
    /// Why.
    pub why: Reason,
    /// How many attempts after the next try another may be made.
    pub wait: u64,
    /// From this attempt on one worker may try it.
    pub due: u64,
    /// The worker that tries whether it serves jobs: the last one that opened a connection to it, if it has not ended.
    pub trier: Option<WorkerName>,
}

impl Absence {
    /// From which attempt on one worker may start to try the host, and from the next one on any of its workers. The one that tries it may
    /// have no job, and so learn nothing: after the longest wait another may start beside it.
    pub fn next_try(self) -> u64
        ensures { result ≡ spec.next_try self }
    {
        let wait = match self.trier {
            Some(_) => LONGEST_WAIT,
            None => 0,
        };
        due_after(self.due, wait)
    }

    /// After a worker joined in this attempt. If it came to try the host, the next wait is twice as long, up to the longest one.
    pub fn after_join(self, attempt: u64, longest_unreached: u64) -> Absence
        ensures why { result.why ≡ self.why }
        ensures tries { spec.IsTriedIn attempt longest_unreached self result }
        ensures waits { attempt < self.due → result ≡ self }
    {
        let mut after = self;
        if self.due <= attempt {
            let wait = longer_wait(self.wait, self.why.longest_wait(longest_unreached));
            after.wait = wait;
            after.due = due_after(attempt, wait);
        }
        after
    }
}

/// A host that is not left alone.
#[derive(Clone, Copy, Debug, PartialEq, Eq)]
pub struct Presence {
    /// How many attempts pass before it is tried, once it is left alone. Only a job that is served makes them fewer.
    pub wait: u64,
    /// How many of its workers may start in an attempt.
    pub starts: u32,
}

impl Presence {
    /// That of a host of which nothing is known: all its workers may start.
    pub fn new() -> Presence
        ensures wait { result.wait ≡ 1 }
        ensures starts { result.starts ≡ 4096 }
    {
        Presence {
            wait: FIRST_WAIT,
            starts: ALL_STARTS,
        }
    }

    /// That of a host that is back, and next waits for so long. It may have been started just now, so its workers come by and by.
    fn back(wait: u64) -> Presence
        ensures wait { result.wait ≡ wait }
        ensures starts { result.starts ≡ 2 }
    {
        Presence {
            wait,
            starts: FIRST_STARTS,
        }
    }
}

/// How a host is.
#[derive(Clone, Copy, Debug, PartialEq, Eq)]
pub enum HostState {
    /// It is not left alone.
    Present(Presence),
    /// It is left alone.
    Away(Absence),
}

/// Whether a dial that failed so says nothing of the host: this process or machine lacked what a dial needs.
pub fn is_local(why: DialError) -> bool
    ensures { result ≡ spec.is_local why }
{
    matches!(
        why,
        DialError::TooManyFiles | DialError::NoPort | DialError::Memory
    )
}

/// Whether such a dial before a job says nothing of the host if it failed so. A look says nothing of it if the host's name was not found:
/// the host counts as reached, and the connections that are kept to it need no name.
pub fn says_nothing(does: BeforeJob, why: DialError) -> bool
    ensures { result ≡ spec.says_nothing does why }
{
    match (does, why) {
        (BeforeJob::Look, DialError::NoAddress) => true,
        _ => is_local(why),
    }
}

/// What such a dial before a job says of the host, if it says anything.
pub fn said_of_host(
    does: BeforeJob,
    dialled: Result<(), DialError>,
) -> Option<Result<(), DialError>>
    ensures { result ≡ spec.said_of_host does dialled }
{
    match dialled {
        Err(why) if says_nothing(does, why) => None,
        said => Some(said),
    }
}

/// Whether a worker may ask for one more job after a dial said this of its host: if that was reached, or if nothing was learnt of it.
pub fn lets_go_on(said: Option<Result<(), DialError>>) -> bool
    ensures { result ≡ spec.lets_go_on said }
{
    !matches!(said, Some(Err(_)))
}

impl HostState {
    /// Left alone from this attempt on, if it is not already. It may be tried after at most as many attempts as its longest wait.
    pub fn away(self, why: Reason, attempt: u64, longest_unreached: u64) -> HostState
        ensures why { spec.reason_of result ≡ Some why }
        ensures wait { spec.wait_of result ≡ min (spec.wait_of self) (spec.longest_wait why longest_unreached) }
        ensures first { spec.reason_of self ≡ None → spec.try_of result ≡ Some (min (attempt + spec.wait_of result) (2 ^ 64 - 1)) }
        ensures soon { spec.MayBeTriedFrom (attempt + spec.longest_wait why longest_unreached) result }
    {
        let longest = why.longest_wait(longest_unreached);
        match self {
            HostState::Present(presence) => {
                let wait = presence.wait.min(longest);
                HostState::Away(Absence {
                    why,
                    wait,
                    due: due_after(attempt, wait),
                    trier: None,
                })
            }
            HostState::Away(absence) => HostState::Away(Absence {
                why,
                wait: absence.wait.min(longest),
                due: absence.due.min(due_after(attempt, longest)),
                trier: None,
            }),
        }
    }

    /// After a connection was opened, or could not be. If files, ports or memory were lacking here, the host is as before.
    pub fn after_dial(
        self,
        dialled: Result<(), DialError>,
        attempt: u64,
        longest_unreached: u64,
    ) -> HostState
        ensures marks { spec.reason_of result ≡ spec.after_dial (spec.reason_of self) dialled }
        ensures starts { IfOk dialled (λ _. spec.starts_of result ≡ spec.starts_after_opening (spec.reason_of self) (spec.starts_of self)) }
        ensures soon { IfErr dialled (λ why. spec.is_local why ≡ false → spec.MayBeTriedFrom (attempt + longest_unreached) result) }
        ensures stays { IfErr dialled (λ why. spec.is_local why ≡ true → result ≡ self) }
    {
        match dialled {
            Ok(()) => self.after_opening(),
            Err(why) if is_local(why) => self,
            Err(_) => self.away(Reason::Unreachable, attempt, longest_unreached),
        }
    }

    /// After a connection was opened.
    pub fn after_opening(self) -> HostState
        ensures reason { spec.reason_of result ≡ spec.after_opening (spec.reason_of self) }
        ensures wait { spec.wait_of result ≡ spec.wait_of self }
        ensures tries { spec.reason_of self ≡ Some Unserved → result ≡ self }
        ensures starts { spec.starts_of result ≡ spec.starts_after_opening (spec.reason_of self) (spec.starts_of self) }
    {
        match self {
            HostState::Away(
                Absence {
                    why: Reason::Unreachable,
                    wait,
                    ..
                },
            ) => HostState::Present(Presence::back(wait)),
            state => state,
        }
    }

    /// After it served a job. One that is not reached stays so: the job was sent over a connection that was open before, and a service that
    /// stops may do the jobs that it has and take no other connection. The worker's next dial shows it.
    pub fn after_served(self) -> HostState
        ensures reason { spec.reason_of result ≡ spec.after_served (spec.reason_of self) }
        ensures tries { spec.reason_of self ≡ Some Unreachable → result ≡ self }
        ensures starts { spec.starts_of result ≡ spec.starts_after_served (spec.reason_of self) (spec.starts_of self) }
    {
        match self {
            HostState::Away(absence) if absence.why == Reason::Unreachable => {
                HostState::Away(absence)
            }
            HostState::Away(_) => HostState::Present(Presence::back(FIRST_WAIT)),
            HostState::Present(presence) => HostState::Present(Presence {
                wait: FIRST_WAIT,
                ..presence
            }),
        }
    }

    /// Once the next attempt begins: if it is back, twice as many of its workers may start in that.
    pub fn after_attempt(self) -> HostState
        ensures reason { spec.reason_of result ≡ spec.reason_of self }
        ensures tries { spec.try_of result ≡ spec.try_of self }
        ensures starts { spec.starts_of result ≡ option_map (λ starts. min (starts * 2) 4096) (spec.starts_of self) }
    {
        match self {
            HostState::Present(presence) => HostState::Present(Presence {
                starts: more_starts(presence.starts),
                ..presence
            }),
            HostState::Away(absence) => HostState::Away(absence),
        }
    }

    /// Whether a worker that joins now comes to try it.
    pub fn is_tried_in(self, attempt: u64) -> bool
        ensures { result ≡ spec.is_due self attempt }
    {
        match self {
            HostState::Present(_) => false,
            HostState::Away(absence) => absence.due <= attempt,
        }
    }

    /// After a worker joined, which came to try it if it is left alone.
    pub fn after_join(self, attempt: u64, longest_unreached: u64) -> HostState
        ensures reason { spec.reason_of result ≡ spec.reason_of self }
        ensures starts { spec.starts_of result ≡ spec.starts_of self }
        ensures tries { spec.IfAway self (λ before. spec.IfAway result (spec.IsTriedIn attempt longest_unreached before)) }
    {
        match self {
            HostState::Present(presence) => HostState::Present(presence),
            HostState::Away(absence) => {
                HostState::Away(absence.after_join(attempt, longest_unreached))
            }
        }
    }

    /// After a worker opened a connection for its jobs. If jobs were not served, it is the one that tries the host from now on.
    pub fn after_start(self, worker: WorkerName) -> HostState
        ensures reason { spec.reason_of result ≡ spec.reason_of self }
        ensures due { spec.due_of result ≡ spec.due_of self }
        ensures tries { spec.reason_of self ≡ Some Unserved → spec.trier_of result ≡ Some worker }
    {
        match self {
            HostState::Away(absence) if absence.why == Reason::Unserved => {
                HostState::Away(Absence {
                    trier: Some(worker),
                    ..absence
                })
            }
            state => state,
        }
    }

    /// After a worker ended.
    pub fn after_end(self, worker: WorkerName) -> HostState
        ensures reason { spec.reason_of result ≡ spec.reason_of self }
        ensures due { spec.due_of result ≡ spec.due_of self }
        ensures goes { spec.trier_of self ≡ Some worker → spec.trier_of result ≡ None }
    {
        match self {
            HostState::Away(absence) if absence.trier == Some(worker) => HostState::Away(Absence {
                trier: None,
                ..absence
            }),
            state => state,
        }
    }

    /// After a round without a plan, in which no worker was given a function: so the one that tries the host has no job, and the host's
    /// other workers may be what a plan lacks. If jobs were not served, all may start again. If they are not served now either, the next
    /// wait is the longer one. The workers of a host that is back come by and by no more: all may start at once.
    pub fn after_no_plan(self) -> HostState
        ensures reason { spec.reason_of result ≡ spec.after_no_plan (spec.reason_of self) (spec.trier_of self) }
        ensures wait { spec.wait_of result ≡ spec.wait_of self }
        ensures tries { IfSome (spec.reason_of result) (λ _. result ≡ self) }
        ensures starts { IfSome (spec.starts_of result) (λ starts. starts ≡ 4096) }
    {
        match self {
            HostState::Present(presence) => HostState::Present(Presence {
                starts: ALL_STARTS,
                ..presence
            }),
            HostState::Away(
                Absence {
                    why: Reason::Unserved,
                    wait,
                    trier: Some(_),
                    ..
                },
            ) => HostState::Present(Presence {
                wait,
                starts: ALL_STARTS,
            }),
            state => state,
        }
    }

    /// Whether this worker tries it.
    pub fn is_tried_by(self, worker: WorkerName) -> bool
        ensures { (result ≡ true) ↔ (spec.trier_of self ≡ Some worker) }
    {
        match self {
            HostState::Present(_) => false,
            HostState::Away(absence) => absence.trier == Some(worker),
        }
    }

    /// What a worker does before it asks for one more job. It may have come to try the host, and it may have cause to look at it.
    pub fn before_job(self, is_trier: bool, has_to_look: bool) -> BeforeJob
        ensures { result ≡ spec.before_job (spec.reason_of self) is_trier has_to_look }
    {
        match self.reason() {
            Some(Reason::Unreachable) => BeforeJob::Dial,
            Some(Reason::Unserved) if !is_trier => BeforeJob::End,
            _ if has_to_look => BeforeJob::Look,
            _ => BeforeJob::Ask,
        }
    }

    /// Why it is left alone, if it is.
    pub fn reason(self) -> Option<Reason>
        ensures { result ≡ spec.reason_of self }
    {
        match self {
            HostState::Present(_) => None,
            HostState::Away(absence) => Some(absence.why),
        }
    }
}

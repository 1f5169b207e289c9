//! Whether all jobs of a host wait for the first answer over their connections.

ghost use Rattle.std.specs.Prelude.{◌≡◌, ◌+◌, ◌-◌, ◌^◌, min, max, false, if◌then◌else◌};
ghost use Rattle.farm_hosts.specs.Answers as spec;

/// At how many attempts in a row all jobs of a host have to wait for a first answer before it is told.
const SILENT_ATTEMPTS: u32 = 4;

/// What a worker has heard of its host before a job.
#[derive(Clone, Copy, Debug, PartialEq, Eq)]
pub enum Heard {
    /// The host has answered no job of the worker.
    Nothing,
    /// It has answered one.
    Answer,
}

impl Heard {
    /// How many jobs one of such a worker adds to those that wait for a first answer.
    fn firsts(self) -> u32
        ensures { result ≡ spec.first_of self }
    {
        match self {
            Heard::Nothing => 1,
            Heard::Answer => 0,
        }
    }
}

/// What is new of the answers of a host.
#[derive(Clone, Copy, Debug, PartialEq, Eq)]
pub enum AnswerNews {
    /// So many jobs are there, and each has waited for the first answer over its connection for some attempts.
    Unanswered(u32),
    /// That was so, and now a job was answered.
    Answered,
}

/// What is known of the answers to the jobs of a host.
#[derive(Clone, Copy, Debug, PartialEq, Eq)]
pub struct FirstAnswers {
    /// How many jobs are there.
    pub jobs: u32,
    /// How many of them wait for the first answer over their connections.
    pub waiting: u32,
    /// At how many attempts in a row all of them waited so, with no job answered in between.
    pub attempts: u32,
    /// Whether that is told, and no job was answered since.
    pub is_told: bool,
}

impl FirstAnswers {
    /// Before the first job.
    pub fn new() -> FirstAnswers
        ensures { result ≡ record { jobs = 0; waiting = 0; attempts = 0; is_told = false } }
    {
        FirstAnswers {
            jobs: 0,
            waiting: 0,
            attempts: 0,
            is_told: false,
        }
    }

    /// A job is given to the host by a worker that it has answered so.
    pub fn begin_job(&mut self, so_far: Heard)
        ensures { self.new ≡ record self.old {
          jobs = min (self.old.jobs + 1) (2 ^ 32 - 1);
          waiting = min (self.old.waiting + spec.first_of so_far) (2 ^ 32 - 1);
        } }
    {
        self.jobs = self.jobs.saturating_add(1);
        self.waiting = self.waiting.saturating_add(so_far.firsts());
    }

    /// Such a job has ended, and was answered or not. What is new.
    pub fn end_job(&mut self, so_far: Heard, is_answered: bool) -> Option<AnswerNews>
        ensures jobs { (self.new.jobs ≡ self.old.jobs - 1) × (self.new.waiting ≡ self.old.waiting - spec.first_of so_far) }
        ensures attempts { self.new.attempts ≡ (if is_answered then 0 else self.old.attempts) }
        ensures told { self.new.is_told ≡ (if is_answered then false else self.old.is_told) }
        ensures news { result ≡ spec.news_of_answer is_answered self.old }
    {
        self.jobs = self.jobs.saturating_sub(1);
        self.waiting = self.waiting.saturating_sub(so_far.firsts());
        if !is_answered {
            return None;
        }
        let was_told = self.is_told;
        self.attempts = 0;
        self.is_told = false;
        was_told.then_some(AnswerNews::Answered)
    }

    /// Whether jobs are there, and all of them wait for a first answer.
    fn all_wait(&self) -> bool
        ensures { result ≡ spec.all_wait self.now }
    {
        self.jobs > 0 && self.waiting == self.jobs
    }

    /// The next attempt begins. What is new: that all jobs waited at so many attempts in a row, which is told once.
    pub fn begin_attempt(&mut self) -> Option<AnswerNews>
        ensures jobs { (self.new.jobs ≡ self.old.jobs) × (self.new.waiting ≡ self.old.waiting) }
        ensures attempts { self.new.attempts ≡ spec.attempts_after self.old }
        ensures told { self.new.is_told ≡ spec.is_told_after self.old }
        ensures news { result ≡ spec.news_of_attempt self.old }
    {
        self.attempts = if self.all_wait() {
            self.attempts.saturating_add(1)
        } else {
            0
        };
        if self.is_told || self.attempts < SILENT_ATTEMPTS {
            return None;
        }
        self.is_told = true;
        Some(AnswerNews::Unanswered(self.waiting))
    }
}

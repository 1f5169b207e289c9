//! Why a call of the pool was refused. The variants of each are in the order in which they are looked at: if more than one
//! is true, the first is answered, and nothing has changed.

ghost use Rattle.std.specs.Prelude.{◌≡◌};

use refusal::{Label, Labelled};
use std::alloc::AllocError;
use thiserror::Error;

/// Why no worker joined.
#[derive(Clone, Copy, Debug, PartialEq, Eq, Error)]
pub enum JoinError {
    /// The slot has a worker.
    #[error("the slot has a worker")]
    AlreadyLive,
    /// The slot has had 262,143 workers.
    #[error("the slot has no generation left")]
    GenerationsUsed,
    /// The history has no room for the worker's two events.
    #[error("the history is full")]
    HistoryFull,
    /// There was no memory.
    #[error("out of memory")]
    Memory,
}

impl Labelled for JoinError {
    ghost use Rattle.pool_core.specs.CallRefusals.{join_label};

    ghost label = { join_label };

    fn label(&self) -> Label {
        match self {
            JoinError::AlreadyLive => Label::new(1, "AlreadyLive"),
            JoinError::GenerationsUsed => Label::new(2, "GenerationsUsed"),
            JoinError::HistoryFull => Label::new(3, "HistoryFull"),
            JoinError::Memory => Label::new(4, "Memory"),
        }
    }
}

/// Why a load was not taken.
#[derive(Clone, Copy, Debug, PartialEq, Eq, Error)]
pub enum LoadError {
    /// The history has no room for one more event.
    #[error("the history is full")]
    HistoryFull,
    /// There was no memory.
    #[error("out of memory")]
    Memory,
}

impl Labelled for LoadError {
    ghost use Rattle.pool_core.specs.CallRefusals.{load_label};

    ghost label = { load_label };

    fn label(&self) -> Label {
        match self {
            LoadError::HistoryFull => Label::new(1, "HistoryFull"),
            LoadError::Memory => Label::new(2, "Memory"),
        }
    }
}

/// Why no round was made.
#[derive(Clone, Copy, Debug, PartialEq, Eq, Error)]
pub enum RoundError {
    /// There is no load yet.
    #[error("there is no load")]
    NoLoad,
    /// The history has no room for one more event, or there were 4,294,967,295 rounds.
    #[error("the history is full")]
    HistoryFull,
    /// There was no memory.
    #[error("out of memory")]
    Memory,
}

impl Labelled for RoundError {
    ghost use Rattle.pool_core.specs.CallRefusals.{round_label};

    ghost label = { round_label };

    fn label(&self) -> Label {
        match self {
            RoundError::NoLoad => Label::new(1, "NoLoad"),
            RoundError::HistoryFull => Label::new(2, "HistoryFull"),
            RoundError::Memory => Label::new(3, "Memory"),
        }
    }
}

/// Why there is nothing to plan for.
#[derive(Clone, Copy, Debug, PartialEq, Eq, Error)]
pub enum ViewError {
    /// There is no load yet.
    #[error("there is no load")]
    NoLoad,
    /// There was no memory.
    #[error("out of memory")]
    Memory,
}

impl Labelled for ViewError {
    ghost use Rattle.pool_core.specs.CallRefusals.{view_label};

    ghost label = { view_label };

    fn label(&self) -> Label {
        match self {
            ViewError::NoLoad => Label::new(1, "NoLoad"),
            ViewError::Memory => Label::new(2, "Memory"),
        }
    }
}

/// Why an answer was not adopted.
#[derive(Clone, Copy, Debug, PartialEq, Eq, Error)]
pub enum AdoptError {
    /// There is no load yet.
    #[error("there is no load")]
    NoLoad,
    /// The answer's input is not that of now.
    #[error("the plan is for another input")]
    Stale,
    /// The history has no room for one more event, or there were 4,294,967,295 rounds.
    #[error("the history is full")]
    HistoryFull,
    /// There was no memory.
    #[error("out of memory")]
    Memory,
}

impl Labelled for AdoptError {
    ghost use Rattle.pool_core.specs.CallRefusals.{adopt_label};

    ghost label = { adopt_label };

    fn label(&self) -> Label {
        match self {
            AdoptError::NoLoad => Label::new(1, "NoLoad"),
            AdoptError::Stale => Label::new(2, "Stale"),
            AdoptError::HistoryFull => Label::new(3, "HistoryFull"),
            AdoptError::Memory => Label::new(4, "Memory"),
        }
    }
}

/// Why a job was not booked.
#[derive(Clone, Copy, Debug, PartialEq, Eq, Error)]
pub enum GrabError {
    /// The worker is not in its slot any more.
    #[error("the worker is gone")]
    Gone,
    /// The worker has a job.
    #[error("the worker has a job")]
    Busy,
    /// The history has no room for the job's three events, or all tickets were given.
    #[error("the history is full")]
    HistoryFull,
    /// There was no memory.
    #[error("out of memory")]
    Memory,
}

impl Labelled for GrabError {
    ghost use Rattle.pool_core.specs.CallRefusals.{grab_label};

    ghost label = { grab_label };

    fn label(&self) -> Label {
        match self {
            GrabError::Gone => Label::new(1, "Gone"),
            GrabError::Busy => Label::new(2, "Busy"),
            GrabError::HistoryFull => Label::new(3, "HistoryFull"),
            GrabError::Memory => Label::new(4, "Memory"),
        }
    }
}

/// Why a report may not begin.
#[derive(Clone, Copy, Debug, PartialEq, Eq, Error)]
pub enum BeginError {
    /// The worker is not in its slot any more.
    #[error("the worker is gone")]
    Gone,
    /// The worker has no job, or another one.
    #[error("the worker does not have that job")]
    WrongTicket,
    /// The report has begun before.
    #[error("the report has begun already")]
    AlreadyReporting,
}

impl Labelled for BeginError {
    ghost use Rattle.pool_core.specs.CallRefusals.{begin_label};

    ghost label = { begin_label };

    fn label(&self) -> Label {
        match self {
            BeginError::Gone => Label::new(1, "Gone"),
            BeginError::WrongTicket => Label::new(2, "WrongTicket"),
            BeginError::AlreadyReporting => Label::new(3, "AlreadyReporting"),
        }
    }
}

/// Why a report was not taken.
#[derive(Clone, Copy, Debug, PartialEq, Eq, Error)]
pub enum ReportError {
    /// The worker is not in its slot any more.
    #[error("the worker is gone")]
    Gone,
    /// The worker has no job, or another one.
    #[error("the worker does not have that job")]
    WrongTicket,
    /// The report has not begun.
    #[error("the report has not begun")]
    NotReporting,
}

impl Labelled for ReportError {
    ghost use Rattle.pool_core.specs.CallRefusals.{report_label};

    ghost label = { report_label };

    fn label(&self) -> Label {
        match self {
            ReportError::Gone => Label::new(1, "Gone"),
            ReportError::WrongTicket => Label::new(2, "WrongTicket"),
            ReportError::NotReporting => Label::new(3, "NotReporting"),
        }
    }
}

/// Why a worker was not lost.
#[derive(Clone, Copy, Debug, PartialEq, Eq, Error)]
pub enum LoseError {
    /// The worker is not in its slot any more.
    #[error("the worker is gone")]
    Gone,
}

impl Labelled for LoseError {
    ghost use Rattle.pool_core.specs.CallRefusals.{lose_label};

    ghost label = { lose_label };

    fn label(&self) -> Label {
        match self {
            LoseError::Gone => Label::new(1, "Gone"),
        }
    }
}

/// Why a worker was not expired.
#[derive(Clone, Copy, Debug, PartialEq, Eq, Error)]
pub enum ExpireError {
    /// The worker is not in its slot any more.
    #[error("the worker is gone")]
    Gone,
    /// The worker has no job.
    #[error("the worker has no job")]
    NoJob,
    /// The worker has begun to report its job.
    #[error("the worker reports its job")]
    Reporting,
    /// The job is not late.
    #[error("the job is not late")]
    NotLate,
}

impl Labelled for ExpireError {
    ghost use Rattle.pool_core.specs.CallRefusals.{expire_label};

    ghost label = { expire_label };

    fn label(&self) -> Label {
        match self {
            ExpireError::Gone => Label::new(1, "Gone"),
            ExpireError::NoJob => Label::new(2, "NoJob"),
            ExpireError::Reporting => Label::new(3, "Reporting"),
            ExpireError::NotLate => Label::new(4, "NotLate"),
        }
    }
}

/// Why no chapter ended.
#[derive(Clone, Copy, Debug, PartialEq, Eq, Error)]
pub enum ChapterError {
    /// 4,294,967,295 chapters have ended.
    #[error("all chapters are used")]
    ChaptersUsed,
    /// There was no memory.
    #[error("out of memory")]
    Memory,
}

impl Labelled for ChapterError {
    ghost use Rattle.pool_core.specs.CallRefusals.{chapter_label};

    ghost label = { chapter_label };

    fn label(&self) -> Label {
        match self {
            ChapterError::ChaptersUsed => Label::new(1, "ChaptersUsed"),
            ChapterError::Memory => Label::new(2, "Memory"),
        }
    }
}

impl From<AllocError> for JoinError {
    ghost use Rattle.std.specs.Prelude.{◌≡◌};
    ghost use Rattle.pool_core.specs.declared.error.JoinError.TheVariants.{Memory};

    ghost from_gives = { λ _ e. e ≡ Memory };

    fn from(_: AllocError) -> JoinError {
        JoinError::Memory
    }
}

impl From<AllocError> for LoadError {
    ghost use Rattle.std.specs.Prelude.{◌≡◌};
    ghost use Rattle.pool_core.specs.declared.error.LoadError.TheVariants.{Memory};

    ghost from_gives = { λ _ e. e ≡ Memory };

    fn from(_: AllocError) -> LoadError {
        LoadError::Memory
    }
}

impl From<AllocError> for RoundError {
    ghost use Rattle.std.specs.Prelude.{◌≡◌};
    ghost use Rattle.pool_core.specs.declared.error.RoundError.TheVariants.{Memory};

    ghost from_gives = { λ _ e. e ≡ Memory };

    fn from(_: AllocError) -> RoundError {
        RoundError::Memory
    }
}

impl From<AllocError> for ViewError {
    ghost use Rattle.std.specs.Prelude.{◌≡◌};
    ghost use Rattle.pool_core.specs.declared.error.ViewError.TheVariants.{Memory};

    ghost from_gives = { λ _ e. e ≡ Memory };

    fn from(_: AllocError) -> ViewError {
        ViewError::Memory
    }
}

impl From<AllocError> for AdoptError {
    ghost use Rattle.std.specs.Prelude.{◌≡◌};
    ghost use Rattle.pool_core.specs.declared.error.AdoptError.TheVariants.{Memory};

    ghost from_gives = { λ _ e. e ≡ Memory };

    fn from(_: AllocError) -> AdoptError {
        AdoptError::Memory
    }
}

impl From<AllocError> for GrabError {
    ghost use Rattle.std.specs.Prelude.{◌≡◌};
    ghost use Rattle.pool_core.specs.declared.error.GrabError.TheVariants.{Memory};

    ghost from_gives = { λ _ e. e ≡ Memory };

    fn from(_: AllocError) -> GrabError {
        GrabError::Memory
    }
}

impl From<AllocError> for ChapterError {
    ghost use Rattle.std.specs.Prelude.{◌≡◌};
    ghost use Rattle.pool_core.specs.declared.error.ChapterError.TheVariants.{Memory};

    ghost from_gives = { λ _ e. e ≡ Memory };

    fn from(_: AllocError) -> ChapterError {
        ChapterError::Memory
    }
}

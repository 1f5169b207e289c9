//! What the service manager of a farm is told.

ghost use Rattle.std.specs.Prelude.{◌≡◌};
ghost use Rattle.serve_command.specs.Manager as spec;

use service_manager::{ManagerError, Notice, ServiceManager, watchdog_of};
use std::rt::Env;
use std::sync::{Mutex, Wait};

/// How far a farm is.
#[derive(Clone, Copy, Debug, PartialEq, Eq)]
pub enum Stage {
    /// Its page is not open yet, if it has one.
    Starting,
    /// Its files are read, and its page is open if it has one.
    Ready,
    /// It has to end: workers finish their jobs.
    Stopping,
}

impl Stage {
    /// What somebody is told of a farm that is so far, who knows it at an earlier stage, or at this one: each stage once.
    pub fn news_for(self, known: Stage) -> Option<Notice>
        ensures { result ≡ spec.news known self }
    {
        match (known, self) {
            (Stage::Starting, Stage::Ready) => Some(Notice::Ready),
            (Stage::Starting | Stage::Ready, Stage::Stopping) => Some(Notice::Stopping),
            _ => None,
        }
    }
}

/// The service manager of a farm, and what it knows of it. What it could not be told, as if it takes nothing now, it is told the next time.
#[derive(Drop)]
pub struct FarmManager {
    manager: ServiceManager,
    wants_signs: bool,
    known: Mutex<Stage>,
}

impl FarmManager {
    /// This service manager, which knows of a farm only that it was started. It may want signs of life.
    pub fn new(manager: ServiceManager, wants_signs: bool) -> FarmManager {
        FarmManager {
            manager,
            wants_signs,
            known: Mutex::new(Stage::Starting),
        }
    }

    /// The one that the environment names. None if it names none. One whose WATCHDOG_USEC is no number may want signs of life.
    pub fn of_environment<R: Env + Alloc>(rt: &R) -> Result<Option<FarmManager>, ManagerError> {
        let Some(manager) = ServiceManager::of_environment(rt)? else {
            return Ok(None);
        };
        let wants_signs = !matches!(watchdog_of(rt), Ok(None));
        Ok(Some(FarmManager::new(manager, wants_signs)))
    }

    /// The farm is so far: tells it what it does not know yet.
    pub fn note<R: Wait>(&self, rt: &R, stage: Stage) {
        let mut known = self.known.lock(rt);
        let Some(notice) = stage.news_for(*known) else {
            return;
        };
        if self.manager.tell(notice).is_ok() {
            *known = stage;
        }
    }

    /// The farm is alive: tells it so, if it wants to be told.
    pub fn note_alive(&self) {
        if self.wants_signs {
            drop(self.manager.tell(Notice::Alive));
        }
    }
}

//! Chapters of the history.
ghost use Rattle.pool_core.specs.Calls.{EndsChapter};

use super::Pool;
use crate::error::ChapterError;
use crate::event::Chapter;
use worker_state::MAX_CHAPTERS;

impl Pool {
    /// Hands out all events since the last chapter ended. The state is the base of the next chapter: slots, orders, load, jobs,
    /// previous plan and rounds go on, and what is owed stays owed, with room made for it. This is no event.
    ///
    /// Refused, in this order, as `ChaptersUsed` or `Memory`.
    pub fn end_chapter(&mut self) -> Result<Chapter, ChapterError>
        ensures { EndsChapter self.old self.new result }
    {
        if self.chapters == MAX_CHAPTERS {
            return Err(ChapterError::ChaptersUsed);
        }
        let mut fresh = Vec::new(self.alloc);
        fresh.reserve(self.owed as usize)?;
        let number = self.chapters + 1;
        let events = std::mem::replace(&mut self.events, fresh);
        self.chapters = number;
        Ok(Chapter { number, events })
    }
}

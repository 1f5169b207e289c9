//! Whether more workers may start: each takes two files, and an attempt needs one for the status.

ghost use Rattle.std.specs.Prelude.{◌+◌, ◌*◌, ◌<◌, ◌≤◌};

use crate::waits::{Lack, lacking_again};
use std::sync::{Mutex, Wait};

/// How many files a worker takes: one for its link to the job server, and one for the connection to its service.
const OF_WORKER: u32 = 2;

/// How many files workers leave free beside those for the peers of the page: one for the status of an attempt, and some for look-ups. Those
/// that dial a host again take some of these for a moment.
const LEFT_FREE: u32 = 8;

/// For how many workers files are looked for first in an attempt, and then for twice as many each time. In the first attempt, in which all
/// start, it begins with all.
const FIRST_LOOK: u32 = 8;

/// What is new of the files.
#[derive(Clone, Copy, Debug, PartialEq, Eq)]
pub enum FileNews {
    /// A worker could not start for want of files, and before that none was held back.
    Lacking,
    /// Workers could start again, and none was held back.
    Present,
}

impl FileNews {
    /// Its line.
    pub fn line(self) -> &'static str {
        match self {
            FileNews::Lacking => "lacksfiles",
            FileNews::Present => "hasfiles",
        }
    }
}

/// How many workers may start if so many files are free, and so many of those that started have a connection to open yet, beside so many
/// peers of the page.
fn workers_for(free: u32, opening: u32, peers: u32) -> u32
    ensures leaves { 0 < result → 2 * result + opening + peers + 8 ≤ free }
    ensures no_more_fit { free < 2 * result + opening + peers + 10 }
{
    let left = free.saturating_sub(LEFT_FREE).saturating_sub(peers);
    left.saturating_sub(opening) / OF_WORKER
}

/// How many files so many workers need to start beside those that have a connection to open yet, and beside so many peers of the page.
fn files_for(workers: u32, opening: u32, peers: u32) -> u32 {
    workers
        .saturating_mul(OF_WORKER)
        .saturating_add(opening)
        .saturating_add(peers)
        .saturating_add(LEFT_FREE)
}

/// What became of the workers that wanted to start in an attempt.
#[derive(Clone, Copy, Debug, PartialEq, Eq)]
enum Starts {
    /// None wanted to.
    Untried,
    /// Each could.
    AllCould,
    /// At least one could not.
    SomeCouldNot,
}

/// What is known of the files in this attempt.
#[derive(Drop)]
struct Known {
    /// The number of the attempt that is made now, from 1.
    attempt: u64,
    /// The lack of files at the last look, if a worker could not start after it.
    lack: Option<Lack>,
    /// How many peers the page may have at once.
    peers: u32,
    /// How many workers have started.
    started: u64,
    /// How many of them have opened a connection to their service, or could not.
    opened: u64,
    /// How many may start before files are looked for again.
    may_start: u32,
    /// For how many workers files are looked for then. None if there are no more in this attempt.
    next_look: Option<u32>,
    /// What became of those that wanted to start.
    starts: Starts,
    /// Whether files were lacking in the last attempt that says so.
    are_lacking: bool,
}

impl Known {
    /// How many workers have a connection to open yet.
    fn opening(&self) -> u32 {
        let opening = self.started.saturating_sub(self.opened);
        u32::try_from(opening).unwrap_or(u32::MAX)
    }

    /// Whether files may be looked for in this attempt. While they lack a look takes all that are free, and what dials just then gets none.
    fn may_look(&self) -> bool {
        match self.lack {
            None => true,
            Some(lack) => lack.is_due(self.attempt),
        }
    }

    /// How many files to look for before one more worker starts. None if that is known, or if it is not time for a look.
    fn files_to_find(&self) -> Option<u32> {
        if self.may_start > 0 || !self.may_look() {
            return None;
        }
        let workers = self.next_look?;
        Some(files_for(workers, self.opening(), self.peers))
    }

    /// So many files were looked for, and so many are free.
    fn note_found(&mut self, most: u32, free: u32) {
        let Some(workers) = self.next_look else {
            return;
        };
        // As many as before the look: a connection that is opened during it may be after the file was counted as free.
        let opening = most.saturating_sub(files_for(workers, 0, self.peers));
        self.may_start = workers_for(free, opening, self.peers);
        self.next_look = if free >= most {
            Some(workers.saturating_mul(2))
        } else {
            None
        };
    }

    /// One more worker asks to start. Whether it may.
    fn ask_to_start(&mut self) -> bool {
        let may_start = self.may_start > 0;
        if !may_start {
            self.starts = Starts::SomeCouldNot;
        } else if self.starts == Starts::Untried {
            self.starts = Starts::AllCould;
        }
        may_start
    }

    /// What is new after the attempt.
    fn news(&self) -> Option<FileNews> {
        match (self.are_lacking, self.starts) {
            (false, Starts::SomeCouldNot) => Some(FileNews::Lacking),
            (true, Starts::AllCould) => Some(FileNews::Present),
            _ => None,
        }
    }

    /// The lack of files after this attempt. One without a look says nothing new of it.
    fn lack_after(&self) -> Option<Lack> {
        match self.starts {
            Starts::AllCould => None,
            Starts::SomeCouldNot if self.may_look() => {
                Some(lacking_again(self.lack, self.attempt))
            }
            Starts::SomeCouldNot | Starts::Untried => self.lack,
        }
    }

    /// The next attempt begins.
    fn begin_attempt(&mut self) {
        self.lack = self.lack_after();
        self.attempt = self.attempt.saturating_add(1);
        self.may_start = 0;
        self.next_look = Some(FIRST_LOOK);
        self.starts = Starts::Untried;
    }
}

/// Whether there are files for more workers. What is free is looked up by opening as many and closing them again, for several workers at
/// once, so that this takes each of them little. While files lack they are looked for after 1, 2, 4 .. attempts, and 64 at most, and once a
/// worker has ended.
#[derive(Drop)]
pub struct FileRoom {
    known: Mutex<Known>,
}

impl FileRoom {
    /// That of a farm before its first attempt, in which so many workers start at most. Its page may have so many peers at once.
    pub fn new(workers: u32, peers: u32) -> FileRoom {
        FileRoom {
            known: Mutex::new(Known {
                attempt: 1,
                lack: None,
                peers,
                started: 0,
                opened: 0,
                may_start: 0,
                next_look: Some(workers.max(1)),
                starts: Starts::Untried,
                are_lacking: false,
            }),
        }
    }

    /// How many files to look for before one more worker starts. None if what is known is enough to say whether it may.
    pub fn files_to_find<R: Wait>(&self, rt: &R) -> Option<u32> {
        self.known.lock(rt).files_to_find()
    }

    /// So many files were looked for, and so many are free.
    pub fn note_found<R: Wait>(&self, rt: &R, most: u32, free: u32) {
        self.known.lock(rt).note_found(most, free);
    }

    /// One more worker asks to start. Whether it may.
    pub fn ask_to_start<R: Wait>(&self, rt: &R) -> bool {
        self.known.lock(rt).ask_to_start()
    }

    /// A worker has started, and has its link to the job server.
    pub fn note_start<R: Wait>(&self, rt: &R) {
        let mut held = self.known.lock(rt);
        held.started = held.started.saturating_add(1);
        held.may_start = held.may_start.saturating_sub(1);
    }

    /// A worker has opened a connection to its service, or could not. It may come before it is told that the worker has started.
    pub fn note_opening<R: Wait>(&self, rt: &R) {
        let mut held = self.known.lock(rt);
        held.opened = held.opened.saturating_add(1);
    }

    /// A worker has ended, and its files are free: one more may start, beside those for which files were found.
    pub fn note_end<R: Wait>(&self, rt: &R) {
        let mut held = self.known.lock(rt);
        held.may_start = held.may_start.saturating_add(1);
        let attempt = held.attempt;
        if let Some(lack) = held.lack {
            held.lack = Some(lack.due_now(attempt));
        }
    }

    /// Whether workers could not start for want of files in the last attempt that says so.
    pub fn is_lacking<R: Wait>(&self, rt: &R) -> bool {
        self.known.lock(rt).are_lacking
    }

    /// The attempt is over, and the next begins. What is new of the files after it.
    pub fn begin_attempt<R: Wait>(&self, rt: &R) -> Option<FileNews> {
        let mut held = self.known.lock(rt);
        let news = held.news();
        if let Some(news) = news {
            held.are_lacking = news == FileNews::Lacking;
        }
        held.begin_attempt();
        news
    }
}

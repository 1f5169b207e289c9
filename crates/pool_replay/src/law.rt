//! Laws of the commands, as functions that do nothing when they run.
ghost use Rattle.pool_replay.specs.Law.{CommandsAreCalls, TranscriptsAreHistories};

/// A law: whatever a command prints, it leaves the pool as it was or is one event of the pool's machine; but for `chapter`, which
/// leaves the pool as it was or ends the chapter of its history. So the laws over histories of the pool hold of each run.
pub fn commands_are_calls()
    ensures { CommandsAreCalls }
{}

/// A law: a whole transcript is a history of the pool's machine, which leads from the pool where it began to the pool where it
/// ends. The events that the pool had before, and after them those of this history, are the events of the chapters that have
/// ended, which were handed out, and then those of the pool. No chapter ends but by a line `chapter`: without one the history is
/// the events that the pool has gained.
pub fn transcripts_are_histories()
    ensures { TranscriptsAreHistories }
{}

//! Laws of the command lines, as functions that do nothing when they run.

ghost use Rattle.pool_commands.specs.Law.{AreCausesReadBack, AreWorkersReadBack};

/// A law: under any settings, the name of a slot's worker, `#` and a generation from 1 to 262,143 in decimal are read as that
/// worker of that slot. So what is printed of a worker can be typed, and no two workers are printed alike.
pub fn workers_read_back()
    ensures { AreWorkersReadBack }
{}

/// A law: the name of each cause is read as that cause, but that of `Unserved`, which is read as none.
pub fn causes_read_back()
    ensures { AreCausesReadBack }
{}

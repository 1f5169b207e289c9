//! Laws of sizes, as functions that do nothing when they run.

ghost use Rattle.plan_sizing.specs.Shown.{Right, Shown};
ghost use Rattle.plan_sizing.specs.Sizing.{NeedsAreFewest};

use crate::farm::Farm;
use crate::size::Size;

/// The law of the checker: an addition that is shown has a plan that serves, and no smaller one has; if the size says that no addition
/// serves, none does, and if it says that too many workers have to be added, each addition that serves has so many at least. It does
/// nothing when it runs.
pub fn shown_is_right(farm: &Farm, size: &Size)
    requires { Shown farm.now size.now }
    ensures { Right farm.now size.now }
{
    farm.facts();
}

/// The law of needs, which does nothing when it runs: from its need on, and with no fewer workers, a function has its least number, and all
/// that waits for it costs no more than the level.
pub fn needs_are_fewest(farm: &Farm)
    ensures { NeedsAreFewest farm.now }
{
    farm.facts();
}

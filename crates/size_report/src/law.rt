//! Laws of the texts of sizes, as functions that do nothing when they run.

ghost use Rattle.std.specs.Prelude.{◌≡◌, ◌<◌, ◌^◌, All, Ok, length};
ghost use Rattle.pool_settings.specs.Slots.{slots};
ghost use Rattle.plan_sizing.specs.Shown.{Shown};
ghost use Rattle.plan_sizing.specs.declared.size.Size.TheVariants.{Enough, Never, TooMany};
ghost use Rattle.size_report.specs.Grammar.{AreTextsSizes};
ghost use Rattle.size_report.specs.Law.{IsReadBack, retold};
ghost use Rattle.size_report.specs.Reading.{size_meaning};
ghost use Rattle.size_report.specs.Text.{size_text};

use plan_model::{FuncSet, Plan};
use plan_sizing::{Addition, Farm, Obstacle, Size};
use pool_settings::Settings;

/// Each of these numbers is below 2^32, by its type.
fn are_small(numbers: &[u32])
    ensures { All (λ n. n < 2 ^ 32) numbers.now }
{
    let _many = numbers.len();
}

fn never_reads_back(settings: &Settings, farm: &Farm, obstacle: Obstacle)
    requires functions { length farm.now.problem.least ≡ length settings.now.functions }
    requires shown { Shown farm.now (Never obstacle) }
    ensures { IsReadBack settings.now farm.now (Never obstacle) }
{
    settings.facts();
    farm.facts();
    are_small(farm.input().least());
    are_small(farm.input().most());
}

fn too_many_reads_back(settings: &Settings, farm: &Farm, added: u64, short: &FuncSet)
    requires functions { length farm.now.problem.least ≡ length settings.now.functions }
    requires shown { Shown farm.now (TooMany added short.now) }
    ensures { IsReadBack settings.now farm.now (TooMany added short.now) }
{
    settings.facts();
    farm.facts();
    are_small(farm.input().least());
}

fn enough_reads_back(
    settings: &Settings,
    farm: &Farm,
    added: &Addition,
    plan: &Plan,
    short: &Option<FuncSet>,
)
    requires of_these { farm.now.problem.may ≡ settings.now.may }
    requires slots { farm.now.slots ≡ slots settings.now }
    requires functions { length farm.now.problem.least ≡ length settings.now.functions }
    requires shown { Shown farm.now (Enough added.now plan.now short.now) }
    ensures { IsReadBack settings.now farm.now (Enough added.now plan.now short.now) }
{
    settings.facts();
    farm.facts();
    are_small(farm.input().least());
    let _machines = added.machines();
    let _entries = plan.entries();
}

/// The law of the text of a size, which does nothing that is seen: the text of a size that is shown, for a farm with the permissions, the
/// workers and the functions of these settings, means this very size, with its plan listed for the workers that have a function. That
/// size is shown too, and has the same text. So what [`size_text`](crate::size_text) wrote, [`read_size`](crate::read_size) reads as a
/// size that [`check_size`](plan_sizing::check_size) finds nothing wrong with, and whose text it is.
pub fn size_reads_back(settings: &Settings, farm: &Farm, size: &Size)
    requires of_these { farm.now.problem.may ≡ settings.now.may }
    requires slots { farm.now.slots ≡ slots settings.now }
    requires functions { length farm.now.problem.least ≡ length settings.now.functions }
    requires shown { Shown farm.now size.now }
    ensures same { size_meaning settings.now (size_text settings.now farm.now size.now) ≡ Ok (retold size.now) }
    ensures shown { Shown farm.now (retold size.now) }
    ensures text { size_text settings.now farm.now (retold size.now) ≡ size_text settings.now farm.now size.now }
{
    match size {
        Size::Enough { added, plan, short } => {
            enough_reads_back(settings, farm, added, plan, short)
        }
        Size::Never(obstacle) => never_reads_back(settings, farm, *obstacle),
        Size::TooMany { added, short } => too_many_reads_back(settings, farm, *added, short),
    }
}

/// The law of the whole text, which does nothing that is seen: a text means a size exactly if it is a text of that size, line by line, by
/// the names of the settings and in rising order. So [`read_size`](crate::read_size) takes exactly the texts of sizes.
pub fn texts_are_sizes(settings: &Settings)
    ensures { AreTextsSizes settings.now }
{
    settings.facts();
}

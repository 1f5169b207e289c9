//! The farm that settings and a planning problem of theirs make.

ghost use Rattle.std.specs.Prelude.{◌≡◌, IfOk, Some, option_map};
ghost use Rattle.std.specs.Int.NonZero.{non_zero_u32_get};
ghost use Rattle.toml.specs.Data.{Members};
ghost use Rattle.toml.specs.View.{table_view};
ghost use Rattle.pool_report.specs.Law.{IsOf};
ghost use Rattle.pool_settings.specs.Reading.{tree_of};
ghost use Rattle.size_command.specs.Farms as spec;

use live_size::Unbounded;
use plan_commands::Problem;
use plan_sizing::Farm;
use pool_settings::SettingsFile;
use std::alloc::{AllocError, Global};
use std::num::NonZeroU32;

/// The farm of a problem of the settings in a file.
fn farm_in(
    alloc: Global,
    file: &SettingsFile,
    problem: &Problem,
    level: Option<NonZeroU32>,
) -> Result<Farm, AllocError>
    requires { IsOf problem.now.settings problem.now.input }
    ensures { IfOk result
        (λ farm. farm ≡ spec.farm_of (table_view file.now.tree) problem.now (option_map non_zero_u32_get level)) }
{
    let settings = &problem.settings;
    let unbounded = Unbounded::of(alloc, file, settings)?;
    live_size::farm_of(alloc, settings, &unbounded, &problem.input, level)
}

/// The farm of a problem that the text of a settings file poses. The text is read once more, for the greatest numbers that it leaves out;
/// since it has settings, only memory can be refused now.
pub fn farm_of(
    alloc: Global,
    settings_text: &[u8],
    problem: &Problem,
    level: Option<NonZeroU32>,
) -> Result<Farm, AllocError>
    requires { IsOf problem.now.settings problem.now.input }
    ensures { IfOk result (λ farm. (tree : Members) × (tree_of settings_text.now ≡ Some tree)
        × (farm ≡ spec.farm_of tree problem.now (option_map non_zero_u32_get level))) }
{
    match SettingsFile::read(alloc, settings_text) {
        Ok(file) => farm_in(alloc, &file, problem, level),
        Err(_) => Err(AllocError),
    }
}

//! The farm of settings, and whether a plan meets its least numbers.

ghost use Rattle.std.specs.Prelude.{◌≡◌, IfOk};
ghost use Rattle.settings_command.specs.Farm as spec;

use bumpalo::Bump;
use level_search::solve;
use plan_model::{Answer, FuncSet, Input};
use pool_settings::Settings;
use std::alloc::{AllocError, Global};

/// A greatest number that no number of workers is above.
const NO_MOST: u32 = u32::MAX;

/// The planning problem of the settings if all workers live, nothing waits, and only the least numbers ask something.
pub fn farm_of(alloc: Global, settings: &Settings) -> Result<Input, AllocError>
    ensures { IfOk result (λ farm. farm ≡ spec.farm settings.now) }
{
    let functions = settings.functions() as usize;
    let live = vec![in alloc; true; settings.slots() as usize]?;
    let most = vec![in alloc; NO_MOST; functions]?;
    let waiting = vec![in alloc; 0; functions]?;
    let input = settings.input(alloc, &live, &waiting)?;
    input.facts();
    Input::of_taken(
        alloc,
        input.live(),
        settings.rows(),
        input.least(),
        &most,
        &waiting,
    )
}

/// The set by which an answer shows that there is no plan, if it does.
fn set_of(answer: Answer) -> Option<FuncSet>
    ensures { result ≡ spec.set_of answer }
{
    match answer {
        Answer::Planned { .. } => None,
        Answer::NoPlan { short } => Some(short),
    }
}

/// A set of functions whose least numbers are more than the workers that may do any of them, if no plan meets the least numbers.
pub fn short_set(
    alloc: Global,
    settings: &Settings,
    farm: &Input,
) -> Result<Option<FuncSet>, AllocError>
    requires { farm.now ≡ spec.farm settings.now }
    ensures { IfOk result (λ short. spec.IsShown settings.now short) }
{
    settings.facts();
    farm.facts();
    let bump = Bump::new(alloc);
    let solved = solve(alloc, &bump, farm, None)?;
    Ok(set_of(solved.answer))
}

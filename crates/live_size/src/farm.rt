//! The farm of an attempt: the problem that it planned for, with the greatest numbers of a farm that may grow.

ghost use Rattle.std.specs.Prelude.{◌≡◌, ◌<◌, IfOk, IfSome, length, option_map};
ghost use Rattle.std.specs.Int.NonZero.{non_zero_u32_get};
ghost use Rattle.pool_report.specs.Law.{IsOf};
ghost use Rattle.live_size.specs.Farms as spec;

use crate::unbounded::Unbounded;
use plan_model::{FuncId, Input};
use plan_sizing::Farm;
use pool_settings::Settings;
use std::alloc::{AllocError, Global};
use std::num::NonZeroU32;

/// A greatest number that no need is above.
const NO_MOST: u32 = u32::MAX;

/// The greatest number of the function of this number, however many workers are added.
fn most_of(unbounded: &Unbounded, input: &Input, number: u32) -> u32
    requires { number < length input.now.least }
    ensures { result ≡ spec.most_of unbounded.now input.now number }
{
    input.facts();
    if unbounded.contains(FuncId::new(number)) {
        NO_MOST
    } else {
        input.most()[number as usize]
    }
}

fn most_numbers(alloc: Global, unbounded: &Unbounded, input: &Input) -> Result<Vec<u32>, AllocError>
    ensures { IfOk result (λ most. most.items ≡ spec.most_numbers unbounded.now input.now) }
{
    input.facts();
    let mut most = Vec::new(alloc);
    for number in 0..input.functions() as u32 {
        most.push(most_of(unbounded, input, number))?;
    }
    Ok(most)
}

/// The same problem with other greatest numbers.
fn with_most(
    alloc: Global,
    settings: &Settings,
    input: &Input,
    most: &[u32],
) -> Result<Input, AllocError>
    requires of_these { IsOf settings.now input.now }
    requires paired { length most.now ≡ length input.now.least }
    ensures { IfOk result (λ made. made ≡ spec.with_most input.now most.now) }
{
    input.facts();
    Input::of_taken(
        alloc,
        input.live(),
        settings.rows(),
        input.least(),
        most,
        input.waiting(),
    )
}

fn level_of(level: Option<NonZeroU32>) -> Option<u32>
    ensures number { result ≡ option_map non_zero_u32_get level }
    ensures some { IfSome result (λ level. 0 < level) }
{
    match level {
        Some(level) => Some(level.get()),
        None => None,
    }
}

/// The farm that is sized for a problem of these settings: its live workers and its waiting jobs, with as many slots as the settings have
/// workers, lost ones too. A greatest number stays what it is, but for the functions that have none of their own: theirs grows with the
/// farm. The level is how many jobs may wait for each worker of a function; without one any plan will do. The only error is out of memory.
pub fn farm_of(
    alloc: Global,
    settings: &Settings,
    unbounded: &Unbounded,
    input: &Input,
    level: Option<NonZeroU32>,
) -> Result<Farm, AllocError>
    requires of_these { IsOf settings.now input.now }
    ensures farm { IfOk result
        (λ farm. farm ≡ spec.farm_of settings.now unbounded.now input.now (option_map non_zero_u32_get level)) }
{
    settings.facts();
    input.facts();
    let most = most_numbers(alloc, unbounded, input)?;
    let problem = with_most(alloc, settings, input, &most)?;
    Ok(Farm::of(problem, settings.slots(), level_of(level)))
}

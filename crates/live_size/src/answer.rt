//! What the size of an attempt's farm says, with the text that shows it.

ghost use Rattle.std.specs.Prelude.{◌≡◌, IfOk, Some};
ghost use Rattle.std.specs.Int.NonZero.{non_zero_u32_get};
ghost use Rattle.pool_report.specs.Law.{IsOf};
ghost use Rattle.live_size.specs.Answers as spec;
ghost use Rattle.live_size.specs.Farms.{farm_of};

use crate::farm::farm_of;
use crate::missing::Missing;
use crate::unbounded::Unbounded;
use bumpalo::Bump;
use plan_model::Input;
use plan_sizing::{Farm, find_size};
use pool_settings::Settings;
use size_report::{size_reads_back, size_text};
use std::alloc::{AllocError, Global};
use std::marker::Model;
use std::num::NonZeroU32;

/// How many workers a farm is short of at one attempt: what is missing, and the text of the size. Of what a lock guards only the type is
/// known, so the type says that both are of one size that is shown.
#[derive(Debug, Drop)]
pub struct LiveSize {
    missing: Missing,
    text: Vec<u8>,
}

impl Model for LiveSize {
    ghost use Rattle.live_size.specs.Answers as meant;

    ghost Value = { meant.Answer };

    ghost view = { λ a. record { missing = a.missing; text = a.text.items } };

    ghost invariant = { λ a. meant.IsOfAFarm (record { missing = a.missing; text = a.text.items }) };
}

/// What the size of a farm of these settings says.
pub(crate) fn size_of(
    alloc: Global,
    settings: &Settings,
    farm: &Farm,
) -> Result<LiveSize, AllocError>
    requires { spec.IsFarmOf settings.now farm.now }
    ensures { IfOk result (spec.IsSizeOf settings.now farm.now) }
{
    settings.facts();
    farm.facts();
    let bump = Bump::new(alloc);
    let size = find_size(alloc, &bump, farm)?;
    size_reads_back(settings, farm, &size);
    let missing = Missing::of(alloc, settings, farm, &size)?;
    let text = size_text(alloc, settings, farm, &size)?;
    Ok(LiveSize {
        missing,
        text: text.into_bytes(),
    })
}

impl LiveSize {
    /// How many workers a farm of these settings is short of at an attempt that plans for this problem, so that no more jobs wait for each
    /// worker of a function than the wanted backlog. It is the size of these live workers and these waiting jobs. All that waits for a
    /// function counts, even if no live worker may do it, and so do least numbers that a plan in force leaves out. `unbounded` has the
    /// functions for which the settings file gives no greatest number. The only error is out of memory.
    pub fn of(
        alloc: Global,
        settings: &Settings,
        unbounded: &Unbounded,
        input: &Input,
        backlog: NonZeroU32,
    ) -> Result<LiveSize, AllocError>
        requires of_these { IsOf settings.now input.now }
        ensures size { IfOk result
            (spec.IsSizeOf settings.now (farm_of settings.now unbounded.now input.now (Some (non_zero_u32_get backlog)))) }
    {
        let farm = farm_of(alloc, settings, unbounded, input, Some(backlog))?;
        size_of(alloc, settings, &farm)
    }

    /// How many workers are missing, by machine, or why no addition helps.
    pub fn missing(&self) -> &Missing
        ensures missing { result.now ≡ self.now.missing }
        ensures shown { spec.IsOfAFarm self.now }
    {
        &self.missing
    }

    /// The text of the size, as `poolman size` would write it.
    pub fn text(&self) -> &[u8]
        ensures text { result.now ≡ self.now.text }
        ensures shown { spec.IsOfAFarm self.now }
    {
        &self.text
    }

    /// The same again. The only error is out of memory.
    pub fn copy(&self, alloc: Global) -> Result<LiveSize, AllocError>
        ensures { IfOk result (λ copy. copy ≡ self.now) }
    {
        Ok(LiveSize {
            missing: self.missing.copy(alloc)?,
            text: Vec::from_slice(alloc, &self.text)?,
        })
    }
}

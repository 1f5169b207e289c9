//! The farm of an attempt, kept until its size is asked for.

ghost use Rattle.std.specs.Prelude.{◌≡◌, IfOk, Some};
ghost use Rattle.std.specs.Int.NonZero.{non_zero_u32_get};
ghost use Rattle.pool_report.specs.Law.{IsOf};
ghost use Rattle.live_size.specs.Answers as spec;
ghost use Rattle.live_size.specs.Farms.{farm_of};

use crate::answer::{LiveSize, size_of};
use crate::farm::farm_of;
use crate::unbounded::Unbounded;
use plan_model::Input;
use plan_sizing::Farm;
use pool_settings::Settings;
use std::alloc::{AllocError, Global};
use std::marker::Model;
use std::num::NonZeroU32;

/// The farm of an attempt with its settings, so that its size can be found later, when nobody waits for the plan. Of what a lock guards
/// only the type is known, so the type says that the farm is one of these settings.
#[derive(Drop)]
pub struct PosedSize {
    settings: Settings,
    farm: Farm,
}

impl Model for PosedSize {
    ghost use Rattle.live_size.specs.Answers as meant;

    ghost Value = { meant.Posed };

    ghost view = { λ p. record { settings = p.settings; farm = p.farm } };

    ghost invariant = { λ p. meant.IsFarmOf p.settings p.farm };
}

impl PosedSize {
    /// The farm of these settings that [`LiveSize::of`] finds the size of. The only error is out of memory.
    pub fn of(
        alloc: Global,
        settings: &Settings,
        unbounded: &Unbounded,
        input: &Input,
        backlog: NonZeroU32,
    ) -> Result<PosedSize, AllocError>
        requires of_these { IsOf settings.now input.now }
        ensures settings { IfOk result (λ posed. posed.settings ≡ settings.now) }
        ensures farm { IfOk result
            (λ posed. posed.farm ≡ farm_of settings.now unbounded.now input.now (Some (non_zero_u32_get backlog))) }
    {
        let farm = farm_of(alloc, settings, unbounded, input, Some(backlog))?;
        Ok(PosedSize {
            settings: settings.copy(alloc)?,
            farm,
        })
    }

    /// The size of the farm. The only error is out of memory.
    pub fn size(&self, alloc: Global) -> Result<LiveSize, AllocError>
        ensures { IfOk result (spec.IsSizeOf self.now.settings self.now.farm) }
    {
        size_of(alloc, &self.settings, &self.farm)
    }
}

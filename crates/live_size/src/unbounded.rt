//! The functions for which a settings file gives no greatest number.

ghost use Rattle.std.specs.Prelude.{◌≡◌, ◌<◌, IfOk, false, length, slice_index_or};
ghost use Rattle.toml.specs.View.{table_view};
ghost use Rattle.live_size.specs.Farms as spec;

use plan_model::{FuncId, is_marked};
use pool_settings::{Settings, SettingsFile};
use std::alloc::{AllocError, Global};
use std::marker::Model;

/// The functions for which a settings file gives no greatest number. Their greatest number is that of all workers, so it grows if workers
/// are added; `Settings` alone does not show which they are. Contracts see a mark for each function.
#[derive(Debug, Drop)]
pub struct Unbounded {
    marks: Vec<bool>,
}

impl Model for Unbounded {
    ghost use Rattle.std.specs.Prelude.{Bool, List};

    ghost Value = { List Bool };

    ghost view = { λ a. a.marks.items };
}

/// Whether the file gives no greatest number of the function of this number.
fn is_unbounded(file: &SettingsFile, settings: &Settings, number: u32) -> bool
    requires { number < length settings.now.functions }
    ensures { result ≡ spec.is_unbounded (table_view file.now.tree) settings.now number }
{
    let name = settings.function_name(FuncId::new(number));
    !file.function_has_key(name, "most")
}

/// A mark for each function, whether the file gives it no greatest number.
fn marks_of(
    alloc: Global,
    file: &SettingsFile,
    settings: &Settings,
) -> Result<Vec<bool>, AllocError>
    ensures { IfOk result (λ marks. marks.items ≡ spec.unbounded_in (table_view file.now.tree) settings.now) }
{
    let mut marks = Vec::new(alloc);
    for number in 0..settings.functions() {
        marks.push(is_unbounded(file, settings, number))?;
    }
    Ok(marks)
}

impl Unbounded {
    /// Those of the settings in this file. The only error is out of memory.
    pub fn of(
        alloc: Global,
        file: &SettingsFile,
        settings: &Settings,
    ) -> Result<Unbounded, AllocError>
        ensures { IfOk result (λ unbounded. unbounded ≡ spec.unbounded_in (table_view file.now.tree) settings.now) }
    {
        let marks = marks_of(alloc, file, settings)?;
        Ok(Unbounded { marks })
    }

    /// Whether the function is one of them. A function that the settings do not have is none.
    pub fn contains(&self, function: FuncId) -> bool
        ensures { result ≡ slice_index_or self.now function false }
    {
        is_marked(&self.marks, function.number())
    }
}

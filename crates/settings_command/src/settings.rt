//! The command `settings`: from a settings file to what it means, or to where its first fault is.

ghost use Rattle.std.specs.Prelude.{◌≡◌, ◌-◌, ◌^◌, ◌<◌, IfOk, string_bytes};
ghost use Rattle.plan_commands.specs.Mistake.{mistake_view};
ghost use Rattle.pool_settings.specs.Place.{place_view};
ghost use Rattle.settings_command.specs.Place.{line_of_place};
ghost use Rattle.settings_command.specs.Told as spec;
ghost use Rattle.toml.specs.View.{table_view};

use crate::farm_remarks::push_run_remarks;
use crate::meaning::meaning_text;
use crate::place::place_text;
use byte_io::Sink;
use plan_commands::{Exit, Fault, Mistake, deliver};
use pool_settings::{Place, Settings, SettingsError, SettingsFault, SettingsFile};
use std::alloc::{AllocError, Global};

/// What settings mean, and what a farm of them cannot do under `run`.
fn whole_text(alloc: Global, settings: &Settings, file: &SettingsFile) -> Result<String, AllocError>
    ensures { IfOk result (λ text. spec.IsMeaning (table_view file.now.tree) settings.now (string_bytes text)) }
{
    let mut text = meaning_text(alloc, settings, file)?;
    push_run_remarks(&mut text, settings)?;
    Ok(text)
}

/// Writes what the settings of a file mean.
fn write_meaning<S: Sink>(
    alloc: Global,
    settings: &Settings,
    file: &SettingsFile,
    sink: &mut S,
) -> Exit
    requires { (S.output sink.old).failures < 2 ^ 64 - 1 }
    ensures { spec.Means (table_view file.now.tree) settings.now (S.output sink.old) (S.output sink.new) result }
{
    match whole_text(alloc, settings, file) {
        Ok(text) => deliver(sink, text.as_bytes(), Exit::answered(0)),
        Err(_) => Exit::refused(Fault::Memory),
    }
}

/// The line that says where a mistake is, and the mistake.
fn located(
    alloc: Global,
    settings_text: &[u8],
    error: SettingsError,
    place: &Place<&str>,
) -> Result<(String, Mistake), AllocError>
    ensures line { IfOk result (λ both. string_bytes both.0 ≡ line_of_place (place_view (λ t. t.now) place.now)) }
    ensures mistake { IfOk result (λ both. mistake_view both.1 ≡ (error, place_view (λ t. t.now) place.now)) }
{
    let line = place_text(alloc, place)?;
    let mistake = Mistake::new(alloc, error, place)?.with_found(alloc, settings_text);
    Ok((line, mistake))
}

/// Writes where the first fault of a file is, and ends by that fault.
fn locate<S: Sink>(
    alloc: Global,
    settings_text: &[u8],
    fault: &SettingsFault<'_>,
    sink: &mut S,
) -> Exit
    requires { (S.output sink.old).failures < 2 ^ 64 - 1 }
    ensures { spec.Locates fault.now (S.output sink.old) (S.output sink.new) result }
{
    match fault {
        SettingsFault::At(error, place) => match located(alloc, settings_text, *error, place) {
            Ok((line, mistake)) => deliver(
                sink,
                line.as_bytes(),
                Exit::refused(Fault::Settings(mistake)),
            ),
            Err(_) => Exit::refused(Fault::Memory),
        },
        SettingsFault::Memory => Exit::refused(Fault::Memory),
    }
}

/// Writes what a file means, or where its first fault is.
fn explain<S: Sink>(alloc: Global, settings_text: &[u8], file: &SettingsFile, sink: &mut S) -> Exit
    requires { (S.output sink.old).failures < 2 ^ 64 - 1 }
    ensures { spec.Explains (table_view file.now.tree) (S.output sink.old) (S.output sink.new) result }
{
    match file.settings(alloc) {
        Ok(settings) => write_meaning(alloc, &settings, file, sink),
        Err(fault) => locate(alloc, settings_text, &fault, sink),
    }
}

/// Reads settings as every command does, and writes what they mean, one fact a line, as [`crate::meaning_text`] has it, and then what
/// a farm of them cannot do, one remark a line. The exit status is 0 if they are taken. Settings that are not taken are the fault, and
/// one line says where it is, as [`crate::place_text`] has it. If memory was refused nothing is written. After a `WriteFault`, which
/// comes only if the sink failed, a prefix of the text was written and not all of it.
pub fn settings_text<S: Sink>(alloc: Global, settings_text: &[u8], sink: &mut S) -> Exit
    requires { (S.output sink.old).failures < 2 ^ 64 - 1 }
    ensures tells { spec.TellsSettings settings_text.now (S.output sink.old) (S.output sink.new) result }
{
    match SettingsFile::read(alloc, settings_text) {
        Ok(file) => explain(alloc, settings_text, &file, sink),
        Err(fault) => locate(alloc, settings_text, &fault, sink),
    }
}

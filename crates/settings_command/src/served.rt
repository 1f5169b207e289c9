//! The command `settings` with a services file: from both files to what they mean.

ghost use Rattle.std.specs.Prelude.{◌≡◌, ◌-◌, ◌^◌, ◌<◌, IfErr, IfOk, length, string_bytes};
ghost use Rattle.settings_command.specs.FarmTold as spec;
ghost use Rattle.toml.specs.View.{table_view};

use crate::farm_remarks::push_serve_remarks;
use crate::meaning::meaning_text;
use crate::services_meaning::push_services;
use byte_io::Sink;
use plan_commands::{
    Exit, Fault, deliver, read_services_file, read_settings_file, services_in, settings_in,
};
use pool_settings::{Settings, SettingsFile};
use service_settings::{Services, ServicesFile};
use std::alloc::{AllocError, Global};

/// What the settings and the services mean, and between them what a farm of the settings cannot do under `serve`.
fn whole_text(
    alloc: Global,
    settings: &Settings,
    file: &SettingsFile,
    services: &Services,
    services_file: &ServicesFile,
) -> Result<String, AllocError>
    requires machines { length services.now.urls ≡ length settings.now.machines }
    requires functions { length services.now.timeouts ≡ length settings.now.functions }
    ensures { IfOk result (λ text. spec.IsFarmMeaning (record {
      settings_tree = table_view file.now.tree;
      settings = settings.now;
      services_tree = table_view services_file.now.tree;
      services = services.now;
    }) (string_bytes text)) }
{
    let mut text = meaning_text(alloc, settings, file)?;
    push_serve_remarks(&mut text, settings)?;
    push_services(&mut text, settings, services, services_file)?;
    Ok(text)
}

/// What the texts of both files mean, or the first fault.
fn described(alloc: Global, settings_text: &[u8], services_text: &[u8]) -> Result<String, Fault>
    ensures ok { IfOk result (λ text. spec.IsFarmText settings_text.now services_text.now (string_bytes text)) }
    ensures refused { IfErr result (spec.RefusesFarm settings_text.now services_text.now) }
{
    let file = read_settings_file(alloc, settings_text)?;
    let settings = settings_in(alloc, settings_text, &file)?;
    let services_file = read_services_file(alloc, services_text)?;
    let services = services_in(alloc, &services_file, &settings)?;
    let text = whole_text(alloc, &settings, &file, &services, &services_file)?;
    Ok(text)
}

/// Reads settings and services as every command does, and writes what they mean, one fact a line: the settings as
/// [`crate::settings_text`] has them, but with the remark on `serve` for those on `run`; and then the version, `connect_ms`, the URL of
/// each machine, the time of each function and the page. The exit status is 0 if both are taken. The fault is the first mistake of the
/// settings, and if they are taken that of the services; then nothing is written, nor if memory was refused. After a `WriteFault`, which
/// comes only if the sink failed, a prefix of the text was written and not all of it.
pub fn farm_text<S: Sink>(
    alloc: Global,
    settings_text: &[u8],
    services_text: &[u8],
    sink: &mut S,
) -> Exit
    requires { (S.output sink.old).failures < 2 ^ 64 - 1 }
    ensures tells { spec.TellsFarm settings_text.now services_text.now (S.output sink.old) (S.output sink.new) result }
{
    match described(alloc, settings_text, services_text) {
        Ok(text) => deliver(sink, text.as_bytes(), Exit::answered(0)),
        Err(fault) => Exit::refused(fault),
    }
}

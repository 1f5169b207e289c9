//! A command, carried out on files and devices.

ghost use Rattle.std.specs.Prelude.{◌-◌, ◌^◌, ◌<◌, IfErr, IfOk, option_map};
ghost use Rattle.command_line.specs.Named.{named};
ghost use Rattle.devices.specs.Folder.{IsReadFile};
ghost use Rattle.byte_io.specs.Sides.{Meets, Met};
ghost use Rattle.program.specs.Carrying.{CarriesOut, DrainsFile, IsUnreadBoth, IsUnreadBy, ServesFiles, ShowsSettings};

use crate::lent::Lent;
use crate::page_calls::PageCalls;
use byte_io::{Sink, Source};
use command_line::Command;
use devices::{Folder, read_file};
use drain_command::drain_farm;
use plan_commands::{Exit, Fault, NamedFile, check_text, plan_text};
use replay_command::run_commands;
use run_command::run_rounds;
use serve_command::{FarmHost, FarmTexts, serve_farm};
use settings_command::{farm_text, settings_text};
use size_command::{Asked, check_size_text, size_of_texts};
use std::alloc::Global;

/// Carries out a command: reads its files, and then does what `plan_text`, `check_text`, `size_of_texts`, `check_size_text`,
/// `run_commands`, `settings_text`, `farm_text`, `run_rounds`, `serve_farm` or `drain_farm` says of them. A file that cannot be read is
/// reported before any fault of a text, and nothing is taken from the source or written then. `settings`, a run, a farm and a drain take
/// nothing from the source. A farm writes nothing to the sink: its host is told its lines.
pub fn carry_out<F: Folder, H: FarmHost, R: Source, S: Sink>(
    lent: Lent<'_, F, H>,
    command: &Command<'_>,
    source: &mut R,
    sink: &mut S,
) -> Exit
    requires source { (R.input source.old).failures < 2 ^ 64 - 1 }
    requires sink { (S.output sink.old).failures < 2 ^ 64 - 1 }
    ensures carries_out { (met : Met) × Meets (R.input source.old) met (R.input source.new)
        × CarriesOut (F.file lent.entry.files.now) (named command.now) met (S.output sink.old) (S.output sink.new) result }
{
    let alloc = lent.alloc;
    match command {
        Command::Plan { settings, lost } => match read_settings(lent, settings) {
            Ok(text) => plan_text(alloc, &text, lost, source, sink),
            Err(fault) => Exit::refused(fault),
        },
        Command::Check {
            settings,
            status,
            lost,
        } => match read_both(lent, settings, NamedFile::Status, status) {
            Ok((text, status)) => check_text(alloc, &text, &status, lost, source, sink),
            Err(fault) => Exit::refused(fault),
        },
        Command::Replay { settings } => match read_settings(lent, settings) {
            Ok(text) => run_commands(alloc, &text, source, sink),
            Err(fault) => Exit::refused(fault),
        },
        Command::Settings { settings, services } => {
            show_settings(lent, settings, *services, sink)
        }
        Command::Run { settings, rounds } => match read_settings(lent, settings) {
            Ok(text) => run_rounds(lent.host, alloc, &text, *rounds, sink),
            Err(fault) => Exit::refused(fault),
        },
        Command::Serve {
            settings,
            services,
            until_input: _until_input,
        } => serve(lent, settings, services),
        Command::Drain { services } => drain(lent, services, sink),
        Command::Size {
            settings,
            level,
            lost,
        } => match read_settings(lent, settings) {
            Ok(text) => size_of_texts(alloc, &text, *level, lost, source, sink),
            Err(fault) => Exit::refused(fault),
        },
        Command::CheckSize {
            settings,
            status,
            level,
            lost,
        } => match read_both(lent, settings, NamedFile::Status, status) {
            Ok((settings_text, status_text)) => {
                let asked = Asked {
                    settings: &settings_text,
                    status: &status_text,
                    level: *level,
                    lost,
                };
                check_size_text(alloc, asked, source, sink)
            }
            Err(fault) => Exit::refused(fault),
        },
    }
}

/// Writes what the settings file means, or both files if there is one of services.
fn show_settings<F: Folder, H, S: Sink>(
    lent: Lent<'_, F, H>,
    settings: &str,
    services: Option<&str>,
    sink: &mut S,
) -> Exit
    requires { (S.output sink.old).failures < 2 ^ 64 - 1 }
    ensures shows { ShowsSettings (F.file lent.entry.files.now) settings.now (option_map (λ t. t.now) services.entry)
        (S.output sink.old) (S.output sink.new) result }
{
    match services {
        None => match read_settings(lent, settings) {
            Ok(text) => settings_text(lent.alloc, &text, sink),
            Err(fault) => Exit::refused(fault),
        },
        Some(services) => match read_both(lent, settings, NamedFile::Services, services) {
            Ok((text, services)) => farm_text(lent.alloc, &text, &services, sink),
            Err(fault) => Exit::refused(fault),
        },
    }
}

/// Runs the farm of these files.
fn serve<F: Folder, H: FarmHost>(lent: Lent<'_, F, H>, settings: &str, services: &str) -> Exit
    ensures serves { ServesFiles (F.file lent.entry.files.now) settings.now services.now result }
{
    match read_both(lent, settings, NamedFile::Services, services) {
        Ok((settings, services)) => {
            let texts = FarmTexts {
                settings: &settings,
                services: &services,
            };
            serve_farm(lent.host, lent.alloc, texts)
        }
        Err(fault) => Exit::refused(fault),
    }
}

/// Ends the farm of this services file.
fn drain<F: Folder, H: FarmHost, S: Sink>(
    lent: Lent<'_, F, H>,
    services: &str,
    sink: &mut S,
) -> Exit
    requires { (S.output sink.old).failures < 2 ^ 64 - 1 }
    ensures drains { DrainsFile (F.file lent.entry.files.now) services.now (S.output sink.old) (S.output sink.new) result }
{
    match read_file(lent.files, lent.alloc, services) {
        Ok(text) => drain_farm(&PageCalls { host: lent.host }, lent.alloc, &text, sink),
        Err(error) => Exit::refused(Fault::of_file(NamedFile::Services, error)),
    }
}

/// The bytes of the settings file of this name.
fn read_settings<F: Folder, H>(lent: Lent<'_, F, H>, name: &str) -> Result<Vec<u8>, Fault>
    ensures whole { IfOk result (λ text. IsReadFile (F.file lent.entry.files.now name.now) text.items) }
    ensures err { IfErr result (IsUnreadBy NamedFile.Settings (F.file lent.entry.files.now name.now)) }
{
    match read_file(lent.files, lent.alloc, name) {
        Ok(text) => Ok(text),
        Err(error) => Err(Fault::of_file(NamedFile::Settings, error)),
    }
}

/// The bytes of the settings file and of another file, of these names, which are read one after the other.
fn read_both<F: Folder, H>(
    lent: Lent<'_, F, H>,
    settings: &str,
    file: NamedFile,
    name: &str,
) -> Result<(Vec<u8>, Vec<u8>), Fault>
    ensures settings { IfOk result (λ texts. IsReadFile (F.file lent.entry.files.now settings.now) texts.0.items) }
    ensures other { IfOk result (λ texts. IsReadFile (F.file lent.entry.files.now name.now) texts.1.items) }
    ensures err { IfErr result (IsUnreadBoth (F.file lent.entry.files.now) settings.now file name.now) }
{
    let settings_text = read_settings(lent, settings)?;
    match read_file(lent.files, lent.alloc, name) {
        Ok(text) => Ok((settings_text, text)),
        Err(error) => Err(Fault::of_file(file, error)),
    }
}

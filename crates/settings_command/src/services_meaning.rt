//! What services mean, as lines of one fact each.

ghost use Rattle.std.specs.Prelude.{◌≡◌, ◌++◌, ◌<◌, [], if◌then◌else◌, OnOk, length, map, option_map, string_bytes};
ghost use Rattle.std.specs.Int.NonZero.{non_zero_u32_get};
ghost use Rattle.std.specs.List.{flat_map};
ghost use Rattle.std.specs.Option.{option_map_or};
ghost use Rattle.toml.specs.View.{table_view};
ghost use Rattle.file_keys.specs.Keys.{key_view, keys_view};
ghost use Rattle.settings_command.specs.Meaning.{functions, machines};
ghost use Rattle.settings_command.specs.ServicesMeaning as spec;

use crate::meaning::mark;
use file_keys::Key;
use plan_model::{FuncId, MachineId};
use pool_settings::Settings;
use service_settings::{Page, Services, ServicesFile, TOP_KEYS};
use std::alloc::AllocError;
use std::fmt::Write;
use std::num::NonZeroU32;

fn push_number_line(out: &mut String, name: &str, number: u32, mark: &str) -> Result<(), AllocError>
    ensures { OnOk result (string_bytes out.new ≡ string_bytes out.old ++ spec.number_line name.now number mark.now) }
{
    write!(out, "services {name} {number}{mark}\n")
}

/// The number at a key of the top table, if it has one.
fn push_number(out: &mut String, file: &ServicesFile, key: &Key) -> Result<(), AllocError>
    ensures { OnOk result (string_bytes out.new ≡ string_bytes out.old ++ spec.key_line (table_view file.now.tree) (key_view key.now)) }
{
    let Some(number) = file.number(key) else {
        return Ok(());
    };
    let mark = mark(file.has_key(key.name));
    push_number_line(out, key.name, number, mark)
}

/// The numbers of the top table.
fn push_numbers(out: &mut String, file: &ServicesFile, keys: &[Key]) -> Result<(), AllocError>
    ensures { OnOk result (string_bytes out.new
        ≡ string_bytes out.old ++ flat_map (spec.key_line (table_view file.now.tree)) (keys_view keys.now)) }
{
    for key in keys {
        push_number(out, file, key)?;
    }
    Ok(())
}

fn push_url_line(out: &mut String, machine: &str, host: &str, path: &str) -> Result<(), AllocError>
    ensures { OnOk result (string_bytes out.new ≡ string_bytes out.old ++ spec.url_line machine.now host.now path.now) }
{
    write!(out, "machine {machine} url http://{host}{path}\n")
}

/// Where the jobs of a machine go.
fn push_url(
    out: &mut String,
    settings: &Settings,
    services: &Services,
    machine: MachineId,
) -> Result<(), AllocError>
    requires { machine < length services.now.urls }
    ensures { OnOk result (string_bytes out.new ≡ string_bytes out.old ++ spec.machine_line settings.now services.now machine) }
{
    let name = settings.machine_name(machine);
    let url = services.url(machine);
    push_url_line(out, name, url.host(), url.path())
}

fn push_urls(out: &mut String, settings: &Settings, services: &Services) -> Result<(), AllocError>
    requires { length services.now.urls ≡ length settings.now.machines }
    ensures { OnOk result (string_bytes out.new ≡ string_bytes out.old
        ++ flat_map (spec.machine_line settings.now services.now) (machines settings.now)) }
{
    for number in 0..settings.machines() {
        push_url(out, settings, services, MachineId::new(number))?;
    }
    Ok(())
}

fn push_timeout_line(
    out: &mut String,
    function: &str,
    timeout_ms: u32,
    mark: &str,
) -> Result<(), AllocError>
    ensures { OnOk result (string_bytes out.new ≡ string_bytes out.old ++ spec.timeout_line function.now timeout_ms mark.now) }
{
    write!(out, "function {function} timeout_ms {timeout_ms}{mark}\n")
}

fn push_retries_line(out: &mut String, function: &str, retries: u32) -> Result<(), AllocError>
    ensures { OnOk result (string_bytes out.new ≡ string_bytes out.old ++ spec.retries_line function.now retries) }
{
    write!(out, "function {function} retries {retries}\n")
}

/// How many times a job of a function comes again, if that is bounded.
fn push_retries(out: &mut String, function: &str, retries: Option<u32>) -> Result<(), AllocError>
    ensures { OnOk result (string_bytes out.new ≡ string_bytes out.old ++ option_map_or (spec.retries_line function.now) retries []) }
{
    match retries {
        Some(retries) => push_retries_line(out, function, retries),
        None => Ok(()),
    }
}

fn push_no_resend_line(out: &mut String, function: &str) -> Result<(), AllocError>
    ensures { OnOk result (string_bytes out.new ≡ string_bytes out.old ++ spec.no_resend_line function.now) }
{
    write!(out, "function {function} resend false\n")
}

/// That no job of a function is sent once more, if none is.
fn push_no_resend(out: &mut String, function: &str, resends: bool) -> Result<(), AllocError>
    ensures { OnOk result (string_bytes out.new
        ≡ string_bytes out.old ++ (if resends then [] else spec.no_resend_line function.now)) }
{
    if resends {
        return Ok(());
    }
    push_no_resend_line(out, function)
}

/// What the jobs of a function may do: how long one may take, how many times it may come again, and whether it is sent once more.
fn push_function(
    out: &mut String,
    settings: &Settings,
    services: &Services,
    file: &ServicesFile,
    function: FuncId,
) -> Result<(), AllocError>
    requires { function < length services.now.timeouts }
    ensures { OnOk result (string_bytes out.new ≡ string_bytes out.old
        ++ spec.function_lines (table_view file.now.tree) settings.now services.now function) }
{
    let name = settings.function_name(function);
    let mark = mark(file.function_has_key(name, "timeout_ms"));
    push_timeout_line(out, name, services.timeout_ms(function), mark)?;
    push_retries(out, name, services.retries(function))?;
    push_no_resend(out, name, services.resends(function))
}

fn push_functions(
    out: &mut String,
    settings: &Settings,
    services: &Services,
    file: &ServicesFile,
) -> Result<(), AllocError>
    requires { length services.now.timeouts ≡ length settings.now.functions }
    ensures { OnOk result (string_bytes out.new ≡ string_bytes out.old
        ++ flat_map (spec.function_lines (table_view file.now.tree) settings.now services.now) (functions settings.now)) }
{
    for number in 0..settings.functions() {
        push_function(out, settings, services, file, FuncId::new(number))?;
    }
    Ok(())
}

fn push_listen(out: &mut String, address: &str) -> Result<(), AllocError>
    ensures { OnOk result (string_bytes out.new ≡ string_bytes out.old ++ spec.listen_line address.now) }
{
    write!(out, "page listen {address}\n")
}

fn push_host(out: &mut String, host: &str) -> Result<(), AllocError>
    ensures { OnOk result (string_bytes out.new ≡ string_bytes out.old ++ spec.host_line host.now) }
{
    write!(out, "page host {host}\n")
}

/// The further names of the page.
fn push_hosts(out: &mut String, hosts: &[String]) -> Result<(), AllocError>
    ensures { OnOk result (string_bytes out.new ≡ string_bytes out.old
        ++ flat_map spec.host_line (map (λ s. string_bytes s) hosts.now)) }
{
    for host in hosts {
        push_host(out, host.as_str())?;
    }
    Ok(())
}

fn push_backlog_line(out: &mut String, backlog: u32) -> Result<(), AllocError>
    ensures { OnOk result (string_bytes out.new ≡ string_bytes out.old ++ spec.backlog_line backlog) }
{
    write!(out, "page backlog {backlog}\n")
}

/// The wanted backlog, if there is one.
fn push_backlog(out: &mut String, backlog: Option<NonZeroU32>) -> Result<(), AllocError>
    ensures { OnOk result (string_bytes out.new
        ≡ string_bytes out.old ++ option_map_or spec.backlog_line (option_map non_zero_u32_get backlog) []) }
{
    match backlog {
        Some(backlog) => push_backlog_line(out, backlog.get()),
        None => Ok(()),
    }
}

fn push_page(out: &mut String, page: &Page) -> Result<(), AllocError>
    ensures { OnOk result (string_bytes out.new ≡ string_bytes out.old ++ spec.page_lines page.now) }
{
    push_listen(out, page.listen())?;
    push_hosts(out, page.hosts())?;
    push_backlog(out, page.backlog())
}

/// The page, if there is one.
fn push_if_page(out: &mut String, services: &Services) -> Result<(), AllocError>
    ensures { OnOk result (string_bytes out.new ≡ string_bytes out.old ++ option_map_or spec.page_lines services.now.page []) }
{
    match services.page() {
        Some(page) => push_page(out, page),
        None => Ok(()),
    }
}

/// What services mean: a line for each number of the top table, the version first, one for each machine with its URL, one for each
/// function with its time, one with its bound of retries, if it has one, and one that none of its jobs is sent once more, if so, and the
/// lines of the page, if there is one, all in the order of the settings. A value that the file does not give is marked `(default)`; the URL
/// at its top is given. The only error is out of memory.
pub fn push_services(
    out: &mut String,
    settings: &Settings,
    services: &Services,
    file: &ServicesFile,
) -> Result<(), AllocError>
    requires machines { length services.now.urls ≡ length settings.now.machines }
    requires functions { length services.now.timeouts ≡ length settings.now.functions }
    ensures { OnOk result (string_bytes out.new ≡ string_bytes out.old
        ++ spec.services_meaning (table_view file.now.tree) settings.now services.now) }
{
    push_numbers(out, file, &TOP_KEYS)?;
    push_urls(out, settings, services)?;
    push_functions(out, settings, services, file)?;
    push_if_page(out, services)
}

//! The services that a tree means.

ghost use Rattle.std.specs.Prelude.{◌≡◌, ◌≤◌, IfOk, map, unwrap_or};
ghost use Rattle.std.specs.List.{filter_map};
ghost use Rattle.toml.specs.View.{table_view};
ghost use Rattle.service_settings.specs.Reading as spec;

use crate::keys::{RESEND, RETRIES, TIMEOUT_MS};
use crate::service_url::ServiceUrl;
use crate::tree::entry_table;
use crate::urls::url_text;
use file_keys::{boolean_of, number_of};
use plan_model::{FuncId, MachineId};
use pool_settings::{Section, Settings};
use std::alloc::{AllocError, Global};
use toml::Table;

/// Where the jobs of a machine go, if it has a URL.
fn url_for(alloc: Global, tree: &Table, name: &str) -> Result<Option<ServiceUrl>, AllocError>
    ensures { IfOk result (λ url. url ≡ spec.url_for (table_view tree.now) name.now) }
{
    match url_text(tree, name) {
        Some(url) => ServiceUrl::read(alloc, url.as_bytes()),
        None => Ok(None),
    }
}

/// Where the jobs of the machines that have a URL go.
pub fn urls_of(
    alloc: Global,
    settings: &Settings,
    tree: &Table,
) -> Result<Vec<ServiceUrl>, AllocError>
    ensures { IfOk result (λ urls. urls.items ≡ filter_map (spec.url_for (table_view tree.now)) settings.now.machines) }
{
    let mut urls = Vec::new(alloc);
    for number in 0..settings.machines() {
        let name = settings.machine_name(MachineId::new(number));
        if let Some(url) = url_for(alloc, tree, name)? {
            urls.push(url)?;
        }
    }
    Ok(urls)
}

fn own_timeout(tree: &Table, name: &str) -> Option<u32>
    ensures { result ≡ spec.own_timeout (table_view tree.now) name.now }
{
    let function = entry_table(Section::Functions, tree, name)?;
    number_of(&TIMEOUT_MS, function)
}

/// How long a job of a function may take: no longer than the settings let a worker take for it.
fn timeout_for(settings: &Settings, tree: &Table, name: &str) -> u32
    ensures { result ≡ spec.timeout_for settings.now (table_view tree.now) name.now }
{
    let most = settings.job_timeout_ms();
    match own_timeout(tree, name) {
        Some(own) => own.min(most),
        None => most,
    }
}

/// How long a job of each function may take.
pub fn timeouts_of(alloc: Global, settings: &Settings, tree: &Table) -> Result<Vec<u32>, AllocError>
    ensures { IfOk result
        (λ timeouts. timeouts.items ≡ map (spec.timeout_for settings.now (table_view tree.now)) settings.now.functions) }
{
    let mut timeouts = Vec::new(alloc);
    for number in 0..settings.functions() {
        let name = settings.function_name(FuncId::new(number));
        timeouts.push(timeout_for(settings, tree, name))?;
    }
    Ok(timeouts)
}

/// How many times a job of a function that services leave unserved comes again before it fails, if that is bounded.
fn retries_for(tree: &Table, name: &str) -> Option<u32>
    ensures { result ≡ spec.retries_for (table_view tree.now) name.now }
{
    let function = entry_table(Section::Functions, tree, name)?;
    number_of(&RETRIES, function)
}

/// The same for each function of the settings.
pub fn retries_of(
    alloc: Global,
    settings: &Settings,
    tree: &Table,
) -> Result<Vec<Option<u32>>, AllocError>
    ensures { IfOk result (λ retries. retries.items ≡ map (spec.retries_for (table_view tree.now)) settings.now.functions) }
{
    let mut retries = Vec::new(alloc);
    for number in 0..settings.functions() {
        let name = settings.function_name(FuncId::new(number));
        retries.push(retries_for(tree, name))?;
    }
    Ok(retries)
}

fn own_resend(tree: &Table, name: &str) -> Option<bool>
    ensures { result ≡ spec.own_resend (table_view tree.now) name.now }
{
    let function = entry_table(Section::Functions, tree, name)?;
    boolean_of(&RESEND, function)
}

/// Whether a job of each function is sent once more, if a kept connection cut it off before any byte of a response: it is, if the function
/// says nothing of it.
pub fn resends_of(alloc: Global, settings: &Settings, tree: &Table) -> Result<Vec<bool>, AllocError>
    ensures { IfOk result (λ resends. resends.items ≡ map (spec.resend_for (table_view tree.now)) settings.now.functions) }
{
    let mut resends = Vec::new(alloc);
    for number in 0..settings.functions() {
        let name = settings.function_name(FuncId::new(number));
        resends.push(own_resend(tree, name).unwrap_or(true))?;
    }
    Ok(resends)
}

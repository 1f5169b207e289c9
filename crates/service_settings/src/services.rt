//! The services of a farm.

ghost use Rattle.std.specs.Prelude.{◌≡◌, ◌≢◌, ◌<◌, ◌≤◌, Err, IfErr, IfOk, None, Ok, Some, length, slice_get, slice_index, slice_index_or};
ghost use Rattle.std.specs.Prelude.{true};
ghost use Rattle.std.specs.Option.{option_copied};
ghost use Rattle.toml.specs.Errors.{IsBlank};
ghost use Rattle.toml.specs.View.{table_view};
ghost use Rattle.service_settings.specs.Keys.{connect_ms_of};
ghost use Rattle.service_settings.specs.Reading as spec;

use crate::build::{resends_of, retries_of, timeouts_of, urls_of};
use crate::keys::{CONNECT_PLACE, TOP, TOP_KEYS};
use crate::page::Page;
use crate::service_url::ServiceUrl;
use crate::{ServicesError, ServicesFile};
use file_keys::numbers_in;
use plan_model::{FuncId, MachineId};
use pool_settings::Settings;
use std::alloc::{AllocError, Global};
use std::marker::Model;
use toml::Table;

/// The services of a farm: where the jobs of each machine go, how long one may take, how many times one may come again, whether one is
/// sent once more, and the page.
/// Machines and functions have the numbers of the settings that the file was read with.
#[derive(Drop)]
pub struct Services {
    numbers: [u32; TOP],
    urls: Vec<ServiceUrl>,
    timeouts: Vec<u32>,
    retries: Vec<Option<u32>>,
    resends: Vec<bool>,
    page: Option<Page>,
}

impl Model for Services {
    ghost use Rattle.std.specs.Prelude.{◌≡◌, ◌≤◌, length};
    ghost use Rattle.service_settings.specs.Keys.{AllInRange};
    ghost use Rattle.service_settings.specs.Services as meant;

    ghost Value = { meant.Services };

    ghost use Rattle.service_settings.specs.Kept.{services_view};

    ghost view = { services_view };

    ghost invariant = { λ s. AllInRange s.numbers × (length s.retries.items ≡ length s.timeouts.items)
        × (length s.resends.items ≡ length s.timeouts.items) };
}

/// The services of a tree, less the machines that have no URL.
pub fn services_of(alloc: Global, settings: &Settings, tree: &Table) -> Result<Services, AllocError>
    ensures { IfOk result (λ s. s ≡ spec.services_of settings.now (table_view tree.now)) }
{
    let urls = urls_of(alloc, settings, tree)?;
    let timeouts = timeouts_of(alloc, settings, tree)?;
    let retries = retries_of(alloc, settings, tree)?;
    let resends = resends_of(alloc, settings, tree)?;
    let page = Page::read(alloc, tree)?;
    Ok(Services {
        numbers: numbers_in(&TOP_KEYS, tree),
        urls,
        timeouts,
        retries,
        resends,
        page,
    })
}

impl Services {
    /// Reads a services file beside the settings: TOML, with the keys that [`crate::keys_text`] lists and no others.
    ///
    /// A URL is `http://HOST[:PORT][/PATH]`. HOST is a name of letters, digits, `-`, `.` and `_`, an IPv4 address or an IPv6 address
    /// in brackets. PORT is 1 to 65,535 without zeros before it, and 80 if it is left out. PATH has visible characters of ASCII, but no `?`
    /// and no `#`; a slash at its end is dropped.
    ///
    /// Each machine of the settings has to have a URL. A job takes `job_timeout_ms` of the settings at most, whatever `timeout_ms` is. The
    /// file is checked in the order of `ServicesError`, each check over the whole file before the next, and the first that fails is
    /// answered; `ServicesError` says what each is. What should be a table and is not has no keys and lacks none: it is `BadValue`.
    /// `Memory` comes only if a growth was refused, and may come in the place of a later refusal; a file with nothing but white space and
    /// comments is `Version`, whatever memory there is.
    pub fn read(alloc: Global, text: &[u8], settings: &Settings) -> Result<Services, ServicesError>
        ensures ok { IfOk result (λ services. spec.reading settings.now text.now ≡ Ok services) }
        ensures refused { IfErr result (λ f. f ≢ ServicesError.Memory → spec.reading settings.now text.now ≡ Err f) }
        ensures memory { IfErr result (λ f. f ≡ ServicesError.Memory → ¬ IsBlank text.now) }
        ensures machines { IfOk result (λ services. length services.urls ≡ length settings.now.machines) }
        ensures functions { IfOk result (λ services. length services.timeouts ≡ length settings.now.functions) }
    {
        let file = match ServicesFile::read(alloc, text) {
            Ok(file) => file,
            Err(fault) => return Err(fault.error()),
        };
        match file.services(alloc, settings) {
            Ok(services) => Ok(services),
            Err(fault) => Err(fault.error()),
        }
    }

    /// How long opening a connection may take, in milliseconds: from 1 to 60,000.
    pub fn connect_ms(&self) -> u32
        ensures all { result ≡ connect_ms_of self.now }
        ensures some { 1 ≤ result }
        ensures few { result ≤ 60000 }
    {
        self.numbers[CONNECT_PLACE]
    }

    /// Where the jobs of a machine go.
    pub fn url(&self, machine: MachineId) -> &ServiceUrl
        requires { machine < length self.now.urls }
        ensures { slice_get self.now.urls machine ≡ Some result.now }
    {
        &self.urls[machine.number() as usize]
    }

    /// How long a job of a function may take, in milliseconds: the least of what the file and the settings say.
    pub fn timeout_ms(&self, function: FuncId) -> u32
        requires { function < length self.now.timeouts }
        ensures { result ≡ slice_index self.now.timeouts function }
    {
        self.timeouts[function.number() as usize]
    }

    /// How many times a job of a function that services leave unserved comes again before it fails. None: nothing bounds that.
    pub fn retries(&self, function: FuncId) -> Option<u32>
        requires { function < length self.now.timeouts }
        ensures { result ≡ slice_index_or self.now.retries function None }
    {
        self.retries[function.number() as usize]
    }

    /// Whether a job of a function is sent once more, if a kept connection cut it off before any byte of a response.
    pub fn resends(&self, function: FuncId) -> bool
        requires { function < length self.now.timeouts }
        ensures { result ≡ slice_index_or self.now.resends function true }
    {
        self.resends[function.number() as usize]
    }

    /// The page, if the file has one.
    pub fn page(&self) -> Option<&Page>
        ensures { option_copied result ≡ self.now.page }
    {
        self.page.as_ref()
    }
}

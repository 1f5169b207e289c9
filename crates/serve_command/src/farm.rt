//! A farm: the settings of its pool, and the services of its machines.

ghost use Rattle.std.specs.Prelude.{◌≡◌, ◌<◌, IfErr, IfOk, IfSome, IsSome, Some, length, slice_get, slice_index, string_bytes};
ghost use Rattle.pool_settings.specs.Slots.{machine_of, slots};
ghost use Rattle.serve_command.specs.Farm as spec;
ghost use Rattle.service_settings.specs.Keys.{connect_ms_of};

use farm_notes::Wanted;
use http_jobs::{CallTimes, JobTerms, Resend, Service};
use live_size::Unbounded;
use plan_commands::{Fault, read_services, read_settings, read_settings_file};
use plan_model::{MachineId, SlotId};
use pool_settings::Settings;
use service_settings::{ServiceUrl, Services};
use std::alloc::{AllocError, Global};
use std::marker::Model;
use worker_state::WorkerName;

/// How long one read of a service's connection may take, in milliseconds. After each the deadline is looked at.
const READ_MS: u32 = 100;

/// The texts that say what a farm is.
#[derive(Clone, Copy)]
pub struct FarmTexts<'t> {
    /// The settings of its pool.
    pub settings: &'t [u8],
    /// The services of its machines.
    pub services: &'t [u8],
}

/// A farm: the settings of its pool, and the services of its machines. Each machine has a URL, and each function a time.
#[derive(Drop)]
pub struct Farm {
    /// The settings.
    pub(crate) settings: Settings,
    /// The services.
    pub(crate) services: Services,
    /// The functions for which the settings file gives no greatest number.
    unbounded: Unbounded,
}

impl Model for Farm {
    ghost use Rattle.serve_command.specs.Farm as meant;

    ghost Value = { meant.Farm };

    ghost view = { λ f. record { settings = f.settings; services = f.services } };

    ghost invariant = { λ f. meant.IsWhole f.settings f.services };
}

/// The functions for which a settings file gives no greatest number. The file has been read as these settings, so only memory can be
/// refused now.
fn unbounded_of(alloc: Global, text: &[u8], settings: &Settings) -> Result<Unbounded, AllocError> {
    match read_settings_file(alloc, text) {
        Ok(file) => Unbounded::of(alloc, &file, settings),
        Err(_) => Err(AllocError),
    }
}

impl Farm {
    /// The farm of these texts. The settings are read first. The fault is the first mistake of the text that has one, or out of memory.
    pub fn read(alloc: Global, texts: FarmTexts<'_>) -> Result<Farm, Fault>
        ensures farm { IfOk result (λ farm. spec.IsOf texts.entry.settings.now texts.entry.services.now farm.settings farm.services) }
        ensures refused { IfErr result (spec.IsRefused texts.entry.settings.now texts.entry.services.now) }
    {
        let settings = read_settings(alloc, texts.settings)?;
        let services = read_services(alloc, texts.services, &settings)?;
        let unbounded = unbounded_of(alloc, texts.settings, &settings)?;
        Ok(Farm {
            settings,
            services,
            unbounded,
        })
    }

    /// The backlog that the page is to say the missing workers for, if one is wanted.
    pub fn wanted(&self) -> Option<Wanted<'_>> {
        let page = self.services.page()?;
        let backlog = page.backlog()?;
        Some(Wanted {
            unbounded: &self.unbounded,
            backlog,
        })
    }

    /// How long a job of this function may take, in milliseconds: what the services say, and `job_timeout_ms` for a function that the
    /// settings do not have.
    pub fn timeout_ms(&self, function: &[u8]) -> u32
        ensures { result ≡ spec.timeout_in self.now function.now }
    {
        match self.settings.function_named(function) {
            Some(function) => self.services.timeout_ms(function),
            None => self.settings.job_timeout_ms(),
        }
    }

    /// The terms of a job of this function.
    pub fn terms(&self, function: &[u8]) -> JobTerms
        ensures { result ≡ spec.terms_in self.now function.now }
    {
        JobTerms {
            timeout_ms: self.timeout_ms(function) as u64,
            resend: self.resend(function),
        }
    }

    /// Whether a job of this function is sent once more that the kept connection cut off: what the services say, and once for a function
    /// that the settings do not have.
    fn resend(&self, function: &[u8]) -> Resend
        ensures { result ≡ spec.resend_in self.now function.now }
    {
        match self.settings.function_named(function) {
            Some(function) if !self.services.resends(function) => Resend::Never,
            _ => Resend::Once,
        }
    }

    /// How many times a job of this function that services leave unserved comes again before it fails. None: nothing bounds that, as for a
    /// function that the settings do not have.
    pub fn retries(&self, function: &[u8]) -> Option<u32>
        ensures { result ≡ spec.retries_in self.now function.now }
    {
        let function = self.settings.function_named(function)?;
        self.services.retries(function)
    }

    /// The machine of a slot. None if the slot is none of the farm.
    pub fn machine_of(&self, slot: SlotId) -> Option<MachineId>
        ensures exact { IfSome result (λ machine. (slot < slots self.now.settings) × (machine ≡ machine_of self.now.settings slot)) }
        ensures there { slot < slots self.now.settings → IsSome result }
    {
        if slot.number() >= self.settings.slots() {
            return None;
        }
        Some(self.settings.machine_of(slot))
    }

    /// How many workers a machine has. 0 if it is none of the farm.
    pub fn workers_on(&self, machine: MachineId) -> u32
        ensures there { machine < length self.now.settings.machines → result ≡ slice_index self.now.settings.workers machine }
        ensures none { (machine < length self.now.settings.machines → ⊥) → result ≡ 0 }
    {
        if machine.number() >= self.settings.machines() {
            return 0;
        }
        self.settings.workers(machine)
    }

    /// Where the jobs of a worker go.
    pub fn url_of(&self, slot: SlotId) -> &ServiceUrl
        requires { slot < slots self.now.settings }
        ensures { slice_get self.now.services.urls (machine_of self.now.settings slot) ≡ Some result.now }
    {
        self.services.url(self.settings.machine_of(slot))
    }

    /// The host and port that a worker's jobs go to. None if memory is refused.
    pub fn host_of(&self, alloc: Global, slot: SlotId) -> Option<String>
        requires { slot < slots self.now.settings }
        ensures own { IfSome result (λ host. spec.IsHostOf self.now slot (string_bytes host)) }
    {
        let url = self.url_of(slot);
        String::from_str(alloc, url.host()).ok()
    }

    /// The worker's name with its generation, as `north/0#3`, and nothing if its slot is none of the farm. The only error is out of
    /// memory.
    pub fn name_of(&self, alloc: Global, worker: WorkerName) -> Result<String, AllocError> {
        if worker.slot.number() >= self.settings.slots() {
            return Ok(String::new(alloc));
        }
        self.settings
            .worker_text(alloc, worker.slot, worker.generation)
    }

    /// How long calls of a connection to a service may take.
    pub fn call_times(&self) -> CallTimes
        ensures connect { result.connect_ms ≡ connect_ms_of self.now.services }
        ensures read { result.read_ms ≡ 100 }
    {
        CallTimes {
            connect_ms: self.services.connect_ms(),
            read_ms: READ_MS,
        }
    }

    /// The host and port that a worker's jobs go to, and the service there, asked in the worker's name. None if memory is refused.
    pub fn place_of(&self, alloc: Global, worker: WorkerName) -> Option<(String, Service)>
        requires { worker.slot < slots self.now.settings }
        ensures host { IfSome result (λ place. spec.IsHostOf self.now worker.slot (string_bytes place.0)) }
        ensures service { IfSome result (λ place. spec.IsServiceOf self.now worker place.1) }
    {
        let host = self.host_of(alloc, worker.slot)?;
        let service = self.service_of(alloc, worker)?;
        Some((host, service))
    }

    /// The service of a worker's machine, asked in the worker's name. None if memory is refused.
    pub fn service_of(&self, alloc: Global, worker: WorkerName) -> Option<Service>
        requires { worker.slot < slots self.now.settings }
        ensures { IfSome result (spec.IsServiceOf self.now worker) }
    {
        let url = self.url_of(worker.slot);
        let host = String::from_str(alloc, url.host()).ok()?;
        let path = String::from_str(alloc, url.path()).ok()?;
        let name = self
            .settings
            .worker_text(alloc, worker.slot, worker.generation)
            .ok()?;
        Service::new(host, path, name).ok()
    }
}

//! The settings of a pool.

ghost use Rattle.std.specs.Prelude.{◌≡◌, ◌≢◌, ◌<◌, ◌≤◌, ◌+◌, Err, IfErr, IfOk, IfSome, None, Ok, Some, length, map, slice_index};
ghost use Rattle.std.specs.Prelude.{slice_index_or, string_bytes, []};
ghost use Rattle.std.specs.List.Sorted.{IsStrictlyIncreasing};
ghost use Rattle.toml.specs.Errors.{IsBlank};
ghost use Rattle.toml.specs.View.{table_view};
ghost use Rattle.pool_settings.specs.Fault.{HasTables};
ghost use Rattle.pool_settings.specs.Names as names;
ghost use Rattle.pool_settings.specs.Planning.{instance_of, waiting_of};
ghost use Rattle.pool_settings.specs.Settings.{AreSettings};
ghost use Rattle.pool_settings.specs.Reading as spec;
ghost use Rattle.pool_settings.specs.Rows.{may_do};
ghost use Rattle.pool_settings.specs.Slots as slots;

use crate::build::{read_counts, read_rows};
use crate::checks::Tables;
use crate::keys::{
    HISTORY_PLACE, JOB_TIMEOUT_PLACE, LEAST, LULL_PLACE, MAX_RUNS_PLACE, MOST, ROUND_PLACE, SERVER,
    TOP, TOP_KEYS, WORKERS,
};
use crate::names::Names;
use crate::planning::live_workers;
use crate::slots::SlotTable;
use crate::{SettingsError, SettingsFile};
use file_keys::{numbers_in, text_in};
use gear_status::Load;
use plan_model::{FuncId, Input, MachineId, SlotId};
use std::alloc::{AllocError, Global};
use std::marker::Model;
use text_pieces::{cut_last, plain_number_u32};
use toml::Table;

/// The settings of a pool. Functions and machines are numbered from 0 by name in byte order, and slots by machine and then by
/// the worker's number in its machine, so names and numbers are one to one.
#[derive(Drop)]
pub struct Settings {
    server: String,
    numbers: [u32; TOP],
    functions: Names,
    least: Vec<u32>,
    most: Vec<u32>,
    machines: Names,
    slots: SlotTable,
    may: Vec<Vec<FuncId>>,
}

impl Model for Settings {
    ghost use Rattle.std.specs.Prelude.{map, string_bytes};
    ghost use Rattle.pool_settings.specs.Settings as meant;

    ghost Value = { meant.Settings };

    ghost use Rattle.pool_settings.specs.Kept.{settings_view};

    ghost view = { settings_view };

    ghost invariant = { λ s. meant.AreSettings (settings_view s) };
}

/// The settings of a tree that passes the checks, with the tables that it has.
pub fn settings_of(alloc: Global, tree: &Table, tables: Tables<'_>) -> Result<Settings, AllocError>
    requires passes { spec.first_fault (table_view tree.now) ≡ None }
    requires tables { HasTables (table_view tree.now) tables }
    ensures { IfOk result (λ s. s ≡ spec.settings_of (table_view tree.now)) }
{
    let server = String::from_str(alloc, text_in(&SERVER, tree))?;
    let functions = Names::of_table(alloc, tables.functions)?;
    let least = read_counts(alloc, tables.functions, LEAST.name, 0)?;
    let machines = Names::of_table(alloc, tables.machines)?;
    let workers = read_counts(alloc, tables.machines, WORKERS.name, 0)?;
    let slots = SlotTable::new(alloc, workers)?;
    let most = read_counts(alloc, tables.functions, MOST.name, slots.len())?;
    let may = read_rows(alloc, &functions, tables.machines)?;
    Ok(Settings {
        server,
        numbers: numbers_in(&TOP_KEYS, tree),
        functions,
        least,
        most,
        machines,
        slots,
        may,
    })
}

impl Settings {
    /// Reads a settings file: TOML, with the keys that [`crate::keys_text`] lists and no others. `most` is a key of version 2.
    ///
    /// A name has 1 to 64 bytes from `!` to `~`, and a machine's holds no `/` and no `#`. A function that a machine lists twice is
    /// permitted once. The file is checked in the order of `SettingsError`, each check over the whole file before the next, and the
    /// first that fails is answered; `SettingsError` says what each is. What should be a table and is not has no keys and lacks
    /// none: it is `BadValue`. `Memory` comes only if a growth was refused, and may come in the place of a later refusal; a file
    /// with nothing but white space and comments is `Version`, whatever memory there is.
    pub fn read(alloc: Global, settings_text: &[u8]) -> Result<Settings, SettingsError>
        ensures ok { IfOk result (λ settings. spec.reading settings_text.now ≡ Ok settings) }
        ensures refused { IfErr result (λ f. f ≢ SettingsError.Memory → spec.reading settings_text.now ≡ Err f) }
        ensures memory { IfErr result (λ f. f ≡ SettingsError.Memory → ¬ IsBlank settings_text.now) }
    {
        let file = match SettingsFile::read(alloc, settings_text) {
            Ok(file) => file,
            Err(fault) => return Err(fault.error()),
        };
        match file.settings(alloc) {
            Ok(settings) => Ok(settings),
            Err(fault) => Err(fault.error()),
        }
    }

    /// Equal settings. The only error is out of memory.
    pub fn copy(&self, alloc: Global) -> Result<Settings, AllocError>
        ensures equal { IfOk result (λ s. s ≡ self.now) }
    {
        Ok(Settings {
            server: String::from_str(alloc, self.server.as_str())?,
            numbers: self.numbers,
            functions: self.functions.copy(alloc)?,
            least: Vec::from_slice(alloc, &self.least)?,
            most: Vec::from_slice(alloc, &self.most)?,
            machines: self.machines.copy(alloc)?,
            slots: self.slots.copy(alloc)?,
            may: copy_rows(alloc, &self.may)?,
        })
    }
}

/// The single keys.
impl Settings {
    /// The job server, dialled as `host:port`.
    pub fn server(&self) -> &str
        ensures all { result.now ≡ self.now.server }
        ensures some { 1 ≤ length result.now }
        ensures few { length result.now ≤ 255 }
    {
        self.server.as_str()
    }

    /// How long a worker may take for a job, in milliseconds: at least 1.
    pub fn job_timeout_ms(&self) -> u32
        ensures all { result ≡ self.now.job_timeout_ms }
        ensures some { 1 ≤ result }
    {
        self.numbers[JOB_TIMEOUT_PLACE]
    }

    /// The runs after which a worker is replaced: at least 1.
    pub fn max_runs(&self) -> u32
        ensures all { result ≡ self.now.max_runs }
        ensures some { 1 ≤ result }
    {
        self.numbers[MAX_RUNS_PLACE]
    }

    /// The pause between two rounds, in milliseconds: from 1 to 3,600,000.
    pub fn round_ms(&self) -> u32
        ensures all { result ≡ self.now.round_ms }
        ensures some { 1 ≤ result }
        ensures few { result ≤ 3600000 }
    {
        self.numbers[ROUND_PLACE]
    }

    /// How long a read waits before it counts as a timeout, in milliseconds: from 1 to 3,600,000.
    pub fn lull_ms(&self) -> u32
        ensures all { result ≡ self.now.lull_ms }
        ensures some { 1 ≤ result }
        ensures few { result ≤ 3600000 }
    {
        self.numbers[LULL_PLACE]
    }

    /// The most events that the pool keeps: from 1 to 1,048,576.
    pub fn history(&self) -> u32
        ensures all { result ≡ self.now.history }
        ensures some { 1 ≤ result }
        ensures few { result ≤ 1048576 }
    {
        self.numbers[HISTORY_PLACE]
    }
}

/// Functions and machines, by number and by name. A look-up by name is a binary search.
impl Settings {
    /// How many functions there are, at most 1,024.
    pub fn functions(&self) -> u32
        ensures all { result ≡ length self.now.functions }
        ensures few { result ≤ 1024 }
        ensures valid { AreSettings self.now }
    {
        self.functions.len() as u32
    }

    /// How many machines there are, at most 256.
    pub fn machines(&self) -> u32
        ensures all { result ≡ length self.now.machines }
        ensures few { result ≤ 256 }
        ensures valid { AreSettings self.now }
    {
        self.machines.len() as u32
    }

    /// The function of a name.
    pub fn function_named(&self, name: &[u8]) -> Option<FuncId>
        ensures all { result ≡ names.place_of self.now.functions name.now }
        ensures there { IfSome result (λ f. f < length self.now.functions) }
    {
        let place = self.functions.place_of(name)?;
        Some(FuncId::new(place))
    }

    /// The name of a function, and the empty text after the last function.
    pub fn function_name(&self, function: FuncId) -> &str
        ensures name { result.now ≡ names.name_at self.now.functions function }
    {
        self.functions.at(function.number())
    }

    /// The machine of a name.
    pub fn machine_named(&self, name: &[u8]) -> Option<MachineId>
        ensures all { result ≡ names.place_of self.now.machines name.now }
        ensures there { IfSome result (λ m. m < length self.now.machines) }
    {
        let place = self.machines.place_of(name)?;
        Some(MachineId::new(place))
    }

    /// The name of a machine, and the empty text after the last machine.
    pub fn machine_name(&self, machine: MachineId) -> &str
        ensures name { result.now ≡ names.name_at self.now.machines machine }
    {
        self.machines.at(machine.number())
    }

    /// The least number of workers that a function is to have, at most 4,096.
    pub fn least(&self, function: FuncId) -> u32
        requires { function < length self.now.functions }
        ensures all { result ≡ slice_index self.now.least function }
        ensures few { result ≤ 4096 }
    {
        self.least[function.number() as usize]
    }

    /// The greatest number of workers that a function may have, at most 4,096: the number of all workers if the file gives
    /// none. It may be below the least number; then there is no plan.
    pub fn most(&self, function: FuncId) -> u32
        requires { function < length self.now.functions }
        ensures all { result ≡ slice_index self.now.most function }
        ensures few { result ≤ 4096 }
    {
        self.most[function.number() as usize]
    }

    /// For each function its least number of workers.
    pub fn least_numbers(&self) -> &[u32]
        ensures { result.now ≡ self.now.least }
    {
        &self.least
    }

    /// For each function its greatest number of workers.
    pub fn most_numbers(&self) -> &[u32]
        ensures { result.now ≡ self.now.most }
    {
        &self.most
    }

    /// For each machine the functions that its workers may do, in rising order and each once.
    pub fn rows(&self) -> &[Vec<FuncId>]
        ensures { map (λ row. row.items) result.now ≡ self.now.may }
    {
        &self.may
    }

    /// The functions that the workers of a machine may do, in rising order and each once.
    pub fn permitted(&self, machine: MachineId) -> &[FuncId]
        requires { machine < length self.now.machines }
        ensures row { result.now ≡ slice_index_or self.now.may machine [] }
        ensures rising { IsStrictlyIncreasing result.now }
    {
        &self.may[machine.number() as usize]
    }

    /// Whether the workers of a machine may do a function, by binary search.
    pub fn may(&self, machine: MachineId, function: FuncId) -> bool
        requires { machine < length self.now.machines }
        ensures row { result ≡ may_do self.now machine function }
    {
        self.permitted(machine).binary_search(&function).is_ok()
    }
}

/// Workers and their slots.
impl Settings {
    /// How many slots there are, one for each worker: at most 4,096.
    pub fn slots(&self) -> u32
        ensures all { result ≡ slots.slots self.now }
        ensures few { result ≤ 4096 }
        ensures valid { AreSettings self.now }
    {
        self.slots.len()
    }

    /// How many workers a machine has.
    pub fn workers(&self, machine: MachineId) -> u32
        requires { machine < length self.now.machines }
        ensures count { result ≡ slice_index self.now.workers machine }
    {
        self.slots.workers()[machine.number() as usize]
    }

    /// The slot of a machine's first worker, or the slot where it would be.
    pub fn first_slot(&self, machine: MachineId) -> u32
        requires { machine < length self.now.machines }
        ensures all { result ≡ slots.first_slot self.now machine }
        ensures within { result + slice_index self.now.workers machine ≤ slots.slots self.now }
        ensures room { result + slice_index self.now.workers machine ≤ 4096 }
    {
        self.slots.first(machine)
    }

    /// The machine of a slot's worker.
    pub fn machine_of(&self, slot: SlotId) -> MachineId
        requires { slot < slots.slots self.now }
        ensures all { result ≡ slots.machine_of self.now slot }
        ensures valid { AreSettings self.now }
        ensures there { result < length self.now.machines }
        ensures from { slots.first_slot self.now result ≤ slot }
        ensures to { slot < slots.first_slot self.now result + slice_index self.now.workers result }
    {
        self.slots.owner(slot)
    }

    /// The number of a slot's worker in its machine, from 0. The machine's name, a slash and this number in decimal are the
    /// worker's name, which names this slot and no other.
    pub fn worker_number(&self, slot: SlotId) -> u32
        requires { slot < slots.slots self.now }
        ensures all { result ≡ slots.worker_number self.now slot }
        ensures within { result < slice_index self.now.workers (slots.machine_of self.now slot) }
        ensures named { slots.slot_named self.now (slots.worker_name self.now slot) ≡ Some slot }
    {
        slot.number() - self.first_slot(self.machine_of(slot))
    }

    /// The text that names a slot's worker in one of its lives: its name, a hash sign and the generation in decimal, as `a/0#1`. The
    /// only error is out of memory.
    pub fn worker_text(
        &self,
        alloc: Global,
        slot: SlotId,
        generation: u32,
    ) -> Result<String, AllocError>
        requires slot { slot < slots.slots self.now }
        ensures text { IfOk result (λ text. string_bytes text ≡ slots.worker_text self.now slot generation) }
        ensures valid { AreSettings self.now }
    {
        let machine = self.machine_name(self.machine_of(slot));
        let number = self.worker_number(slot);
        let text = format!(in alloc; "{machine}/{number}#{generation}")?;
        Ok(text)
    }

    /// The slot of a worker's name, `machine/number`. The number is exact: `a/00` names no slot.
    pub fn slot_named(&self, name: &[u8]) -> Option<SlotId>
        ensures all { result ≡ slots.slot_named self.now name.now }
        ensures there { IfSome result (λ s. s < slots.slots self.now) }
        ensures few { IfSome result (λ s. s < 4096) }
    {
        let (machine, digits) = cut_last(b'/', name)?;
        let machine = self.machine_named(machine)?;
        self.slot_in(machine, digits)
    }

    /// The slot of a machine's worker, by the digits of its number.
    fn slot_in(&self, machine: MachineId, digits: &[u8]) -> Option<SlotId>
        requires { machine < length self.now.machines }
        ensures all { result ≡ slots.slot_of_digits self.now digits.now machine }
        ensures there { IfSome result (λ s. s < slots.slots self.now) }
        ensures few { IfSome result (λ s. s < 4096) }
    {
        let number = plain_number_u32(digits)?;
        if number < self.workers(machine) {
            Some(SlotId::new(self.first_slot(machine) + number))
        } else {
            None
        }
    }
}

/// What there is to plan for.
impl Settings {
    /// The jobs that wait for each function, by its number. The only error is out of memory.
    pub fn waiting_jobs(&self, alloc: Global, load: &Load) -> Result<Vec<u32>, AllocError>
        ensures waiting { IfOk result (λ waiting. waiting.items ≡ waiting_of self.now load.now) }
    {
        let mut waiting = Vec::new(alloc);
        for number in 0..self.functions() {
            let name = self.function_name(FuncId::new(number));
            waiting.push(load.waiting(name.as_bytes()))?;
        }
        Ok(waiting)
    }

    /// The planning problem if the slots that are marked are live, and these jobs wait for each function, by its number. A slot
    /// without a mark, after the last of `live`, is not live, and a mark after the last slot counts for nothing. The only error
    /// is out of memory.
    pub fn input(&self, alloc: Global, live: &[bool], waiting: &[u32]) -> Result<Input, AllocError>
        requires { length waiting.now ≡ length self.now.functions }
        ensures problem { IfOk result (λ input. input ≡ instance_of self.now live.now waiting.now) }
    {
        let workers = live_workers(alloc, self.slots.owners(), live)?;
        Input::of_taken(alloc, &workers, &self.may, &self.least, &self.most, waiting)
    }
}

fn copy_rows(alloc: Global, rows: &[Vec<FuncId>]) -> Result<Vec<Vec<FuncId>>, AllocError>
    ensures { IfOk result
        (λ copy. map (λ row. row.items) copy.items ≡ map (λ row. row.items) rows.now) }
{
    let mut copy = Vec::new(alloc);
    for row in rows {
        copy.push(Vec::from_slice(alloc, row)?)?;
    }
    Ok(copy)
}

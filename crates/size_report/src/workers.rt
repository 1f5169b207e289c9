//! The names of the workers of a farm that has grown.

ghost use Rattle.std.specs.Prelude.{◌≡◌, ◌+◌, ◌<◌, ◌≤◌, All, IfSome, length};
ghost use Rattle.std.specs.List.Sorted.{IsNonDecreasing};
ghost use Rattle.pool_settings.specs.Slots.{slots};
ghost use Rattle.size_report.specs.Grown as spec;

use plan_model::{MachineId, SlotId};
use pool_settings::Settings;
use text_pieces::{cut_last, plain_number_u32};

/// How many of the added workers are on lower machines.
pub fn first_added(added: &[MachineId], machine: MachineId) -> usize
    requires { IsNonDecreasing added.now }
    ensures first { result ≡ spec.first_added added.now machine }
    ensures within { result ≤ length added.now }
{
    added.partition_point(|other| *other < machine)
}

/// The machine and the number of a slot's worker, of the settings or added.
pub fn worker_of(settings: &Settings, added: &[MachineId], slot: SlotId) -> (MachineId, u32)
    requires rising { IsNonDecreasing added.now }
    requires there { All (λ machine. machine < length settings.now.machines) added.now }
    requires few { length added.now ≤ 4096 }
    requires slot { slot < slots settings.now + length added.now }
    ensures { result ≡ spec.worker_of settings.now added.now slot }
{
    if slot.number() < settings.slots() {
        return (settings.machine_of(slot), settings.worker_number(slot));
    }
    let place = (slot.number() - settings.slots()) as usize;
    let machine = added[place];
    let further = place.saturating_sub(first_added(added, machine)) as u32;
    (machine, settings.workers(machine) + further)
}

/// The slot of an added worker's name: its number goes on from the last worker of its machine.
fn added_slot_named(settings: &Settings, added: &[MachineId], name: &[u8]) -> Option<SlotId>
    requires rising { IsNonDecreasing added.now }
    requires few { length added.now ≤ 4096 }
    ensures slot { result ≡ spec.added_slot_named settings.now added.now name.now }
    ensures small { IfSome result (λ slot. slot < 8192) }
{
    let (machine, digits) = cut_last(b'/', name)?;
    let machine = settings.machine_named(machine)?;
    let number = plain_number_u32(digits)?;
    added_slot_at(settings, added, machine, number)
}

fn added_slot_at(
    settings: &Settings,
    added: &[MachineId],
    machine: MachineId,
    number: u32,
) -> Option<SlotId>
    requires machine { machine < length settings.now.machines }
    requires rising { IsNonDecreasing added.now }
    requires few { length added.now ≤ 4096 }
    ensures slot { result ≡ spec.added_slot_at settings.now added.now machine number }
    ensures small { IfSome result (λ slot. slot < 8192) }
{
    let workers = settings.workers(machine);
    if number < workers {
        return None;
    }
    let place = first_added(added, machine) + (number - workers) as usize;
    match added.get(place) {
        Some(other) if *other == machine => Some(SlotId::new(settings.slots() + place as u32)),
        _ => None,
    }
}

/// The slot of a worker's name, of the settings or added.
pub fn grown_slot_named(settings: &Settings, added: &[MachineId], name: &[u8]) -> Option<SlotId>
    requires rising { IsNonDecreasing added.now }
    requires few { length added.now ≤ 4096 }
    ensures slot { result ≡ spec.grown_slot_named settings.now added.now name.now }
    ensures small { IfSome result (λ slot. slot < 8192) }
{
    match settings.slot_named(name) {
        Some(slot) => Some(slot),
        None => added_slot_named(settings, added, name),
    }
}

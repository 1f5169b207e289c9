//! What a single word of a command line says.

ghost use Rattle.std.specs.Prelude.{◌≡◌, ◌<◌, IfSome};
ghost use Rattle.pool_commands.specs.Words as spec;
ghost use Rattle.pool_settings.specs.Slots.{slots};

use gear_packets::Handle;
use pool_settings::Settings;
use text_pieces::{cut_first, number_u32, number_u64};
use worker_state::{EndKind, MAX_GENERATION, Ticket, WorkerName};

/// A time in milliseconds.
pub fn long_in(digits: &[u8]) -> Option<u64>
    ensures { result ≡ spec.long_in digits.now }
{
    number_u64(digits)
}

/// A number of jobs.
pub fn count_in(digits: &[u8]) -> Option<u32>
    ensures { result ≡ spec.count_in digits.now }
{
    number_u32(digits)
}

pub fn ticket_in(digits: &[u8]) -> Option<Ticket>
    ensures { result ≡ spec.long_in digits.now }
{
    let number = number_u64(digits)?;
    Some(Ticket::new(number))
}

fn generation_in(digits: &[u8]) -> Option<u32>
    ensures { result ≡ spec.generation_in digits.now }
{
    let number = number_u32(digits)?;
    if 1 <= number && number <= MAX_GENERATION {
        Some(number)
    } else {
        None
    }
}

/// The worker of a name with its generation, `machine/number#generation`.
pub fn worker_in(settings: &Settings, text: &[u8]) -> Option<WorkerName>
    ensures all { result ≡ spec.worker_in settings.now text.now }
    ensures there { IfSome result (λ worker. worker.slot < slots settings.now) }
{
    let (name, digits) = cut_first(b'#', text)?;
    let slot = settings.slot_named(name)?;
    let generation = generation_in(digits)?;
    Some(WorkerName { slot, generation })
}

pub fn handle_in(text: &[u8]) -> Option<Handle>
    ensures { result ≡ spec.handle_in text.now }
{
    Handle::new(text).ok()
}

pub fn end_in(text: &[u8]) -> Option<EndKind>
    ensures { result ≡ spec.end_in text.now }
{
    if text == b"complete".as_slice() {
        Some(EndKind::Complete)
    } else if text == b"fail".as_slice() {
        Some(EndKind::Fail)
    } else {
        None
    }
}

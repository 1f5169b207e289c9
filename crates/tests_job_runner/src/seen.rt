//! A session of the first worker over a script and a pool in memory, and what is seen of it.
ghost use Rattle.std.specs.Prelude.{◌≡◌, IfOk};

use crate::pool_port::PoolTestPort;
use crate::scenario::{Farm, Scenario, Trouble, new_farm, run_over};
use crate::slot_board::SlotBoard;
use byte_io::doubles::Script;
use job_runner::SessionEnd;
use pool_core::ExpireError;
use std::alloc::{AllocError, Global};
use worker_state::{Cause, Standing, Ticket};

/// The bytes one by one, with a timeout before each.
pub fn single_bytes(alloc: Global, bytes: &'static [u8]) -> Result<Vec<&'static [u8]>, AllocError> {
    let mut pieces: Vec<&'static [u8]> = Vec::new(alloc);
    for byte in bytes.chunks(1) {
        pieces.push(b"")?;
        pieces.push(byte)?;
    }
    Ok(pieces)
}

/// Lets a script take one byte at a write, if the scenario says so.
fn narrow(script: &mut Script, scenario: &Scenario)
    ensures takes { script.new.take_failures ≡ script.old.take_failures }
    ensures gives { script.new.give_failures ≡ script.old.give_failures }
{
    if scenario.single_writes {
        script.give_at_most(1);
    }
}

/// Lets the call of a script fail that the scenario names.
fn trouble(script: &mut Script, scenario: &Scenario)
    ensures takes { script.new.take_failures ≡ script.old.take_failures }
    ensures gives { script.new.give_failures ≡ script.old.give_failures }
{
    match scenario.trouble {
        Trouble::None => {}
        Trouble::Take(call) => script.fail_take(call.max(1)),
        Trouble::Give(call) => script.fail_give(call.max(1)),
    }
}

/// The link of a scenario, of which each read gives a piece. An empty piece is a timeout.
pub fn script_of(
    alloc: Global,
    scenario: &Scenario,
    pieces: &[&'static [u8]],
) -> Result<Script, AllocError>
    ensures no_take_failed { IfOk result (λ script. script.take_failures ≡ 0) }
    ensures no_give_failed { IfOk result (λ script. script.give_failures ≡ 0) }
{
    let mut script = Script::new(alloc);
    for piece in pieces {
        script.piece(piece)?;
    }
    narrow(&mut script, scenario);
    trouble(&mut script, scenario);
    Ok(script)
}

/// What is seen of a session once it has ended.
#[derive(Drop)]
pub struct Seen {
    /// How it ended.
    pub end: SessionEnd,
    /// What it wrote.
    pub written: Vec<u8>,
    /// The standing of its first job.
    pub standing: Option<Standing>,
    /// What `expire` answered.
    pub expired: Option<Result<(), ExpireError>>,
    /// How often it lost its worker.
    pub losses: u64,
    /// Why it did.
    pub lost: Option<Cause>,
}

impl Seen {
    /// The numbers of jobs grabbed, answered and reported.
    pub fn counts(&self) -> (u64, u64, u64) {
        (self.end.grabbed, self.end.answered, self.end.reported)
    }

    /// The cause for which the first job was lost.
    pub fn job_loss(&self) -> Option<Cause> {
        match self.standing {
            Some(Standing::Lost(_, cause)) => Some(cause),
            _ => None,
        }
    }

    /// Whether the first job was reported.
    pub fn is_reported(&self) -> bool {
        matches!(self.standing, Some(Standing::Reported(_)))
    }
}

/// Runs a session once over a script and a pool, whose orders it reads from the board if there is one. None if memory was refused
/// beside it.
pub fn play_once(
    alloc: Global,
    scenario: &Scenario,
    pieces: &[&'static [u8]],
    board: Option<SlotBoard>,
) -> Option<Seen> {
    let Farm {
        settings,
        pool,
        pass,
    } = new_farm(alloc, scenario.settings, scenario.first)?;
    let Ok(mut link) = script_of(alloc, scenario, pieces) else {
        return None;
    };
    let mut port = PoolTestPort::new(alloc, pool, scenario.beside, board);
    let end = run_over(alloc, scenario, &settings, pass, &mut link, &mut port)?;
    let Ok(written) = Vec::from_slice(alloc, link.output()) else {
        return None;
    };
    Some(Seen {
        end,
        written,
        standing: port.pool.standing(Ticket::new(1)),
        expired: port.expired,
        losses: port.losses,
        lost: port.last_loss,
    })
}

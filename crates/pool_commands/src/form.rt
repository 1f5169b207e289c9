//! The forms that have a fixed number of words, by the words after the first.

ghost use Rattle.std.specs.Prelude.{◌≡◌, IfOk, IfSome, map};
ghost use Rattle.pool_commands.specs.Grammar as grammar;
ghost use Rattle.pool_commands.specs.Grammar.{IsCommandWithin};
ghost use Rattle.pool_settings.specs.Slots.{slots};

use crate::command::{Command, Word};
use crate::word::{end_in, handle_in, long_in, ticket_in, worker_in};
use pool_settings::Settings;
use std::alloc::{AllocError, Global};
use worker_state::Cause;

/// A command of one word.
fn alone(command: Command, args: &[&[u8]]) -> Option<Command>
    ensures { result ≡ grammar.alone command (map (λ w. w.now) args.now) }
{
    if args.is_empty() { Some(command) } else { None }
}

fn join_in(settings: &Settings, args: &[&[u8]]) -> Option<Command>
    ensures all { result ≡ grammar.join_in settings.now (map (λ w. w.now) args.now) }
    ensures within { IfSome result (IsCommandWithin (slots settings.now)) }
{
    match args {
        [slot] => {
            let slot = settings.slot_named(slot)?;
            Some(Command::Join(slot))
        }
        _ => None,
    }
}

fn order_in(settings: &Settings, args: &[&[u8]]) -> Option<Command>
    ensures all { result ≡ grammar.order_in settings.now (map (λ w. w.now) args.now) }
    ensures within { IfSome result (IsCommandWithin (slots settings.now)) }
{
    match args {
        [slot] => {
            let slot = settings.slot_named(slot)?;
            Some(Command::Order(slot))
        }
        _ => None,
    }
}

fn job_in(args: &[&[u8]]) -> Option<Command>
    ensures { result ≡ grammar.job_in (map (λ w. w.now) args.now) }
{
    match args {
        [ticket] => {
            let ticket = ticket_in(ticket)?;
            Some(Command::Job(ticket))
        }
        _ => None,
    }
}

#[tactic(auto, using(crate::proofs::Forms::no_grab))]
fn grab_in(
    alloc: Global,
    settings: &Settings,
    args: &[&[u8]],
) -> Result<Option<Command>, AllocError>
    ensures all { IfOk result (λ c. c ≡ grammar.grab_in settings.now (map (λ w. w.now) args.now)) }
    ensures within { IfOk result (λ c. IfSome c (IsCommandWithin (slots settings.now))) }
{
    match args {
        [worker, handle, function, now] => {
            let Some(worker) = worker_in(settings, worker) else {
                return Ok(None);
            };
            let (Some(handle), Some(now_ms)) = (handle_in(handle), long_in(now)) else {
                return Ok(None);
            };
            if function.is_empty() {
                return Ok(None);
            }
            let function = Word::copied(alloc, function)?;
            Ok(Some(Command::Grab {
                worker,
                handle,
                function,
                now_ms,
            }))
        }
        _ => Ok(None),
    }
}

#[tactic(auto, using(crate::proofs::Forms::no_begin))]
fn begin_in(settings: &Settings, args: &[&[u8]]) -> Option<Command>
    ensures all { result ≡ grammar.begin_in settings.now (map (λ w. w.now) args.now) }
    ensures within { IfSome result (IsCommandWithin (slots settings.now)) }
{
    match args {
        [worker, ticket] => {
            let worker = worker_in(settings, worker)?;
            let ticket = ticket_in(ticket)?;
            Some(Command::Begin { worker, ticket })
        }
        _ => None,
    }
}

#[tactic(auto, using(crate::proofs::Forms::no_report))]
fn report_in(settings: &Settings, args: &[&[u8]]) -> Option<Command>
    ensures all { result ≡ grammar.report_in settings.now (map (λ w. w.now) args.now) }
    ensures within { IfSome result (IsCommandWithin (slots settings.now)) }
{
    match args {
        [worker, ticket, end] => {
            let worker = worker_in(settings, worker)?;
            let ticket = ticket_in(ticket)?;
            let end = end_in(end)?;
            Some(Command::Report {
                worker,
                ticket,
                end,
            })
        }
        _ => None,
    }
}

fn lose_in(settings: &Settings, args: &[&[u8]]) -> Option<Command>
    ensures all { result ≡ grammar.lose_in settings.now (map (λ w. w.now) args.now) }
    ensures within { IfSome result (IsCommandWithin (slots settings.now)) }
{
    match args {
        [worker, cause] => {
            let worker = worker_in(settings, worker)?;
            let cause = Cause::named(cause)?;
            Some(Command::Lose { worker, cause })
        }
        _ => None,
    }
}

#[tactic(auto, using(crate::proofs::Forms::no_expire))]
fn expire_in(settings: &Settings, args: &[&[u8]]) -> Option<Command>
    ensures all { result ≡ grammar.expire_in settings.now (map (λ w. w.now) args.now) }
    ensures within { IfSome result (IsCommandWithin (slots settings.now)) }
{
    match args {
        [worker, now] => {
            let worker = worker_in(settings, worker)?;
            let now_ms = long_in(now)?;
            Some(Command::Expire { worker, now_ms })
        }
        _ => None,
    }
}

/// The command of a first word and of the words after it.
pub fn fixed_form(
    alloc: Global,
    settings: &Settings,
    verb: &[u8],
    args: &[&[u8]],
) -> Result<Option<Command>, AllocError>
    ensures all { IfOk result (λ c. c ≡ grammar.fixed_form settings.now verb.now (map (λ w. w.now) args.now)) }
    ensures within { IfOk result (λ c. IfSome c (IsCommandWithin (slots settings.now))) }
{
    if verb == b"join".as_slice() {
        Ok(join_in(settings, args))
    } else if verb == b"round".as_slice() {
        Ok(alone(Command::Round, args))
    } else if verb == b"view".as_slice() {
        Ok(alone(Command::View, args))
    } else if verb == b"adopt".as_slice() {
        Ok(alone(Command::Adopt, args))
    } else if verb == b"grab".as_slice() {
        grab_in(alloc, settings, args)
    } else if verb == b"begin".as_slice() {
        Ok(begin_in(settings, args))
    } else if verb == b"report".as_slice() {
        Ok(report_in(settings, args))
    } else if verb == b"lose".as_slice() {
        Ok(lose_in(settings, args))
    } else if verb == b"expire".as_slice() {
        Ok(expire_in(settings, args))
    } else if verb == b"job".as_slice() {
        Ok(job_in(args))
    } else if verb == b"order".as_slice() {
        Ok(order_in(settings, args))
    } else if verb == b"totals".as_slice() {
        Ok(alone(Command::Totals, args))
    } else if verb == b"chapter".as_slice() {
        Ok(alone(Command::Chapter, args))
    } else {
        Ok(None)
    }
}

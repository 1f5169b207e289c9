//! Problems with answers to them, each as one line of text.
//!
//! A line has parts: `live` each live slot and its machine, `may` the functions of each machine, then the `least`, the `most` and the
//! `waiting` of each function, then the answer: the `plan` with each slot and its function, its `backlog`, and the `set` of functions.
//! Without `most` each greatest number is the number of workers. Without `plan` the answer is that there is none.

use plan_model::{Answer, FuncId, FuncSet, Input, InputError, MachineId, Plan, SlotId};
use std::alloc::{AllocError, Global};

/// What a line says in the part of this name, if it has the part.
fn part<'t>(line: &'t str, name: &str) -> Option<&'t str> {
    line.split("; ").find_map(|part| part.strip_prefix(name))
}

fn number(word: &str) -> u32 {
    word.parse().unwrap_or(u32::MAX)
}

fn numbers(alloc: Global, text: &str) -> Result<Vec<u32>, AllocError> {
    let mut numbers = Vec::new(alloc);
    for word in text.split_whitespace() {
        numbers.push(number(word))?;
    }
    Ok(numbers)
}

fn workers(alloc: Global, text: &str) -> Result<Vec<(SlotId, MachineId)>, AllocError> {
    let mut workers = Vec::new(alloc);
    for word in text.split_whitespace() {
        let (slot, machine) = word.split_once('/').unwrap_or((word, ""));
        workers.push((SlotId::new(number(slot)), MachineId::new(number(machine))))?;
    }
    Ok(workers)
}

pub(super) fn functions(alloc: Global, text: &str) -> Result<Vec<FuncId>, AllocError> {
    let mut functions = Vec::new(alloc);
    for word in text.split_whitespace() {
        functions.push(FuncId::new(number(word)))?;
    }
    Ok(functions)
}

pub(super) fn entries(
    alloc: Global,
    text: &str,
) -> Result<Vec<(SlotId, Option<FuncId>)>, AllocError> {
    let mut entries = Vec::new(alloc);
    for word in text.split_whitespace() {
        entries.push(match word.split_once(':') {
            Some((slot, function)) => {
                (
                    SlotId::new(number(slot)),
                    Some(FuncId::new(number(function))),
                )
            }
            None => (SlotId::new(number(word)), None),
        })?;
    }
    Ok(entries)
}

pub(super) fn input(alloc: Global, line: &str) -> Result<Result<Input, InputError>, AllocError> {
    let live = workers(alloc, part(line, "live").unwrap_or(""))?;
    let mut may = Vec::new(alloc);
    if let Some(rows) = part(line, "may") {
        for row in rows.split('|') {
            may.push(functions(alloc, row)?)?;
        }
    }
    let least = numbers(alloc, part(line, "least").unwrap_or(""))?;
    let waiting = numbers(alloc, part(line, "waiting").unwrap_or(""))?;
    let most = match part(line, "most") {
        Some(most) => numbers(alloc, most)?,
        None => vec![in alloc; u32::try_from(live.len()).unwrap_or(u32::MAX); least.len()]?,
    };
    Ok(Input::new(alloc, &live, &may, &least, &most, &waiting))
}

/// The input of the line and its answer, where both are taken.
pub(super) fn problem(alloc: Global, line: &str) -> Result<Option<(Input, Answer)>, AllocError> {
    let set = functions(alloc, part(line, "set").unwrap_or(""))?;
    let short = if set.is_empty() {
        None
    } else {
        FuncSet::new(set).ok()
    };
    let Ok(input) = input(alloc, line)? else {
        return Ok(None);
    };
    let Some(plan) = part(line, "plan") else {
        return Ok(short.map(|short| (input, Answer::NoPlan { short })));
    };
    let Ok(plan) = Plan::new(entries(alloc, plan)?) else {
        return Ok(None);
    };
    let backlog = part(line, "backlog ").and_then(|text| text.parse().ok());
    Ok(backlog.map(|backlog| {
        let answer = Answer::Planned {
            plan,
            backlog,
            short,
        };
        (input, answer)
    }))
}

/// Two machines: the worker of the first may do function 0, that of the second both.
pub(super) const TWO_MACHINES: &str =
    "live 0/0 1/1; may 0 | 0 1; least 0 0; waiting 6 2; plan 0:0 1:1; backlog 6; set 0 1";

//! Rounds whose answers are known, and the texts by which they are compared.

ghost use Rattle.std.specs.Prelude.{◌≡◌, IfOk, IfSome};

mod rows;
mod tables;

use bumpalo::Bump;
use level_search::solve;
use plan_model::{
    Answer, FuncId, FuncSet, Input, MachineId, Plan, SlotId, TOP_LEVEL, check, count_neighbours,
};
use std::alloc::{AllocError, Global};

/// As `bounded_input_of`, with 4,096 as each function's greatest number: no more workers can be live.
pub fn input_of(
    alloc: Global,
    live: &[(u32, u32)],
    may: &[&[u32]],
    least: &[u32],
    waiting: &[u32],
) -> Result<Option<Input>, AllocError>
    ensures { IfOk result (λ made. IfSome made (λ input. input.least ≡ least.now)) }
{
    let mut most = Vec::new(alloc);
    for _ in least {
        most.push(4096)?;
    }
    bounded_input_of(alloc, live, may, least, &most, waiting)
}

/// An input: its workers as slot and machine, the functions of each machine, and for each function the
/// least and greatest number of its workers and its waiting jobs. None where it is refused.
pub fn bounded_input_of(
    alloc: Global,
    live: &[(u32, u32)],
    may: &[&[u32]],
    least: &[u32],
    most: &[u32],
    waiting: &[u32],
) -> Result<Option<Input>, AllocError>
    ensures least { IfOk result (λ made. IfSome made (λ input. input.least ≡ least.now)) }
    ensures most { IfOk result (λ made. IfSome made (λ input. input.most ≡ most.now)) }
{
    let mut workers = Vec::new(alloc);
    for (slot, machine) in live {
        workers.push((SlotId::new(*slot), MachineId::new(*machine)))?;
    }
    let mut rows = Vec::new(alloc);
    for functions in may {
        let mut row = Vec::new(alloc);
        for function in *functions {
            row.push(FuncId::new(*function))?;
        }
        rows.push(row)?;
    }
    Ok(Input::new(alloc, &workers, &rows, least, most, waiting).ok())
}

/// A plan of slots with their functions. None where the slots do not rise.
pub fn plan_of(alloc: Global, entries: &[(u32, Option<u32>)]) -> Result<Option<Plan>, AllocError> {
    let mut listed = Vec::new(alloc);
    for (slot, function) in entries {
        let function = match function {
            Some(function) => Some(FuncId::new(*function)),
            None => None,
        };
        listed.push((SlotId::new(*slot), function))?;
    }
    Ok(Plan::new(listed).ok())
}

/// How many workers the set needs at the level.
fn need_of(input: &Input, level: u64, set: &FuncSet) -> u64 {
    let mut sum: u64 = 0;
    for function in set.functions() {
        if (function.number() as usize) < input.functions() {
            sum = sum.saturating_add(u64::from(input.need(level, *function)));
        }
    }
    sum
}

/// How many workers the plan puts on the function.
pub fn workers_on(plan: &Plan, function: u32) -> u32 {
    let mut count: u32 = 0;
    for (_, held) in plan.entries() {
        if *held == Some(FuncId::new(function)) {
            count = count.saturating_add(1);
        }
    }
    count
}

/// The answer of `solve` to an input as a line, where the input was taken and the answer is shown.
pub fn solved_line(alloc: Global, input: Option<Input>) -> Result<String, AllocError> {
    let Some(input) = input else {
        return String::from_str(alloc, "refused");
    };
    let bump = Bump::new(alloc);
    let solved = solve(alloc, &bump, &input, None)?;
    match check(&input, &solved.answer) {
        Ok(()) => line_of(alloc, &input, &solved.answer),
        Err(_) => String::from_str(alloc, "not shown"),
    }
}

/// The answer as a line: how many workers each function has, the backlog, and what the set needs
/// one level below beside how many workers may do any of it.
pub fn line_of(alloc: Global, input: &Input, answer: &Answer) -> Result<String, AllocError> {
    match answer {
        Answer::Planned {
            plan,
            backlog,
            short,
        } => {
            let mut line = String::new(alloc);
            for number in 0..input.functions() as u32 {
                line.push_str(&format!(in alloc; "{} ", workers_on(plan, number))?)?;
            }
            line.push_str(&format!(in alloc; "backlog {}", *backlog)?)?;
            if let Some(set) = short {
                let need = need_of(input, backlog.saturating_sub(1), set);
                let have = count_neighbours(input, set);
                line.push_str(&format!(in alloc; " need {} have {}", need, have)?)?;
            }
            Ok(line)
        }
        Answer::NoPlan { short } => {
            let need = need_of(input, TOP_LEVEL, short);
            let have = count_neighbours(input, short);
            format!(in alloc; "noplan need {} have {}", need, have)
        }
    }
}

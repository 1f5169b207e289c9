//! The machines of the workers that are added.

ghost use Rattle.std.specs.Prelude.{◌≡◌, ◌++◌, ◌<◌, ◌≤◌, nat_lt, IfNone, IfOk, IfSome, IsTrue};
ghost use Rattle.std.specs.Prelude.{count_by, length, replicate, slice_index};
ghost use Rattle.plan_sizing.specs.Hiring.{Adds, AreHires, AreInOrder, AreKnown, AreScores, IsBestBelow};

use plan_model::{FuncId, Input, MachineId};
use std::alloc::{AllocError, Global};

/// An added worker, by its machine and its function.
pub type Hire = (MachineId, FuncId);

/// The workers that are added if each function lacks so many, those of lower machines first. Each is of a machine that may do its
/// function, and of those of one that may do the most of the functions that lack workers. The only error is out of memory.
pub fn hires_of(alloc: Global, input: &Input, lacks: &[u32]) -> Result<Vec<Hire>, AllocError>
    requires few { length lacks.now ≤ 1024 }
    requires known { AreKnown input.now lacks.now }
    ensures hires { IfOk result (λ hires. AreHires input.now lacks.now hires.items) }
    ensures order { IfOk result (λ hires. AreInOrder hires.items) }
{
    let scores = scores_of(alloc, input, lacks)?;
    let mut hires = Vec::new(alloc);
    for number in 0..lacks.len() as u32 {
        add_for(input, lacks, &scores, FuncId::new(number), &mut hires)?;
    }
    hires.sort_by_key(|hire| hire.0)?;
    Ok(hires)
}

/// Adds as many workers for a function as it lacks.
fn add_for(
    input: &Input,
    lacks: &[u32],
    scores: &[usize],
    function: FuncId,
    hires: &mut Vec<Hire>,
) -> Result<(), AllocError>
    requires function { function < length lacks.now }
    requires scores { AreScores input.now lacks.now scores.now }
    requires known { AreKnown input.now lacks.now }
    ensures { IfOk result (λ _. Adds input.now lacks.now function (slice_index lacks.now function) hires.old.items hires.new.items) }
{
    let many = lacks[function.number() as usize];
    if many == 0 {
        return Ok(());
    }
    if let Some(machine) = best_machine(input, scores, function) {
        hire(hires, MachineId::new(machine), function, many)?;
    }
    Ok(())
}

/// Adds so many equal workers.
fn hire(
    hires: &mut Vec<Hire>,
    machine: MachineId,
    function: FuncId,
    many: u32,
) -> Result<(), AllocError>
    ensures { IfOk result (λ _. hires.new.items ≡ hires.old.items ++ replicate many (machine, function)) }
{
    for _round in 0..many {
        hires.push((machine, function))?;
    }
    Ok(())
}

/// The number of the machine with the greatest score that may do the function, the first of equals.
fn best_machine(input: &Input, scores: &[usize], function: FuncId) -> Option<u32>
    requires { length scores.now ≡ length input.now.may }
    ensures { IsBestBelow input.now scores.now function (length input.now.may) result }
{
    input.facts();
    let mut best: Option<u32> = None;
    for machine in 0..input.machines() as u32 {
        if input.may(MachineId::new(machine), function) && is_better(scores, machine, best) {
            best = Some(machine);
        }
    }
    best
}

/// Whether the machine has a greater score than the best so far, if there is one.
fn is_better(scores: &[usize], machine: u32, best: Option<u32>) -> bool
    requires machine { machine < length scores.now }
    requires best { IfSome best (λ b. b < length scores.now) }
    ensures none { IfNone best (IsTrue result) }
    ensures some { IfSome best (λ b. result ≡ nat_lt (slice_index scores.now b) (slice_index scores.now machine)) }
{
    match best {
        Some(best) => scores[machine as usize] > scores[best as usize],
        None => true,
    }
}

/// For each machine how many of the functions that lack workers it may do.
fn scores_of(alloc: Global, input: &Input, lacks: &[u32]) -> Result<Vec<usize>, AllocError>
    ensures { IfOk result (λ scores. AreScores input.now lacks.now scores.items) }
{
    input.facts();
    let mut scores = Vec::new(alloc);
    for machine in 0..input.machines() as u32 {
        let row = input.permitted(MachineId::new(machine));
        scores.push(score(row, lacks))?;
    }
    Ok(scores)
}

fn score(row: &[FuncId], lacks: &[u32]) -> usize
    ensures { result ≡ count_by (λ f. nat_lt 0 (slice_index lacks.now f)) row.now }
{
    let mut score = 0;
    for function in row {
        score += usize::from(is_lacking(lacks, *function));
    }
    score
}

fn is_lacking(lacks: &[u32], function: FuncId) -> bool
    ensures { result ≡ nat_lt 0 (slice_index lacks.now function) }
{
    match lacks.get(function.number() as usize) {
        Some(many) => *many > 0,
        None => false,
    }
}

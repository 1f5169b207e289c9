//! Rounds with answers that were worked out by hand.

use super::{input_of, plan_of, solved_line};
use bumpalo::Bump;
use level_search::solve;
use plan_model::{Answer, SlotId};
use std::alloc::{AllocError, Global};

/// The answer of `solve` as a line.
fn solved(
    alloc: Global,
    live: &[(u32, u32)],
    may: &[&[u32]],
    least: &[u32],
    waiting: &[u32],
) -> Result<String, AllocError> {
    let input = input_of(alloc, live, may, least, waiting)?;
    solved_line(alloc, input)
}

/// Whether the answer of `solve` is this line.
fn answers(
    alloc: Global,
    live: &[(u32, u32)],
    may: &[&[u32]],
    least: &[u32],
    waiting: &[u32],
    line: &str,
) -> bool {
    solved(alloc, live, may, least, waiting).is_ok_and(|found| found.as_str() == line)
}

#[test]
fn answers_by_hand(rt: HostRuntime) {
    let alloc = rt.alloc();

    // Two machines of one worker: the first may do x, the second x and y.
    assert!(rt;
        answers(
            alloc,
            &[(0, 0), (1, 1)],
            &[&[0], &[0, 1]],
            &[0, 0],
            &[6, 2],
            "1 1 backlog 6 need 3 have 2"
        )
    );

    // Nine jobs on two workers: the quotient is rounded up.
    assert!(rt;
        answers(
            alloc,
            &[(0, 0), (1, 0)],
            &[&[0]],
            &[0],
            &[9],
            "2 backlog 5 need 3 have 2"
        )
    );

    // The longest queue does not get every worker.
    let three = [(0, 0), (1, 0), (2, 0)];
    assert!(rt;
        answers(
            alloc,
            &three,
            &[&[0, 1]],
            &[0, 0],
            &[10, 4],
            "2 1 backlog 5 need 4 have 3"
        )
    );
    assert!(rt;
        answers(
            alloc,
            &three,
            &[&[0, 1]],
            &[0, 2],
            &[10, 4],
            "1 2 backlog 10 need 4 have 3"
        )
    );

    // Nobody is live: the function is stranded, and its least number cannot be met.
    assert!(rt; answers(alloc, &[], &[&[0]], &[0], &[7], "0 backlog 0"));
    assert!(rt; answers(alloc, &[], &[&[0]], &[1], &[7], "noplan need 1 have 0"));

    // One worker for two functions serves the longer queue.
    assert!(rt;
        answers(
            alloc,
            &[(0, 0)],
            &[&[0, 1]],
            &[0, 0],
            &[3, 7],
            "0 1 backlog 4294967299 need 2 have 1"
        )
    );
    assert!(rt;
        answers(
            alloc,
            &[(0, 0)],
            &[&[0, 1]],
            &[0, 0],
            &[7, 3],
            "1 0 backlog 4294967299 need 2 have 1"
        )
    );

    // The set of all functions is not short here: it needs 3 and has 4.
    let four = [(0, 0), (1, 1), (2, 1), (3, 1)];
    assert!(rt;
        answers(
            alloc,
            &four,
            &[&[0], &[1]],
            &[0, 0],
            &[8, 3],
            "1 3 backlog 8 need 2 have 1"
        )
    );
}

#[test]
fn answers_at_the_edges(rt: HostRuntime) {
    let alloc = rt.alloc();
    assert!(rt;
        answers(
            alloc,
            &[(0, 0)],
            &[&[0]],
            &[0],
            &[4294967295],
            "1 backlog 4294967295 need 2 have 1"
        )
    );
    assert!(rt; answers(alloc, &[(0, 0)], &[&[0]], &[0], &[0], "1 backlog 0"));

    // One job for two workers: nobody is left idle.
    assert!(rt;
        answers(
            alloc,
            &[(0, 0), (1, 0)],
            &[&[0]],
            &[0],
            &[1],
            "2 backlog 1 need 3 have 2"
        )
    );
    assert!(rt; answers(alloc, &[(0, 0), (1, 0)], &[&[0]], &[0], &[0], "2 backlog 0"));

    // Three machines in a chain: at level 1 each function needs two workers, so more than one set is
    // short.
    let found = solved(
        alloc,
        &[(0, 0), (1, 1), (2, 2)],
        &[&[0], &[0, 1], &[1, 2]],
        &[0, 0, 0],
        &[2, 2, 2],
    );
    assert!(rt; found.is_ok_and(|line| line.starts_with("1 1 1 backlog 2 need ")));
}

/// What the worker of slot 0 does, and the backlog, in a round that follows the plan of these
/// functions.
fn follows(
    alloc: Global,
    live: &[(u32, u32)],
    waiting: &[u32],
    previous: &[(u32, Option<u32>)],
) -> Result<String, AllocError> {
    let Some(plan) = plan_of(alloc, previous)? else {
        return String::from_str(alloc, "the plan is refused");
    };
    let Some(input) = input_of(alloc, live, &[&[0, 1]], &[0, 0], waiting)? else {
        return String::from_str(alloc, "the input is refused");
    };
    let bump = Bump::new(alloc);
    let solved = solve(alloc, &bump, &input, Some(&plan))?;
    match &solved.answer {
        Answer::Planned { plan, backlog, .. } => match plan.function_of(SlotId::new(0)) {
            Some(function) => format!(in alloc; "{} backlog {}", function.number(), *backlog),
            None => format!(in alloc; "idle backlog {}", *backlog),
        },
        Answer::NoPlan { .. } => String::from_str(alloc, "noplan"),
    }
}

/// Whether this is what the worker of slot 0 does, and the backlog.
fn goes_on(
    alloc: Global,
    live: &[(u32, u32)],
    waiting: &[u32],
    previous: &[(u32, Option<u32>)],
    line: &str,
) -> bool {
    follows(alloc, live, waiting, previous).is_ok_and(|found| found.as_str() == line)
}

#[test]
fn previous_plan_stays(rt: HostRuntime) {
    let alloc = rt.alloc();

    // One worker on y, which has no job left: y is as good as x.
    assert!(rt; goes_on(alloc, &[(0, 0)], &[0, 0], &[(0, Some(1))], "1 backlog 0"));

    // Three workers, of whom the first is on y, and one job of x fewer in the second round.
    let three = [(0, 0), (1, 0), (2, 0)];
    let plan = [(0, Some(1)), (1, Some(0)), (2, Some(0))];
    assert!(rt; goes_on(alloc, &three, &[10, 4], &plan, "1 backlog 5"));
    assert!(rt; goes_on(alloc, &three, &[9, 4], &plan, "1 backlog 5"));
}

/// How many looks a first round takes.
fn looks_of(
    alloc: Global,
    live: &[(u32, u32)],
    may: &[&[u32]],
    least: &[u32],
    waiting: &[u32],
) -> Result<Option<u64>, AllocError> {
    let Some(input) = input_of(alloc, live, may, least, waiting)? else {
        return Ok(None);
    };
    let bump = Bump::new(alloc);
    let solved = solve(alloc, &bump, &input, None)?;
    Ok(Some(solved.looks))
}

/// Whether a first round takes so many.
fn looks_are(
    alloc: Global,
    live: &[(u32, u32)],
    may: &[&[u32]],
    least: &[u32],
    waiting: &[u32],
    count: u64,
) -> bool {
    looks_of(alloc, live, may, least, waiting).is_ok_and(|looks| looks == Some(count))
}

#[test]
fn looks_by_hand(rt: HostRuntime) {
    let alloc = rt.alloc();

    // One worker for one function: one look finds him, level 0 needs more workers of it than there are, and one look is for the filling.
    assert!(rt; looks_are(alloc, &[(0, 0)], &[&[0]], &[0], &[1], 2));

    // Each function finds its worker at the first look. Levels below 6 need more workers than there are; level 5 is searched for its set
    // and stuck after two looks, one at each machine's worker. Three looks are for the filling.
    assert!(rt;
        looks_are(
            alloc,
            &[(0, 0), (1, 1)],
            &[&[0], &[0, 1]],
            &[0, 0],
            &[6, 2],
            7
        )
    );

    // One look and two at the first level, and three more at level 7. Levels below 5 need more workers than there are; level 4 is stuck
    // after three looks, as the machine is passed over for the second function. Six looks are for the filling.
    let three = [(0, 0), (1, 0), (2, 0)];
    assert!(rt; looks_are(alloc, &three, &[&[0, 1]], &[0, 0], &[10, 4], 15));
}

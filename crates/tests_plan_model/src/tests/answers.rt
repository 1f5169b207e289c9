//! Answers that are shown, and what is wrong with others.

ghost use Rattle.std.specs.Prelude.{◌<◌, ◌↔◌, All, IsTrue};

use super::examples::problem;
use plan_model::{
    Answer, Certified, FuncId, Input, Reason, TOP_LEVEL, check, count_neighbours, total_need,
};
use std::alloc::{AllocError, Global};

/// What the crate says of an example.
#[derive(Clone, Copy, Debug, PartialEq, Eq)]
struct Seen {
    /// What is wrong with the answer
    reason: Option<Reason>,
    /// How many workers the set needs one level below the backlog, and how many may do any of it
    need_and_have: (u64, u32),
}

/// Whether each function is one of so many.
fn are_below(set: &[FuncId], functions: usize) -> bool
    ensures { IsTrue result ↔ All (λ f. f < functions) set.now }
{
    set.iter()
        .all(|function| (function.number() as usize) < functions)
}

/// What the set of an answer needs and has.
fn need_and_have(input: &Input, answer: &Answer) -> (u64, u32) {
    let (level, set) = match answer {
        Answer::Planned { backlog, short, .. } => match short {
            Some(set) => (backlog.saturating_sub(1), set),
            None => return (0, 0),
        },
        Answer::NoPlan { short } => (TOP_LEVEL, short),
    };
    if !are_below(set.functions(), input.functions()) {
        return (0, 0);
    }
    (total_need(input, level, set), count_neighbours(input, set))
}

fn examine(alloc: Global, example: &str) -> Result<Option<Seen>, AllocError> {
    let Some((input, answer)) = problem(alloc, example)? else {
        return Ok(None);
    };
    Ok(Some(Seen {
        reason: check(&input, &answer).err(),
        need_and_have: need_and_have(&input, &answer),
    }))
}

/// Answers that are best, each with what its set needs and has.
const BEST: [(&str, (u64, u32)); 11] = [
    (
        "live 0/0 1/1; may 0 | 0 1; least 0 0; waiting 6 2; plan 0:0 1:1; backlog 6; set 0 1",
        (3, 2),
    ),
    (
        "live 0/0 1/0; may 0; least 0; waiting 9; plan 0:0 1:0; backlog 5; set 0",
        (3, 2),
    ),
    (
        "live 0/0 1/0 2/0; may 0 1; least 0 0; waiting 10 4; plan 0:0 1:0 2:1; backlog 5; set 0 1",
        (4, 3),
    ),
    (
        "live 0/0 1/0 2/0; may 0 1; least 0 2; waiting 10 4; plan 0:0 1:1 2:1; backlog 10; set 0 1",
        (4, 3),
    ),
    (
        "live; may 0; least 0; waiting 7; plan; backlog 0; set",
        (0, 0),
    ),
    (
        "live 0/0; may 0 1; least 0 0; waiting 3 7; plan 0:1; backlog 4294967299; set 0 1",
        (2, 1),
    ),
    (
        "live 0/0; may 0 1; least 0 0; waiting 7 3; plan 0:0; backlog 4294967299; set 0 1",
        (2, 1),
    ),
    (
        "live 0/0 1/1 2/1 3/1; may 0 | 1; least 0 0; waiting 8 3; plan 0:0 1:1 2:1 3:1; backlog 8; set 0",
        (2, 1),
    ),
    (
        "live 0/0; may 0; least 0; waiting 4294967295; plan 0:0; backlog 4294967295; set 0",
        (2, 1),
    ),
    (
        "live 0/0 1/0; may 0; least 0; waiting 1; plan 0:0 1:0; backlog 1; set 0",
        (3, 2),
    ),
    (
        "live 0/0 1/0; may 0; least 0; waiting 0; plan 0:0 1:0; backlog 0; set",
        (0, 0),
    ),
];

/// Answers that are best with greatest numbers, each with what its set needs and has.
const BEST_WITH_MOST: [(&str, (u64, u32)); 6] = [
    (
        "live 0/0 1/0; may 0; least 0; most 1; waiting 9; plan 0:0 1; backlog 9; set 0",
        (3, 2),
    ),
    (
        "live 0/0 1/0; may 0; least 0; most 0; waiting 9; plan 0 1; backlog 4294967305; set 0",
        (3, 2),
    ),
    (
        "live 0/0 1/0; may 0; least 2; most 1; waiting 9; set 0",
        (3, 2),
    ),
    (
        "live 0/0 1/0; may 0; least 0; most 4294967295; waiting 9; plan 0:0 1:0; backlog 5; set 0",
        (3, 2),
    ),
    (
        "live 0/0 1/0; may 0; least 0; most 1; waiting 0; plan 1:0; backlog 0; set",
        (0, 0),
    ),
    (
        "live 0/0 1/0 2/0; may 0 1; least 0 0; most 1 1; waiting 10 4; plan 0:0 2:1; backlog 10; set 0",
        (4, 3),
    ),
];

/// Plans that are best, by hand, with what their sets need and have.
#[test]
fn best_plans(rt: HostRuntime) -> Result<(), AllocError> {
    for (number, (example, need_and_have)) in BEST.iter().enumerate() {
        let expected = Seen {
            reason: None,
            need_and_have: *need_and_have,
        };
        assert_eq!(rt;
            examine(rt.alloc(), example)?,
            Some(expected),
            "example {number}"
        );
    }
    let nobody = "live; may 0; least 1; waiting 7; set 0";
    let expected = Seen {
        reason: None,
        need_and_have: (1, 0),
    };
    assert_eq!(rt; examine(rt.alloc(), nobody)?, Some(expected));
    Ok(())
}

/// A function gets no more workers than its greatest number, and who may do only such functions stays idle.
#[test]
fn best_with_most(rt: HostRuntime) -> Result<(), AllocError> {
    for (number, (example, need_and_have)) in BEST_WITH_MOST.iter().enumerate() {
        let expected = Seen {
            reason: None,
            need_and_have: *need_and_have,
        };
        assert_eq!(rt;
            examine(rt.alloc(), example)?,
            Some(expected),
            "example {number}"
        );
    }
    Ok(())
}

/// Answers that are not shown, each with the first reason that is true.
const NOT_SHOWN: [(&str, Reason); 18] = [
    (
        "live 0/0 1/1; may 0 | 0 1; least 0 0; waiting 6 2; plan 0:0 1:1; backlog 5; set 0 1",
        Reason::WrongBacklog,
    ),
    (
        "live 0/0 1/1; may 0 | 0 1; least 0 0; waiting 6 2; plan 0:1 1:1; backlog 6; set 0 1",
        Reason::NotPermitted,
    ),
    (
        "live 0/0 1/1; may 0 | 0 1; least 0 0; waiting 6 2; plan 0:0 1:1 2; backlog 6; set 0 1",
        Reason::NotPermitted,
    ),
    (
        "live 0/0 1/1; may 0 | 0 1; least 0 0; waiting 6 2; plan 0:0 1:1; backlog 6; set 0",
        Reason::NotShort,
    ),
    (
        "live 0/0 1/1; may 0 | 0 1; least 0 0; waiting 6 2; plan 0:0 1:1; backlog 6; set 0 1 2",
        Reason::NotShort,
    ),
    (
        "live 0/0 1/1; may 0 | 0 1; least 0 0; waiting 6 2; plan 0:0 1:1; backlog 6; set",
        Reason::SetMissing,
    ),
    (
        "live 0/0 1/0 2/0; may 0 1; least 0 2; waiting 10 4; plan 0:0 1:0 2:1; backlog 5; set 0 1",
        Reason::BelowLeast,
    ),
    (
        "live 0/0 1/0 2/0; may 0 1; least 0 2; waiting 10 4; plan 0:0 1:0 2:1; backlog 6; set 0 1",
        Reason::BelowLeast,
    ),
    (
        "live 0/0 1/1 2/1 3/1; may 0 | 1; least 0 0; waiting 8 3; plan 0:0 1:1 2:1 3:1; backlog 8; set 0 1",
        Reason::NotShort,
    ),
    (
        "live 0/0 1/0 2/0; may 0 1; least 0 0; waiting 8 1; plan 0:0 1:1 2; backlog 8; set 0 1",
        Reason::NotShort,
    ),
    (
        "live 0/0 1/1; may 0 | 0 1; least 0 0; waiting 0 0; plan 0:0; backlog 0; set",
        Reason::Idle,
    ),
    (
        "live 0/0 1/1; may 0 | 0 1; least 0 0; waiting 0 0; plan 0:0 1:1; backlog 0; set 0 1",
        Reason::NotShort,
    ),
    (
        "live 0/0 1/1; may 0 | 0 1; least 0 0; waiting 6 2; set 0 1",
        Reason::NotShort,
    ),
    (
        "live 0/0 1/0; may 0; least 0; most 1; waiting 9; plan 0:0 1:0; backlog 5; set 0",
        Reason::AboveMost,
    ),
    (
        "live 0/0 1/0; may 0; least 3; most 1; waiting 9; plan 0:0 1:0; backlog 5; set 0",
        Reason::BelowLeast,
    ),
    (
        "live 0/0 1/0; may 0; least 0; waiting 0; plan 1:0; backlog 0; set",
        Reason::Idle,
    ),
    (
        "live 0/0 1/0 2/0; may 0 1; least 0 0; most 1 1; waiting 0 0; plan 0:0 1:0 2; backlog 0; set",
        Reason::Idle,
    ),
    (
        "live 0/0 1/0 2/0; may 0 1; least 0 0; most 1 0; waiting 0 0; plan 0:0 1:0 2; backlog 0; set",
        Reason::AboveMost,
    ),
];

/// Answers that are not shown, each with the first reason that is true.
#[test]
fn reasons(rt: HostRuntime) -> Result<(), AllocError> {
    for (number, (example, reason)) in NOT_SHOWN.iter().enumerate() {
        let found = examine(rt.alloc(), example)?.and_then(|seen| seen.reason);
        assert_eq!(rt; found, Some(*reason), "example {number}");
        let Some((input, answer)) = problem(rt.alloc(), example)? else {
            return Err(AllocError);
        };
        let tried = match Certified::tried(input, answer) {
            Ok(_) => None,
            Err((_, _, reason)) => Some(reason),
        };
        assert_eq!(rt; tried, Some(*reason), "example {number}, tried");
    }
    Ok(())
}

/// Where nobody is live the empty plan is made and shown where there is memory.
#[test]
fn nobody_is_live(rt: HostRuntime) -> Result<(), AllocError> {
    let shown = Seen {
        reason: None,
        need_and_have: (0, 0),
    };
    assert_eq!(rt; examine(rt.alloc(), "plan; backlog 0")?, Some(shown));
    Ok(())
}

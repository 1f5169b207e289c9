//! Inputs that are refused, and what the others keep.

use super::examples::{TWO_MACHINES, entries, functions, input, problem};
use plan_model::{Answer, Certified, FuncId, FuncSet, Input, InputError, MachineId, Plan, SlotId};
use std::alloc::{AllocError, Global};

/// Inputs with the first refusal that is true of them, if there is one.
const REFUSED: [(&str, Option<InputError>); 10] = [
    (
        "live 1/0 0/0; may 0; least 0; waiting 9",
        Some(InputError::SlotOrder),
    ),
    (
        "live 0/0 0/9; may 0; least 0; waiting 9",
        Some(InputError::SlotOrder),
    ),
    (
        "live 0/1; may 0; least 0; waiting 9",
        Some(InputError::BadMachine),
    ),
    (
        "live 0/0; may 1; least 0; waiting 9",
        Some(InputError::BadMachine),
    ),
    (
        "live 0/0; may 0; least 0; waiting 0 0",
        Some(InputError::BadMachine),
    ),
    (
        "live 0/0; may 0; least 0; most; waiting 9",
        Some(InputError::BadMachine),
    ),
    ("live 0/0; may 0; least 2; most 1; waiting 9", None),
    (
        "live 4096/0; may 0; least 0; waiting 9",
        Some(InputError::TooMany),
    ),
    (
        "live 4096/9; may 0; least 0; waiting 9",
        Some(InputError::BadMachine),
    ),
    ("live 4095/0; may 0 0; least 0; waiting 9", None),
];

/// Inputs that are refused, each with the first refusal that is true.
#[test]
fn refusals(rt: HostRuntime) -> Result<(), AllocError> {
    for (number, (example, error)) in REFUSED.iter().enumerate() {
        let found = input(rt.alloc(), example)?.err();
        assert_eq!(rt; found, *error, "example {number}");
    }
    assert!(rt; Plan::new(entries(rt.alloc(), "1 1")?).is_err());
    assert!(rt; FuncSet::new(functions(rt.alloc(), "1 0")?).is_err());
    Ok(())
}

/// What is said of an input without live workers that has so many machines and functions.
fn refusal_at(
    alloc: Global,
    machines: usize,
    functions: usize,
) -> Result<Option<InputError>, AllocError> {
    let mut may = Vec::new(alloc);
    for _ in 0..machines {
        may.push(Vec::new(alloc))?;
    }
    let zeros = vec![in alloc; 0u32; functions]?;
    Ok(Input::new(alloc, &[], &may, &zeros, &zeros, &zeros).err())
}

/// 256 machines and 1,024 functions are taken, and one more of either is not.
#[test]
fn limits(rt: HostRuntime) -> Result<(), AllocError> {
    let alloc = rt.alloc();
    assert_eq!(rt; refusal_at(alloc, 256, 1024)?, None);
    assert_eq!(rt; refusal_at(alloc, 257, 1024)?, Some(InputError::TooMany));
    assert_eq!(rt; refusal_at(alloc, 256, 1025)?, Some(InputError::TooMany));
    Ok(())
}

/// A function that a row names twice is permitted once.
#[test]
fn named_twice(rt: HostRuntime) -> Result<(), AllocError> {
    let Ok(input) = input(rt.alloc(), "live 0/0; may 0 0; least 0; waiting 9")? else {
        return Err(AllocError);
    };
    if input.machines() == 0 {
        return Err(AllocError);
    }
    assert_eq!(rt; input.permitted(MachineId::new(0)).len(), 1);
    Ok(())
}

/// A copy is the plan itself, and a certified answer comes back as it went in.
#[test]
fn copies(rt: HostRuntime) -> Result<(), AllocError> {
    let Some((input, answer)) = problem(rt.alloc(), TWO_MACHINES)? else {
        return Err(AllocError);
    };
    let Ok(made) = Certified::tried(input, answer) else {
        return Err(AllocError);
    };
    let (_, answer) = made.parts();
    let Answer::Planned { plan, backlog, .. } = answer else {
        return Err(AllocError);
    };
    assert_eq!(rt; backlog, 6);
    let copy = plan.copy(rt.alloc())?;
    assert!(rt; copy.entries() == plan.entries() && copy.entries().len() == 2);
    assert_eq!(rt;
        copy.function_of(SlotId::new(1)).map(FuncId::number),
        Some(1)
    );
    assert_eq!(rt; copy.function_of(SlotId::new(2)), None);
    Ok(())
}

/// Two inputs are the same problem where all their numbers are.
#[test]
fn same_problems(rt: HostRuntime) -> Result<(), AllocError> {
    let more_waits = "live 0/0 1/1; may 0 | 0 1; least 0 0; waiting 6 3";
    let fewer_at_most = "live 0/0 1/1; may 0 | 0 1; least 0 0; most 2 1; waiting 6 2";
    let Ok(first) = input(rt.alloc(), TWO_MACHINES)? else {
        return Err(AllocError);
    };
    for (example, is_same) in [
        (TWO_MACHINES, true),
        (more_waits, false),
        (fewer_at_most, false),
    ] {
        let Ok(other) = input(rt.alloc(), example)? else {
            return Err(AllocError);
        };
        assert_eq!(rt; first.equals(&other), is_same);
    }
    Ok(())
}

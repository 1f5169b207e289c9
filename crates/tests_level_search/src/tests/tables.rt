//! The tables of a round, served or short.

use super::{bounded_input_of, plan_of};
use augment::{Served, serve};
use bumpalo::Bump;
use level_search::solve;
use plan_model::{FuncId, SlotId};
use round_arena::{build, copy_plan, looks};
use std::test::Fail;

// Two machines of one worker: the first may do x, the second x and y.
#[test]
fn serves_or_shows_a_short_set(rt: HostRuntime) -> Result<(), Fail> {
    let alloc = rt.alloc();
    let bump = Bump::new(alloc);
    let Some(nobody) = plan_of(alloc, &[])? else {
        assert!(rt; false, "the plan is refused");
        return Ok(());
    };
    let live = [(0, 0), (1, 1)];
    let Some(input) = bounded_input_of(alloc, &live, &[&[0], &[0, 1]], &[0, 0], &[2, 2], &[6, 2])?
    else {
        assert!(rt; false, "the input is refused");
        return Ok(());
    };
    let mut tables = build(&bump, &input, &nobody)?;
    assert_eq!(rt; looks(&tables), 0);
    match serve(&mut tables, &[2, 1])? {
        Served::Short(set) => assert!(rt; set == [FuncId::new(0), FuncId::new(1)].as_slice()),
        Served::All => assert!(rt; false, "served"),
    }
    let mut again = build(&bump, &input, &nobody)?;
    match serve(&mut again, &[1, 1])? {
        Served::All => (),
        Served::Short(_) => assert!(rt; false, "short"),
    }
    let plan = copy_plan(alloc, &again)?;
    assert!(rt; plan.function_of(SlotId::new(0)) == Some(FuncId::new(0)));
    assert!(rt; plan.function_of(SlotId::new(1)) == Some(FuncId::new(1)));

    // Two workers and three permitted pairs: at most 34 * (2 + 1) * 3 looks, and no fewer than two.
    let solved = solve(alloc, &bump, &input, None)?;
    assert!(rt; 2 <= solved.looks && solved.looks <= 306);
    Ok(())
}

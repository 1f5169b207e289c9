//! A source that fails.

use super::texts::ROW;
use byte_io::doubles::Script;
use gear_status::{StatusError, read_status};

#[test]
fn a_read_that_fails_ends_the_text(rt: HostRuntime) {
    let alloc = rt.alloc();
    let mut script = Script::new(alloc);
    script.piece(&ROW[..5]).expect(&rt, "memory");
    script.piece(&ROW[5..]).expect(&rt, "memory");
    script.fail_take(2);
    assert!(rt; matches!(read_status(alloc, &mut script), Err(StatusError::ReadFault)));
}

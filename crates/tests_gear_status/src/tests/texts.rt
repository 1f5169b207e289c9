//! Status texts and their loads.

use byte_io::SliceSource;
use byte_io::doubles::Script;
use gear_status::{Load, StatusError, load_of, read_status};
use refusal::Labelled;
use std::alloc::{AllocError, Global};

/// Two functions, with 6 and 2 jobs that wait and none and one that run.
pub const ROW: &[u8] = b"x\t6\t0\t2\ny\t2\t0\t1\n.\n";

/// The waiting jobs of a name, or why the text is not taken.
fn waiting_of(alloc: Global, text: &[u8], name: &[u8]) -> Result<u32, StatusError> {
    let mut source = SliceSource::new(text);
    Ok(read_status(alloc, &mut source)?.waiting(name))
}

/// What the text means, read in two pieces.
fn waiting_in_two(alloc: Global, text: &[u8], cut: usize) -> Result<u32, StatusError> {
    let (first, second) = text.split_at(cut.min(text.len()));
    let mut script = Script::new(alloc);
    script.piece(first)?;
    script.lull()?;
    script.piece(second)?;
    Ok(read_status(alloc, &mut script)?.waiting(b"x"))
}

/// What the text means, read byte by byte with a timeout before each of the first 60.
fn waiting_in_bytes(alloc: Global, text: &[u8]) -> Result<u32, StatusError> {
    let mut script = Script::new(alloc);
    let mut lulls: u32 = 0;
    for byte in text {
        if lulls < 60 {
            script.lull()?;
            lulls += 1;
        }
        script.piece(&[*byte])?;
    }
    Ok(read_status(alloc, &mut script)?.waiting(b"x"))
}

/// The text after so many lulls.
fn waiting_after(alloc: Global, lulls: u32) -> Result<u32, StatusError> {
    let mut script = Script::new(alloc);
    for _ in 0..lulls {
        script.lull()?;
    }
    script.piece(ROW)?;
    Ok(read_status(alloc, &mut script)?.waiting(b"x"))
}

/// A line `x TAB 1 TAB 0 TAB 0` whose name is made longer, so that it has so many bytes.
fn push_long_line(text: &mut Vec<u8>, len: usize) -> Result<(), AllocError> {
    for _ in 6..len {
        text.push(b'x')?;
    }
    text.extend_from_slice(b"\t1\t0\t0\n")?;
    Ok(())
}

/// The longest name of a line `NAME TAB 1 TAB 0 TAB 0`.
fn long_name(alloc: Global) -> Result<Vec<u8>, AllocError> {
    let mut name = Vec::new(alloc);
    name.resize(4090, b'x')?;
    Ok(name)
}

/// A text of so many short lines, and then a last line.
fn lines_then(alloc: Global, count: u32, last: &[u8]) -> Result<Vec<u8>, AllocError> {
    let mut text = Vec::new(alloc);
    for _ in 0..count {
        text.extend_from_slice(b"x\t1\t0\t0\n")?;
    }
    text.extend_from_slice(last)?;
    Ok(text)
}

/// Whether so many jobs wait for the function of this name.
fn has_waiting(alloc: Global, text: &[u8], name: &[u8], waiting: u32) -> bool {
    waiting_of(alloc, text, name) == Ok(waiting)
}

/// Whether the text is not taken, for this reason.
fn refuses(alloc: Global, text: &[u8], error: StatusError) -> bool {
    waiting_of(alloc, text, b"x") == Err(error)
}

#[test]
fn meanings_of_texts(rt: HostRuntime) {
    let alloc = rt.alloc();
    assert!(rt; has_waiting(alloc, ROW, b"x", 6));
    assert!(rt; has_waiting(alloc, ROW, b"y", 2));
    assert!(rt; has_waiting(alloc, ROW, b"z", 0));
    assert!(rt; has_waiting(alloc, b"x\t4294967295\t0\t0\n.\n", b"x", 4294967295));
    assert!(rt; has_waiting(alloc, b"x\t2\t5\t0\n.\n", b"x", 0));
    assert!(rt; has_waiting(alloc, b"x\t6\t0\t2\r\n.\r\nrest", b"x", 6));
    assert!(rt; has_waiting(alloc, b"x\t5\t0\t0\nx\t3\t0\t0\n.\n", b"x", 3));
    assert!(rt; has_waiting(alloc, b"a\tb\t1\t0\t0\n.\n", b"a\tb", 1));
    assert!(rt; has_waiting(alloc, b"\t007\t0\t0\n.\n", b"", 7));
}

#[test]
fn texts_that_are_not_taken(rt: HostRuntime) {
    let alloc = rt.alloc();
    assert!(rt; refuses(alloc, b"x\t4294967295\t0\t0\n", StatusError::Truncated));
    assert!(rt;
        refuses(
            alloc,
            b"x\t4294967296\t0\t0\n.\n",
            StatusError::BadNumber(1)
        )
    );
    assert!(rt; refuses(alloc, b"x\t1\n.\n", StatusError::BadLine(1)));
    for cut in 0..ROW.len() {
        assert!(rt; refuses(alloc, &ROW[..cut], StatusError::Truncated));
        assert!(rt; matches!(load_of(alloc, &ROW[..cut]), Err(StatusError::Truncated)));
    }
}

#[test]
fn limits_of_lines(rt: HostRuntime) {
    let alloc = rt.alloc();
    let mut text = Vec::new(alloc);
    push_long_line(&mut text, 4096).expect(&rt, "memory");
    text.extend_from_slice(b".\n").expect(&rt, "memory");
    assert!(rt; matches!(load_of(alloc, &text), Ok(_)));

    let mut text = Vec::new(alloc);
    push_long_line(&mut text, 4097).expect(&rt, "memory");
    assert!(rt; matches!(load_of(alloc, &text), Err(StatusError::LineTooLong(1))));

    let text = lines_then(alloc, 65536, b".\n").expect(&rt, "memory");
    assert!(rt; waiting_of(alloc, &text, b"x") == Ok(1));
    let text = lines_then(alloc, 65537, b"").expect(&rt, "memory");
    assert!(rt; matches!(load_of(alloc, &text), Err(StatusError::TooManyLines)));
    let mut text = lines_then(alloc, 65536, b"").expect(&rt, "memory");
    push_long_line(&mut text, 4097).expect(&rt, "memory");
    assert!(rt; matches!(load_of(alloc, &text), Err(StatusError::LineTooLong(65537))));
}

#[test]
fn pieces_and_pauses(rt: HostRuntime) {
    let alloc = rt.alloc();
    for cut in 0..ROW.len() + 1 {
        assert!(rt; waiting_in_two(alloc, ROW, cut) == Ok(6));
    }
    assert!(rt; waiting_in_bytes(alloc, ROW) == Ok(6));
    assert!(rt; waiting_after(alloc, 64) == Ok(6));
    assert!(rt; waiting_after(alloc, 65) == Err(StatusError::ReadFault));
}

#[test]
fn loads(rt: HostRuntime) {
    let alloc = rt.alloc();
    let mut load = Load::new(alloc);
    load.set(b"x", 5, 0, 0).expect(&rt, "memory");
    load.set(b"x", 3, 0, 0).expect(&rt, "memory");
    let copy = load.copy().expect(&rt, "memory");
    load.set(b"x", 9, 0, 0).expect(&rt, "memory");
    assert!(rt; copy.waiting(b"x") == 3);
    assert!(rt; Load::new(alloc).copy().is_ok());
    assert!(rt; load.waiting(b"x") == 9);

    let error = StatusError::LineTooLong(7);
    assert!(rt;
        (error.label().number(), error.label().name(), error.line()) == (3, "LineTooLong", Some(7))
    );
}

/// A load of no line, and one of a line of 4,096 bytes before the period line: each is read where there is memory.
#[test]
fn least_and_greatest_lines(rt: HostRuntime) {
    let alloc = rt.alloc();
    assert!(rt; waiting_of(alloc, b".\n", b"x") == Ok(0));
    assert!(rt; waiting_of(alloc, b"\t0\t0\t0\n.\n", b"") == Ok(0));
    let name = long_name(alloc).expect(&rt, "memory");
    let mut text = Vec::from_slice(alloc, &name).expect(&rt, "memory");
    text.extend_from_slice(b"\t1\t0\t0\n.\n")
        .expect(&rt, "memory");
    assert!(rt; waiting_of(alloc, &text, &name) == Ok(1));
}

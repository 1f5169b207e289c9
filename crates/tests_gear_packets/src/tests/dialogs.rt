//! Packets whose bytes come from Gearman's PROTOCOL document by hand, and what a worker sent to gearmand 1.1.20.
use gear_packets::*;
use std::alloc::Global;
use std::process::Abort;
use std::test::Fail;

pub const ASSIGN: [u8; 32] = *b"\0RES\0\0\0\x1f\0\0\0\x14H:a:1\0reverse\0u1\0a\0c";

/// The arguments are those of this assignment.
pub fn is_assign(
    response: &Response,
    handle: &[u8],
    function: &[u8],
    unique: &[u8],
    payload: &[u8],
) -> bool {
    match response {
        Response::Assign {
            handle: given,
            function: called,
            unique: named,
            payload: held,
        } => {
            given.bytes() == handle
                && called.as_slice() == function
                && named.as_slice() == unique
                && held.as_slice() == payload
        }
        _ => false,
    }
}

pub fn is_fault(response: &Response, code: &[u8], text: &[u8]) -> bool {
    match response {
        Response::Fault {
            code: given,
            text: told,
        } => given.as_slice() == code && told.as_slice() == text,
        _ => false,
    }
}

/// One assignment and nothing after it.
fn expect_assign(
    rt: &impl Abort,
    reader: &mut Reader,
    handle: &[u8],
    function: &[u8],
    unique: &[u8],
    payload: &[u8],
) {
    let response = reader.next().expect(rt, "an assignment");
    assert!(rt; is_assign(&response, handle, function, unique, payload));
    assert!(rt; reader.next().is_none());
}

pub fn expect_row(rt: &impl Abort, reader: &mut Reader) {
    expect_assign(rt, reader, b"H:a:1", b"reverse", b"u1", b"a\0c");
}

/// What a reader answers to one piece.
fn answer(alloc: Global, piece: &[u8]) -> Result<(), FeedError> {
    Reader::new(alloc).feed(piece)
}

/// A response with its type, the size of its body and its body.
fn response(alloc: Global, kind: u8, size: u8, body: &[u8]) -> Result<Vec<u8>, Fail> {
    let mut text = Vec::from_slice(alloc, b"\0RES\0\0\0".as_slice())?;
    text.push(kind).ok().ok_or("memory")?;
    text.extend_from_slice(b"\0\0\0".as_slice())?;
    text.push(size).ok().ok_or("memory")?;
    text.extend_from_slice(body)?;
    Ok(text)
}

#[test]
fn an_assignment_in_two_pieces(rt: HostRuntime) {
    let mut reader = Reader::new(rt.alloc());
    assert_eq!(rt; reader.feed(&ASSIGN[..31]), Ok(()));
    assert!(rt; reader.next().is_none());
    assert_eq!(rt; reader.feed(&ASSIGN[31..]), Ok(()));
    expect_row(&rt, &mut reader);
    assert_eq!(rt; reader.fault(), None);
}

#[test]
fn a_wrong_magic_is_found_at_its_byte(rt: HostRuntime) {
    let alloc = rt.alloc();
    assert_eq!(rt; answer(alloc, b"\0RE"), Ok(()));
    assert_eq!(rt;
        answer(alloc, b"\0REQ"),
        Err(FeedError::Fault(StreamFault::BadMagic))
    );
    assert_eq!(rt;
        answer(alloc, b"R"),
        Err(FeedError::Fault(StreamFault::BadMagic))
    );
}

#[test]
fn a_body_too_large_is_found_at_its_header(rt: HostRuntime) {
    let alloc = rt.alloc();
    assert_eq!(rt; answer(alloc, b"\0RES\0\0\0\x0b\x01\0\0\0"), Ok(()));
    assert_eq!(rt; answer(alloc, b"\0RES\0\0\0\x0b\x01\0\0"), Ok(()));
    assert_eq!(rt;
        answer(alloc, b"\0RES\0\0\0\x0b\x01\0\0\x01"),
        Err(FeedError::Fault(StreamFault::TooLarge))
    );
}

#[test]
fn handles_of_63_and_64_bytes(rt: HostRuntime) -> Result<(), Fail> {
    let mut body = [b'h'; 66];
    body[63] = 0;
    body[64] = b'x';
    body[65] = 0;
    let mut reader = Reader::new(rt.alloc());
    assert_eq!(rt; reader.feed(&response(rt.alloc(), 11, 66, &body)?), Ok(()));
    expect_assign(&rt, &mut reader, &[b'h'; 63], b"x", b"", b"");
    body[63] = b'h';
    body[64] = 0;
    assert_eq!(rt;
        answer(rt.alloc(), &response(rt.alloc(), 11, 66, &body)?),
        Err(FeedError::Fault(StreamFault::HandleTooLong))
    );
    body[65] = b'x';
    assert_eq!(rt;
        answer(rt.alloc(), &response(rt.alloc(), 11, 66, &body)?),
        Err(FeedError::Fault(StreamFault::BadBody))
    );
    Ok(())
}

/// Packets whose body breaks the rule of their type.
const BAD_BODIES: [&[u8]; 4] = [
    b"\0RES\0\0\0\x0b\0\0\0\x03H\0x",
    b"\0RES\0\0\0\x0b\0\0\0\x04\0x\0y",
    b"\0RES\0\0\0\x06\0\0\0\x01x",
    b"\0RES\0\0\0\x0a\0\0\0\x01x",
];

#[test]
fn bad_bodies(rt: HostRuntime) {
    let bad_body = Err(FeedError::Fault(StreamFault::BadBody));
    for (number, packet) in BAD_BODIES.iter().enumerate() {
        assert_eq!(rt; answer(rt.alloc(), packet), bad_body, "packet {number}");
    }
}

/// A packet is taken, and is the next response.
fn expect_next(rt: &impl Abort, reader: &mut Reader, packet: &[u8]) -> Response {
    assert_eq!(rt; reader.feed(packet), Ok(()));
    reader.next().expect(rt, "a response")
}

#[test]
fn other_bodies(rt: HostRuntime) {
    let mut reader = Reader::new(rt.alloc());
    assert_eq!(rt; reader.feed(b"\0RES\0\0\0\x0b\0\0\0\x04H\0x\0"), Ok(()));
    expect_assign(&rt, &mut reader, b"H", b"x", b"", b"");
    let other = expect_next(&rt, &mut reader, b"\0RES\0\0\0\x08\0\0\0\0");
    assert!(rt; matches!(&other, Response::Other(8)));
    let noop = expect_next(&rt, &mut reader, b"\0RES\0\0\0\x06\0\0\0\0");
    assert!(rt; matches!(&noop, Response::Noop));
    let no_job = expect_next(&rt, &mut reader, b"\0RES\0\0\0\x0a\0\0\0\0");
    assert!(rt; matches!(&no_job, Response::NoJob));
    let error = expect_next(&rt, &mut reader, b"\0RES\0\0\0\x13\0\0\0\x03e\0t");
    assert!(rt; is_fault(&error, b"e", b"t"));
}

/// The request is encoded by these bytes, and is what they are read as, whatever follows them.
fn expect_encoded(
    rt: &impl Abort,
    alloc: Global,
    request: &Request,
    bytes: &[u8],
) -> Result<(), Fail> {
    let text = encode(alloc, request).ok().ok_or("not spelled")?;
    assert!(rt; text.as_slice() == bytes);
    let mut longer = text;
    longer.extend_from_slice(b"\0RE")?;
    let Some((again, size)) = decode(&longer) else {
        return Err("not read".into());
    };
    assert_eq!(rt; size, bytes.len());
    let encoded_again = encode(alloc, &again).ok().ok_or("not spelled again")?;
    assert!(rt; encoded_again.as_slice() == bytes);
    Ok(())
}

/// What a worker sent to gearmand in a session: each packet.
#[test]
fn requests_of_a_session(rt: HostRuntime) -> Result<(), Fail> {
    let alloc = rt.alloc();
    let handle = Handle::new(b"H:vm:1").ok().ok_or("no handle")?;
    let sent = [
        (
            Request::SetClientId(b"a/0#1"),
            b"\0REQ\0\0\0\x16\0\0\0\x05a/0#1".as_slice(),
        ),
        (
            Request::CanDo(b"reverse"),
            b"\0REQ\0\0\0\x01\0\0\0\x07reverse".as_slice(),
        ),
        (Request::GrabJobUniq, b"\0REQ\0\0\0\x1e\0\0\0\0".as_slice()),
        (Request::PreSleep, b"\0REQ\0\0\0\x04\0\0\0\0".as_slice()),
        (
            Request::CantDo(b"n"),
            b"\0REQ\0\0\0\x02\0\0\0\x01n".as_slice(),
        ),
        (
            Request::WorkStatus(handle.copy(), 1, 2),
            b"\0REQ\0\0\0\x0c\0\0\0\x0aH:vm:1\x001\x002".as_slice(),
        ),
        (
            Request::WorkData(handle.copy(), b"p"),
            b"\0REQ\0\0\0\x1c\0\0\0\x08H:vm:1\0p".as_slice(),
        ),
        (
            Request::WorkWarning(handle.copy(), b"w"),
            b"\0REQ\0\0\0\x1d\0\0\0\x08H:vm:1\0w".as_slice(),
        ),
        (
            Request::WorkComplete(handle.copy(), b"c\0a"),
            b"\0REQ\0\0\0\x0d\0\0\0\x0aH:vm:1\0c\0a".as_slice(),
        ),
        (
            Request::WorkFail(handle),
            b"\0REQ\0\0\0\x0e\0\0\0\x06H:vm:1".as_slice(),
        ),
    ];
    for (request, bytes) in &sent {
        expect_encoded(&rt, alloc, request, bytes)?;
    }
    Ok(())
}

#[test]
fn a_name_with_a_zero_byte(rt: HostRuntime) {
    let with_nul = encode(rt.alloc(), &Request::CanDo(b"a\0"));
    assert!(rt; matches!(with_nul, Err(EncodeError::NulInArgument)));
}

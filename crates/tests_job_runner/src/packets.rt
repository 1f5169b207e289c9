//! Packets that are sent and received in the tests, byte for byte.

/// A job `H:a:1` of `reverse` with the unique id `u1` and the data `61 00 63`.
pub const ASSIGN: &[u8] = b"\0RES\0\0\0\x1f\0\0\0\x14H:a:1\0reverse\0u1\0a\0c";

pub const NO_JOB: &[u8] = b"\0RES\0\0\0\x0a\0\0\0\0";

pub const NOOP: &[u8] = b"\0RES\0\0\0\x06\0\0\0\0";

/// SET_CLIENT_ID of the first worker.
pub const NAME: &[u8] = b"\0REQ\0\0\0\x16\0\0\0\x05a/0#1";

pub const CAN_REVERSE: &[u8] = b"\0REQ\0\0\0\x01\0\0\0\x07reverse";

pub const CANT_REVERSE: &[u8] = b"\0REQ\0\0\0\x02\0\0\0\x07reverse";

pub const CAN_ECHO: &[u8] = b"\0REQ\0\0\0\x01\0\0\0\x04echo";

pub const GRAB: &[u8] = b"\0REQ\0\0\0\x1e\0\0\0\0";

pub const PRE_SLEEP: &[u8] = b"\0REQ\0\0\0\x04\0\0\0\0";

/// CANT_DO of `reverse`, CAN_DO of `echo`, and GRAB_JOB_UNIQ.
pub const TO_ECHO: &[u8] =
    b"\0REQ\0\0\0\x02\0\0\0\x07reverse\0REQ\0\0\0\x01\0\0\0\x04echo\0REQ\0\0\0\x1e\0\0\0\0";

/// WORK_COMPLETE of `H:a:1` with the data `63 00 61`.
pub const COMPLETE: &[u8] = b"\0REQ\0\0\0\x0d\0\0\0\x09H:a:1\0c\0a";

/// What a job reports that talks: WORK_STATUS 1 of 2, WORK_DATA `p`, WORK_WARNING `w`, and WORK_COMPLETE as above.
pub const TALKED: &[u8] =
    b"\0REQ\0\0\0\x0c\0\0\0\x09H:a:1\x001\x002\0REQ\0\0\0\x1c\0\0\0\x07H:a:1\0p\
    \0REQ\0\0\0\x1d\0\0\0\x07H:a:1\0w\0REQ\0\0\0\x0d\0\0\0\x09H:a:1\0c\0a";

/// What a job reports with notes: WORK_STATUS 1 of 2, WORK_DATA `a`, and WORK_COMPLETE with the data `b`.
pub const NOTED: &[u8] =
    b"\0REQ\0\0\0\x0c\0\0\0\x09H:a:1\x001\x002\0REQ\0\0\0\x1c\0\0\0\x07H:a:1\0a\0REQ\0\0\0\x0d\0\0\0\x07H:a:1\0b";

/// WORK_FAIL of `H:a:1`.
pub const FAIL: &[u8] = b"\0REQ\0\0\0\x0e\0\0\0\x05H:a:1";

/// What a session writes that has asked for its first job: 48 bytes.
pub const ASKED: &[u8] =
    b"\0REQ\0\0\0\x16\0\0\0\x05a/0#1\0REQ\0\0\0\x01\0\0\0\x07reverse\0REQ\0\0\0\x1e\0\0\0\0";

/// What it has written once it has answered the job and asked for another: 81 bytes.
pub const ANSWERED: &[u8] =
    b"\0REQ\0\0\0\x16\0\0\0\x05a/0#1\0REQ\0\0\0\x01\0\0\0\x07reverse\0REQ\0\0\0\x1e\0\0\0\0\
    \0REQ\0\0\0\x0d\0\0\0\x09H:a:1\0c\0a\0REQ\0\0\0\x1e\0\0\0\0";

//! The types of packets, by the numbers that Gearman's PROTOCOL document gives them.

pub const CAN_DO: u32 = 1;

pub const CANT_DO: u32 = 2;

pub const PRE_SLEEP: u32 = 4;

pub const NOOP: u32 = 6;

pub const NO_JOB: u32 = 10;

pub const JOB_ASSIGN: u32 = 11;

pub const WORK_STATUS: u32 = 12;

pub const WORK_COMPLETE: u32 = 13;

pub const WORK_FAIL: u32 = 14;

pub const ERROR: u32 = 19;

pub const SET_CLIENT_ID: u32 = 22;

pub const WORK_DATA: u32 = 28;

pub const WORK_WARNING: u32 = 29;

pub const GRAB_JOB_UNIQ: u32 = 30;

pub const JOB_ASSIGN_UNIQ: u32 = 31;

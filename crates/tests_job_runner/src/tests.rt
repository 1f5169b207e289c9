//! Worked sessions, byte for byte.

mod rows;

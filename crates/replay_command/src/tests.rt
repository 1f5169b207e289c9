//! The command on texts and on devices that fail.

mod replaying;

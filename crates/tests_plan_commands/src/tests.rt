//! The commands on texts.

pub mod planning;

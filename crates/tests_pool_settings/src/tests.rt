//! Settings files that are refused, and defaults.

pub mod files;

//! The greatest numbers that a settings file may give and planning problems do not say.

/// The most workers in all, and of a machine or on a function.
pub const MAX_WORKERS: u32 = plan_model::MAX_WORKERS as u32;

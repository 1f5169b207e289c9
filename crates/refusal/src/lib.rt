//! How a refusal is reported: the number of its place among those of its call, and its name.
//!
//! Each enum of refusals implements [`Labelled`]. Its label is defined in `specs/` of its crate, and the code answers it:
//!
//! ```text
//! abbrev pub join_label : JoinError → Label
//! join_label AlreadyLive = label 1 "AlreadyLive"
//! join_label Memory = label 4 "Memory"
//!
//! impl Labelled for JoinError {
//!     ghost use Rattle.pool_core.specs.CallRefusals.{join_label};
//!     ghost label = { join_label };
//!     fn label(&self) -> Label {
//!         match self { JoinError::AlreadyLive => Label::new(1, "AlreadyLive"), JoinError::Memory => Label::new(4, "Memory") }
//!     }
//! }
//! ```
//!
//! A call that tests its refusals in order promises that `due is_join_memory result` is the first that holds: `is_join_memory` says, in
//! the same file, which variant is out of memory, and that one counts as no refusal. Enums of causes and of reasons have labels too.
#![tactic(auto)]

mod label;

pub use label::{Label, Labelled};

#[cfg(test)]
mod tests;

//! How bytes of text are cut and read: at the first or the last byte of one kind, and as decimal numbers. Status texts,
//! packets, settings, reports and command lines use these pieces.
#![tactic(auto)]

mod cuts;
mod laws;
mod numbers;

pub use cuts::{cut_first, cut_last};
pub use laws::{cuts_join_back, numbers_read_back};
pub use numbers::{is_plain, number_u32, number_u64, plain_number_u32, plain_number_u64};

#[cfg(test)]
mod tests;

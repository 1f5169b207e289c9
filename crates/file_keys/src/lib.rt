//! The keys of TOML files as rows of a table: what a value has to be, what a file without it means, and the checks over any list of rows.
#![tactic(auto)]

mod hosts;
mod keys;
mod table_text;
mod tree;
mod values;

pub use hosts::{has_port, is_host, is_port, is_socket};
pub use keys::{Absent, Key, KeyValue, Row, is_known};
pub use table_text::push_keys;
pub use tree::{number_between, value_at};
pub use values::{
    as_address, boolean_of, first_bad, first_missing, is_bad, number_of, numbers_in, text_in,
    text_of,
};

//! The system's devices: readers as sources, writers as sinks, and files and inputs that are read whole.
#![tactic(auto)]

mod dial_error;
mod error;
mod files;
mod input;
mod reads;
mod results;
mod server_dial;
mod streams;
mod tcp;
mod writes;

pub use dial_error::DialError;
pub use error::InputError;
pub use files::{Folder, read_file};
pub use input::{LIMIT, read_whole};
pub use server_dial::{Caller, PatientCaller};
pub use streams::{InputSource, OutputSink};
pub use tcp::TcpLink;

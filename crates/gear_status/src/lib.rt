//! The job server's answer to `status`: a load, read line by line from any source of bytes.
#![tactic(auto)]

mod error;
mod line;
mod load;
mod reader;
mod status;

pub use byte_io::doubles::Script;
pub use byte_io::{Device, DeviceFault, Given, Sink, SliceSource, Source, Took, VecSink, give_all};
pub use error::StatusError;
pub use load::{Counts, Load};
pub use status::{load_of, read_status, read_status_within};

//! The services of a farm: where the jobs of each machine go, read from a TOML file together with the settings of the pool.
#![tactic(auto)]

mod build;
mod checked;
mod checks;
mod error;
mod fault;
mod file;
mod keys;
mod page;
mod place;
mod service_url;
mod services;
mod tree;
mod url_parts;
mod urls;
mod values;

pub use error::ServicesError;
pub use fault::ServicesFault;
pub use file::ServicesFile;
pub use keys::{FUNCTION_KEYS, MACHINE_KEYS, PAGE_KEYS, TOP_KEYS, keys_text};
pub use page::Page;
pub use place::ServicesPlace;
pub use service_url::ServiceUrl;
pub use services::Services;

//! The jobs that the program's workers can do.
#![tactic(auto)]

mod stock;

pub use stock::{StockJob, is_stock, stock_jobs};

//! Texts, with the answers that others give them, and sources that fail.

mod devices;
mod texts;

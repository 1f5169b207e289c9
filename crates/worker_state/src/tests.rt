//! Words with the values that others give them.

mod words;

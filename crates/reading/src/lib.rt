// A store, any whatever, read by the rules of its form: where things stand in it, what turns a restart of it down, and
// what it holds.
#![tactic(auto)]

pub mod form;
mod log;
mod refusals;

pub use log::{channel, line, word};
pub use refusals::{admit_cells, admit_store, long_enough};

// Recover, which only reads the store, and what initialize has in common with it, each equal to its definition in
// model.
#![tactic(auto)]

mod start;

pub use start::{admit, initial, recover};

// The rules of documents 01 and 02 that code needs no precondition for, each equal to its definition in model.
#![tactic(auto)]

mod below;
pub mod cells;
pub mod channel;
pub mod fresh;
pub mod late;
pub mod layout;
pub mod phase;
pub mod reaction;
pub mod refusal;
pub mod sound;
pub mod topology;
pub mod word;

// A sender and a receiver over an air: sessions, turn by turn.
#![tactic(auto)]

pub mod calls;
mod hearing;
pub mod pair;
mod settling;

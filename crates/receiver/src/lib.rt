// The receiving end: block store, phases, hand-up.
#![tactic(auto)]

mod admit;
mod blocks;
pub mod calls;
mod fill;
pub mod receiver;
mod rows;
pub mod state;

// Carriers, block counts, cutting a stream into fragments and joining it again.
#![tactic(auto)]

pub mod carrier;
pub mod cutting;
pub mod name;
pub mod piece;
pub mod stream;
mod table;

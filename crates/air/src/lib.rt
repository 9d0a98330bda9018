// What becomes of a packet: fates, airs and layers over them.
#![tactic(auto)]

pub mod airs;
pub mod fate;
pub mod few;
pub mod layers;

// Packets and responses as octets: written, read and refused.
#![tactic(auto)]

pub mod blocks;
mod front;
mod image;
mod octets;
pub mod packets;
pub mod read;
pub mod response;
mod sealing;
pub mod values;
pub mod write;

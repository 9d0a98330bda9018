// What one hearing makes of the octets of a packet.
#![tactic(auto)]

pub mod marks;

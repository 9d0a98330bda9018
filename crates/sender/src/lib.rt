// The sending end as moved types.
#![tactic(auto)]

pub mod states;
mod steps;
pub mod values;

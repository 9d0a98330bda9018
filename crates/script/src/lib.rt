// The text of a drill: what it asks for, or its first wrong line.
#![tactic(auto)]

mod forms;
mod heads;
pub mod parse;
mod turns;
pub mod values;
mod words;

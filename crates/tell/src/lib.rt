// What a drill tells, line by line: its faults, and the lines that answer it.
#![tactic(auto)]

pub mod faults;
pub mod print;

// What goes out: the data of interrogations and counter commands, sized first and then written, and single points. From `output.rs`.
#![tactic(auto)]

pub mod data;
pub mod order;
pub mod reach;
pub mod single;

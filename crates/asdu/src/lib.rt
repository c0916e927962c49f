// One ASDU: its header and objects, a command as it is read, and what answers a command. From `asdu.rs`, `cot.rs` and `types_id.rs`.
#![tactic(auto)]

pub mod asked;
pub mod command;
pub mod confirmation;
pub mod cot;
pub mod header;
pub mod types_id;

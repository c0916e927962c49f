// The ground: numbers only. Shares of stations, sizes of elements and ASDUs, and the numbers that a call gives back.
// No point and no octet of a table is seen here.
#![tactic(auto)]

pub mod outcome;
pub mod share;
pub mod size;

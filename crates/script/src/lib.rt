// What the runner `replay` needs to follow a script of calls: reading it, setting lent memory and a checksum over it. A script's form
// is described in reference/script.py, which makes the scripts and what to expect.
// No public function here requires anything, so a program over them is a plain list of calls.
#![tactic(auto)]

pub mod memory;
pub mod prepare;
pub mod reading;
pub mod series;

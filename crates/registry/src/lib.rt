// What registration, removal and opening mean, said of a table: definitions and their laws. The code that does it stands in `rtu_server`.
#![tactic(auto)]

use limits::outcome::Refusal;
use limits::share::Share;

// Why a batch is refused, and the place of the faulty point.
#[derive(Clone, Copy, Debug, PartialEq, Eq)]
pub struct Fault {
    pub refusal: Refusal,
    pub place: usize,
}

// The share of a station, with what is free and unmet in the whole table.
#[derive(Clone, Copy, Debug, PartialEq, Eq)]
pub struct StationShare {
    pub share: Share,
    pub free: usize,
    pub unmet: usize,
}

// A point, the 48 octets of its place, the request to register one, and their tests. From `model.rs` and `point_value.rs`.
#![tactic(auto)]

mod place;
mod places;
mod registration;

use layout::VALUE_SIZE;
pub use place::{place_of, put_place};
pub use places::PlaceLimits;
pub use registration::{is_counter, own_fault, point_of, request_at};

// The two types of counters: integrated totals, without and with a time tag. They stay octets, as the types in `asdu` do.
pub const M_IT_NA_1: u8 = 15;

pub const M_IT_TB_1: u8 = 37;

// The highest IOA, the number of interrogation groups, and that of counter groups.
pub const HIGHEST_IOA: u32 = 16777215;

pub const GROUPS: u8 = 16;

pub const COUNTER_GROUPS: u8 = 4;

// A registered point: its type, address, interrogation group and counter group (0: none), and its value's octets, zero past the element.
#[derive(Clone, Copy)]
pub struct Point {
    pub kind: u8,
    pub ioa: u32,
    pub group: u16,
    pub counter: u8,
    pub value: [u8; VALUE_SIZE],
}

// A point as a caller gives it for registration: any numbers that fit the fields.
#[derive(Clone, Copy)]
pub struct Request {
    pub ca: u16,
    pub ioa: u32,
    pub kind: u8,
    pub group: Option<u8>,
    pub counter: Option<u8>,
    pub value: [u8; VALUE_SIZE],
}

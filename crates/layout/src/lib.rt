// The layout of a table's memory: a head, K places, the stations; the size of each, and where their numbers lie. Nothing else in the repository
// knows these numbers. A table is one memory that its caller lends, and there is no heap: a place or a station is told by its offset, n of them in a row
// by offset and number.
#![tactic(auto)]

ghost use Rattle.std.specs.Prelude.{◌≡◌, ◌+◌, ◌*◌, ◌≤◌, ◌<◌, length};
ghost use Rattle.layout.specs.Layout.{head_size, station_size, capacity_in, stations_in, points_in, stations_from, size_in, ca_at, reservation_at, ceiling_at, held_at};

// ---- sizes, in octets

pub const HEAD_SIZE: usize = 64;

pub const PLACE_SIZE: usize = 48;

pub const STATION_SIZE: usize = 8;

// ---- the most of each

pub const MOST_PLACES: usize = 4096;

pub const MOST_STATIONS: usize = 64;

// ---- in the head

// The first octets of every table, 4B 48 56 01, as a number.
pub const MARK: usize = 22431819;

pub const CAPACITY_OFFSET: usize = 4;

pub const STATIONS_OFFSET: usize = 6;

pub const POINTS_OFFSET: usize = 8;

pub const SETTINGS_OFFSET: usize = 10;

pub const SETTINGS_SIZE: usize = 4;

// From here on the head is zero.
pub const SPARE_OFFSET: usize = 14;

pub const SPARE_SIZE: usize = 50;

// ---- in a place

pub const CA_OFFSET: usize = 1;

pub const IOA_OFFSET: usize = 3;

pub const GROUP_OFFSET: usize = 6;

pub const COUNTER_OFFSET: usize = 8;

pub const VALUE_OFFSET: usize = 10;

// The octets of a value, those past its element included.
pub const VALUE_SIZE: usize = 12;

// From here on a place is zero.
pub const REST_OFFSET: usize = 22;

// ---- in a station

pub const RESERVATION_OFFSET: usize = 2;

pub const CEILING_OFFSET: usize = 4;

pub const HELD_OFFSET: usize = 6;

// ---- what a head says: each function names its field; one that took the field's offset would be no plainer, as its callers would then have to name it

// K.
pub fn capacity_of(m: &[u8]) -> usize
    requires { head_size ≤ length m.now }
    ensures { (result ≡ capacity_in m.now) × (result < 65536) }
{
    octets::number_at::<2>(m, CAPACITY_OFFSET)
}

// The number of stations.
pub fn stations_of(m: &[u8]) -> usize
    requires { head_size ≤ length m.now }
    ensures { (result ≡ stations_in m.now) × (result < 65536) }
{
    octets::number_at::<2>(m, STATIONS_OFFSET)
}

// The number of points.
pub fn points_of(m: &[u8]) -> usize
    requires { head_size ≤ length m.now }
    ensures { (result ≡ points_in m.now) × (result < 65536) }
{
    octets::number_at::<2>(m, POINTS_OFFSET)
}

// The octets of the table.
pub fn size_of(m: &[u8]) -> usize
    requires { head_size ≤ length m.now }
    ensures { result ≡ size_in m.now }
{
    HEAD_SIZE + PLACE_SIZE * capacity_of(m) + STATION_SIZE * stations_of(m)
}

// ---- where stations lie, and what they say

// Station i.
pub fn station_at(m: &[u8], i: usize) -> usize
    requires { (head_size ≤ length m.now) × (i ≤ 65536) }
    ensures { result ≡ stations_from m.now + station_size * i }
{
    HEAD_SIZE + PLACE_SIZE * capacity_of(m) + STATION_SIZE * i
}

// ---- what a station says, its octets being at `at`: each function names its field, as above

// Its CA.
pub fn ca_at(m: &[u8], at: usize) -> usize
    requires { at + station_size ≤ length m.now }
    ensures { (result ≡ ca_at m.now at) × (result < 65536) }
{
    octets::number_at::<2>(m, at)
}

// Its reservation.
pub fn reservation_at(m: &[u8], at: usize) -> usize
    requires { at + station_size ≤ length m.now }
    ensures { (result ≡ reservation_at m.now at) × (result < 65536) }
{
    octets::number_at::<2>(m, at + RESERVATION_OFFSET)
}

// Its ceiling.
pub fn ceiling_at(m: &[u8], at: usize) -> usize
    requires { at + station_size ≤ length m.now }
    ensures { (result ≡ ceiling_at m.now at) × (result < 65536) }
{
    octets::number_at::<2>(m, at + CEILING_OFFSET)
}

// Its held.
pub fn held_at(m: &[u8], at: usize) -> usize
    requires { at + station_size ≤ length m.now }
    ensures { (result ≡ held_at m.now at) × (result < 65536) }
{
    octets::number_at::<2>(m, at + HELD_OFFSET)
}

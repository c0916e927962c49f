// Where a station's places lie in a table's memory, and where one of its points stands or would go.
#![tactic(auto)]

ghost use Rattle.std.specs.Prelude.{◌≡◌, ◌+◌, ◌*◌, ◌≤◌, ◌<◌, length};
ghost use Rattle.layout.specs.Layout.{head_size, place_size, station_size, most_stations, stations_in, size_in};
ghost use Rattle.lookup.specs.Seats.{seat_in, seat_at};
ghost use Rattle.lookup.specs.Find.{ioa_at, halve, find_at};

use layout::{HEAD_SIZE, IOA_OFFSET, PLACE_SIZE, STATION_SIZE};

// ---- a station

// A station's index in the plan, its first place as an offset in octets, and how many points it holds.
#[derive(Clone, Copy)]
pub struct Seat {
    pub index: usize,
    pub first: usize,
    pub held: usize,
}

// The seat among the n stations from `at`, the first of which has its places after the head.
#[tactic(auto, using(crate::proofs::Walk::seat_hit, crate::proofs::Walk::seat_on, crate::proofs::Walk::seat_end))]
fn seat_from(m: &[u8], ca: usize, at: usize, n: usize) -> Option<Seat>
    requires { (at + station_size * n ≤ length m.now) × (n ≤ most_stations) }
    ensures { result ≡ seat_in m.now ca 0 head_size at n }
{
    let mut place = HEAD_SIZE;
    for i in 0..n {
        let station = at + STATION_SIZE * i;
        let held = layout::held_at(m, station);
        if layout::ca_at(m, station) == ca {
            return Some(Seat {
                index: i,
                first: place,
                held,
            });
        }
        place += PLACE_SIZE * held;
    }
    None
}

// The seat of the station with common address `ca`; none where the plan has no such station.
#[tactic(auto, unfolding(crate::specs::Seats::seat_at))]
pub fn seat_at(m: &[u8], ca: usize) -> Option<Seat>
    requires { (stations_in m.now ≤ most_stations) × (size_in m.now ≤ length m.now) }
    ensures { result ≡ seat_at m.now ca }
{
    let k = layout::capacity_of(m);
    let n = layout::stations_of(m);
    seat_from(m, ca, HEAD_SIZE + PLACE_SIZE * k, n)
}

// ---- a point of a station

// How many of the n places from `first` have an IOA below `ioa`, by halving. The loop counts no index. The contract of `find` speaks of any octets, and
// the library's `partition_point` only of sorted ones.
#[tactic(auto, using(crate::proofs::Walk::halve_up, crate::proofs::Walk::halve_down, crate::proofs::Walk::halve_end), unfolding(crate::specs::Find::ioa_at))]
fn seek(m: &[u8], first: usize, n: usize, ioa: usize) -> usize
    requires { first + place_size * n ≤ length m.now }
    ensures { (result ≡ halve (ioa_at m.now first) ioa 0 n n) × (result ≤ n) }
{
    let mut low = 0;
    let mut high = n;
    while low < high {
        let middle = (low + high) / 2;
        if octets::number_at::<3>(m, first + PLACE_SIZE * middle + IOA_OFFSET) < ioa {
            low = middle + 1;
        } else {
            high = middle;
        }
    }
    low
}

// Finds a point among the n places from `first`, for looking up, taking in and letting go: the offset of its place in octets, or of the place where it
// would go.
#[tactic(auto, using(crate::proofs::Walk::missing_end, crate::proofs::Walk::held_at_lem, crate::proofs::Walk::missing_at), unfolding(crate::specs::Find::find_at, crate::specs::Find::ioa_at))]
pub fn find(m: &[u8], first: usize, n: usize, ioa: usize) -> Result<usize, usize>
    requires { first + place_size * n ≤ length m.now }
    ensures { result ≡ find_at m.now first n ioa }
{
    let j = seek(m, first, n, ioa);
    let at = first + PLACE_SIZE * j;
    if j == n {
        return Err(at);
    }
    if octets::number_at::<3>(m, at + IOA_OFFSET) == ioa {
        return Ok(at);
    }
    Err(at)
}

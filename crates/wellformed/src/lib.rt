// The test for well-formedness of a table in lent memory. It has no condition: any octets, any length.
#![tactic(auto)]

ghost use Rattle.std.specs.Prelude.{◌≡◌, ◌+◌, ◌*◌, ◌-◌, ◌≤◌, ◌<◌, length, true};
ghost use Rattle.layout.specs.Layout.{head_size, place_size, station_size, most_stations, capacity_in, stations_in, points_in, stations_from, held_at};
ghost use Rattle.wellformed.specs.Station.{share_at, AddedUp, places_at};
ghost use Rattle.table.specs.Table.{numbers_ok, shares_ok};
ghost use Rattle.table.specs.Memory.{sum_at, numbers_at, plan_at, bodies_at, mark_at, settings_at, head_at, shares_at, well_formed};

use layout::{
    HEAD_SIZE, MARK, MOST_PLACES, MOST_STATIONS, PLACE_SIZE, SETTINGS_OFFSET, SETTINGS_SIZE,
    SPARE_OFFSET, SPARE_SIZE, STATION_SIZE,
};
use limits::share::Share;
use model::PlaceLimits;

// ---- the head

// The mark 4B 48 56 01.
#[tactic(auto, unfolding(table::specs::Memory::mark_at))]
fn mark_ok(m: &[u8]) -> bool
    requires { head_size ≤ length m.now }
    ensures { result ≡ mark_at m.now }
{
    octets::number_at::<4>(m, 0) == MARK
}

// The settings. Today there are none, and their octets are zero.
#[tactic(auto, unfolding(table::specs::Memory::settings_at))]
fn settings_ok(m: &[u8]) -> bool
    requires { head_size ≤ length m.now }
    ensures { result ≡ settings_at m.now }
{
    octets::all_zero(m, SETTINGS_OFFSET, SETTINGS_SIZE)
}

// The mark, K from 1 to 4,096, 1 to 64 stations, memory enough, the settings, spare octets zero.
#[tactic(auto, using(crate::proofs::Heads::short, crate::proofs::Heads::no_mark, crate::proofs::Heads::no_capacity, crate::proofs::Heads::much_capacity, crate::proofs::Heads::no_station, crate::proofs::Heads::many_stations, crate::proofs::Heads::no_room, crate::proofs::Heads::no_settings, crate::proofs::Heads::spare_test))]
fn head_ok(m: &[u8]) -> bool
    ensures { result ≡ head_at m.now }
{
    if m.len() < HEAD_SIZE {
        return false;
    }
    if !mark_ok(m) {
        return false;
    }
    let k = layout::capacity_of(m);
    let n = layout::stations_of(m);
    if k < 1 {
        return false;
    }
    if MOST_PLACES < k {
        return false;
    }
    if n < 1 {
        return false;
    }
    if MOST_STATIONS < n {
        return false;
    }
    if m.len() < layout::size_of(m) {
        return false;
    }
    if !settings_ok(m) {
        return false;
    }
    octets::all_zero(m, SPARE_OFFSET, SPARE_SIZE)
}

// ---- the plan

// The highest common address of a station; 65,535 means all stations.
const HIGHEST_CA: usize = 65534;

// CA from `low` to 65,534, r ≤ c ≤ K, held ≤ c.
#[tactic(auto, using(crate::proofs::Tests::ca_low, crate::proofs::Tests::ca_high, crate::proofs::Tests::ceiling_low, crate::proofs::Tests::ceiling_high, crate::proofs::Tests::held_test))]
pub fn numbers_ok(k: usize, low: usize, ca: usize, r: usize, c: usize, h: usize) -> bool
    ensures { result ≡ numbers_ok k low ca r c h }
{
    if ca < low {
        return false;
    }
    if HIGHEST_CA < ca {
        return false;
    }
    if c < r {
        return false;
    }
    if k < c {
        return false;
    }
    h <= c
}

// The same of the eight octets from `at`.
fn station_ok(m: &[u8], at: usize, k: usize, low: usize) -> bool
    requires { at + station_size ≤ length m.now }
    ensures { result ≡ numbers_at m.now k low at }
{
    let ca = layout::ca_at(m, at);
    let r = layout::reservation_at(m, at);
    let c = layout::ceiling_at(m, at);
    let h = layout::held_at(m, at);
    numbers_ok(k, low, ca, r, c, h)
}

// The same of n stations, CA strictly ascending.
#[tactic(auto, using(crate::proofs::Turns::plan_on, crate::proofs::Turns::plan_off, crate::proofs::Turns::plan_end))]
fn plan_ok(m: &[u8], k: usize, at: usize, n: usize) -> bool
    requires { at + station_size * n ≤ length m.now }
    ensures { result ≡ plan_at m.now k 1 at n }
{
    let mut low = 1;
    for i in 0..n {
        let station = at + STATION_SIZE * i;
        if !station_ok(m, station, k, low) {
            return false;
        }
        low = layout::ca_at(m, station) + 1;
    }
    true
}

// ---- the shares

// Sums over stations.
#[derive(Clone, Copy)]
pub struct Sums {
    pub reserved: usize,
    pub held: usize,
    pub unmet: usize,
}

impl Sums {
    // Reservations and points at most K, and free ≥ unmet.
    #[tactic(auto, using(crate::proofs::Tests::reserved_high, crate::proofs::Tests::held_high, crate::proofs::Tests::unmet_test))]
    fn within(self, k: usize) -> bool
        ensures { result ≡ shares_ok k self.reserved self.held self.unmet }
    {
        if k < self.reserved {
            return false;
        }
        if k < self.held {
            return false;
        }
        self.unmet <= k - self.held
    }
}

// The share of the station whose eight octets start at `at`.
pub fn share_at(m: &[u8], at: usize) -> Share
    requires { at + station_size ≤ length m.now }
    ensures { (result ≡ share_at m.now at) × (result.held < 65536) × (result.reservation < 65536) }
{
    let r = layout::reservation_at(m, at);
    let c = layout::ceiling_at(m, at);
    let h = layout::held_at(m, at);
    Share {
        held: h,
        reservation: r,
        ceiling: c,
    }
}

// Reservations, held and unmet room of the n stations from `at`, each added up.
#[tactic(auto, using(crate::proofs::Turns::sum_none, crate::proofs::Turns::sum_more, limits::proofs::Shares::unmet_is))]
pub fn add_up(m: &[u8], at: usize, n: usize) -> Sums
    requires { (at + station_size * n ≤ length m.now) × (n ≤ most_stations) }
    ensures { AddedUp m.now at n result }
{
    let mut sums = Sums {
        reserved: 0,
        held: 0,
        unmet: 0,
    };
    for i in 0..n {
        let s = share_at(m, at + STATION_SIZE * i);
        sums.reserved += s.reservation;
        sums.held += s.held;
        sums.unmet += s.unmet();
    }
    sums
}

// The stations' numbers, and the head's number of points.
#[tactic(auto, using(crate::proofs::Heads::head_long, crate::proofs::Heads::head_room, crate::proofs::Heads::head_few, crate::proofs::Tests::plan_bad, crate::proofs::Tests::points_differ, crate::proofs::Tests::shares_test))]
fn plan_and_shares(m: &[u8]) -> bool
    requires { head_at m.now ≡ true }
    ensures { result ≡ shares_at m.now (capacity_in m.now) (stations_from m.now) (stations_in m.now) (points_in m.now) }
{
    let k = layout::capacity_of(m);
    let n = layout::stations_of(m);
    let at = HEAD_SIZE + PLACE_SIZE * k;
    if !plan_ok(m, k, at, n) {
        return false;
    }
    let s = add_up(m, at, n);
    if layout::points_of(m) != s.held {
        return false;
    }
    s.within(k)
}

// ---- the places

// Each station's places, station after station.
#[tactic(auto, using(crate::proofs::Turns::bodies_on, crate::proofs::Turns::bodies_off, crate::proofs::Turns::bodies_end, crate::proofs::Turns::sum_on))]
fn bodies_ok(m: &[u8], at: usize, n: usize, limits: &PlaceLimits) -> bool
    requires { (at + station_size * n ≤ length m.now) × (head_size + place_size * sum_at held_at m.now at n ≤ length m.now) }
    ensures { result ≡ bodies_at m.now head_size at n }
{
    let mut place = HEAD_SIZE;
    for i in 0..n {
        let station = at + STATION_SIZE * i;
        let ca = layout::ca_at(m, station);
        let h = layout::held_at(m, station);
        if !limits.places_ok(m, place, ca, h) {
            return false;
        }
        place += PLACE_SIZE * h;
    }
    true
}

// The places of the stations and the unused places after them.
#[tactic(auto, using(crate::proofs::Heads::head_long, crate::proofs::Heads::head_room, crate::proofs::Whole::points_are, crate::proofs::Whole::points_few, crate::proofs::Whole::bodies_bad, crate::proofs::Whole::unused_test))]
fn places_and_unused(m: &[u8]) -> bool
    requires { (head_at m.now ≡ true) × (shares_at m.now (capacity_in m.now) (stations_from m.now) (stations_in m.now) (points_in m.now) ≡ true) }
    ensures { result ≡ places_at m.now (capacity_in m.now) (stations_in m.now) (points_in m.now) }
{
    let k = layout::capacity_of(m);
    let points = layout::points_of(m);
    let limits = PlaceLimits::new();
    if !bodies_ok(
        m,
        HEAD_SIZE + PLACE_SIZE * k,
        layout::stations_of(m),
        &limits,
    ) {
        return false;
    }
    octets::all_zero(
        m,
        HEAD_SIZE + PLACE_SIZE * points,
        PLACE_SIZE * (k - points),
    )
}

// Does the memory hold a well-formed table?
#[tactic(auto, using(crate::proofs::Whole::head_bad, crate::proofs::Whole::shares_bad, crate::proofs::Whole::places_test))]
pub fn well_formed(m: &[u8]) -> bool
    ensures { result ≡ well_formed m.now }
{
    if !head_ok(m) {
        return false;
    }
    if !plan_and_shares(m) {
        return false;
    }
    places_and_unused(m)
}

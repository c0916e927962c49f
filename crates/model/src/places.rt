// The test of a station's places, by limits for each type that are made once and lent.
ghost use Rattle.std.specs.Prelude.{◌≡◌, ◌+◌, ◌*◌, ◌≤◌, ◌<◌, length};
ghost use Rattle.octets.specs.Number.{zeros};
ghost use Rattle.layout.specs.Layout.{place_size, rest_size};
ghost use Rattle.model.specs.Place.{place_ok, places_ok};
ghost use Rattle.model.specs.Limits.{types, first_limit, last_limit, counter_limit, place_limits};

use crate::{COUNTER_GROUPS, GROUPS, M_IT_NA_1, M_IT_TB_1};
use layout::{
    CA_OFFSET, COUNTER_OFFSET, GROUP_OFFSET, IOA_OFFSET, PLACE_SIZE, REST_OFFSET, VALUE_OFFSET,
    VALUE_SIZE,
};

// The types from 0 to the last that is a point's.
const TYPES: usize = limits::size::POINT_KINDS_END;

// Three limits for each.
const PLACE_LIMITS: usize = 3 * TYPES;

// The highest interrogation group and counter group.
const GROUP_LIMIT: usize = GROUPS as usize;

const COUNTER_LIMIT: usize = COUNTER_GROUPS as usize;

// Where the counter groups' limits of the two types of counters stand.
const TOTALS: usize = M_IT_NA_1 as usize + 2 * TYPES;

const TIMED_TOTALS: usize = M_IT_TB_1 as usize + 2 * TYPES;

// The octets of an element, from none to all of a value.
const SIZES: usize = VALUE_SIZE + 1;

// The last four octets of a value.
const LAST_FOUR_OFFSET: usize = VALUE_OFFSET + 8;

// What the first eight octets of a value, as a number, are at most, by the octets of its element.
const FIRST: [usize; SIZES] = [
    0,
    255,
    65535,
    16777215,
    4294967295,
    1099511627775,
    281474976710655,
    72057594037927935,
    18446744073709551615,
    18446744073709551615,
    18446744073709551615,
    18446744073709551615,
    18446744073709551615,
];

// What the last four are below, by the octets of its element: none is where there is no element.
const LAST: [usize; SIZES] = [0, 1, 1, 1, 1, 1, 1, 1, 1, 256, 65536, 16777216, 4294967296];

// The limits of a place by its type, made once and lent: of the first eight octets of the value, of the last four, and of the counter group.
#[derive(Drop)]
pub struct PlaceLimits {
    numbers: [usize; PLACE_LIMITS],
    ghost known: { numbers ≡ place_limits },
}

// Are the 26 octets from `at` zero? Four numbers, of which the last two overlap.
fn spare_zero(m: &[u8], at: usize) -> bool
    requires { at + rest_size ≤ length m.now }
    ensures { result ≡ zeros m.now at rest_size }
{
    let low = octets::number_at::<8>(m, at) | octets::number_at::<8>(m, at + 8);
    let high = octets::number_at::<8>(m, at + 16) | octets::number_at::<8>(m, at + 18);
    (low | high) == 0
}

impl PlaceLimits {
    // The limits of every type.
    #[tactic(auto, using(crate::proofs::Limits::filled_none, crate::proofs::Limits::size_small, crate::proofs::Limits::filled_end))]
    pub fn new() -> PlaceLimits
        ensures { result.numbers ≡ place_limits }
    {
        let sizes = limits::size::point_sizes();
        let first = FIRST;
        let last = LAST;
        let mut numbers = [0usize; PLACE_LIMITS];
        for kind in 0..TYPES {
            let size = usize::from(sizes[kind]);
            numbers[kind] = first[size];
            numbers[kind + TYPES] = last[size];
        }
        numbers[TOTALS] = COUNTER_LIMIT;
        numbers[TIMED_TOTALS] = COUNTER_LIMIT;
        PlaceLimits { numbers }
    }

    // What the first eight octets of a value of the type, as a number, are at most.
    #[tactic(auto, using(crate::proofs::Limits::first_at))]
    fn first(&self, kind: usize) -> usize
        requires { kind < types }
        ensures { result ≡ first_limit kind }
    {
        self.numbers[kind]
    }

    // What the last four are below.
    #[tactic(auto, using(crate::proofs::Limits::last_at))]
    fn last(&self, kind: usize) -> usize
        requires { kind < types }
        ensures { result ≡ last_limit kind }
    {
        self.numbers[kind + TYPES]
    }

    // What the counter group of a point of the type, and the octet after it, are at most as a number.
    #[tactic(auto, using(crate::proofs::Limits::counter_at))]
    fn counter(&self, kind: usize) -> usize
        requires { kind < types }
        ensures { result ≡ counter_limit kind }
    {
        self.numbers[kind + 2 * TYPES]
    }

    // Does the place at `at` hold a valid point of station ca, IOA not below `low`, with its spare octets zero?
    fn place_ok(&self, m: &[u8], at: usize, ca: usize, low: usize) -> bool
        requires { at + place_size ≤ length m.now }
        ensures { result ≡ place_ok m.now at ca low }
    {
        let kind = usize::from(m[at]);
        if TYPES <= kind {
            return false;
        }
        if octets::number_at::<2>(m, at + CA_OFFSET) != ca {
            return false;
        }
        if octets::number_at::<3>(m, at + IOA_OFFSET) < low {
            return false;
        }
        if GROUP_LIMIT < octets::number_at::<2>(m, at + GROUP_OFFSET) {
            return false;
        }
        if self.counter(kind) < octets::number_at::<2>(m, at + COUNTER_OFFSET) {
            return false;
        }
        if self.first(kind) < octets::number_at::<8>(m, at + VALUE_OFFSET) {
            return false;
        }
        if self.last(kind) <= octets::number_at::<4>(m, at + LAST_FOUR_OFFSET) {
            return false;
        }
        spare_zero(m, at + REST_OFFSET)
    }

    // The same of n places, IOA rising.
    #[tactic(auto, using(crate::proofs::Within::places_on, crate::proofs::Within::places_off, crate::proofs::Within::places_end))]
    pub fn places_ok(&self, m: &[u8], at: usize, ca: usize, n: usize) -> bool
        requires { at + place_size * n ≤ length m.now }
        ensures { result ≡ places_ok m.now at ca 0 n }
    {
        let mut low = 0;
        for i in 0..n {
            let place = at + PLACE_SIZE * i;
            if !self.place_ok(m, place, ca, low) {
                return false;
            }
            low = octets::number_at::<3>(m, place + IOA_OFFSET) + 1;
        }
        true
    }
}

// Taking points out of a table's memory: one point of a station, or all of them. The plan and K stay.
#![tactic(auto)]

ghost use Rattle.std.specs.Prelude.{◌≡◌, ◌+◌, ◌*◌, ◌≤◌, ◌<◌, length};
ghost use Rattle.layout.specs.Layout.{place_size, station_size, capacity_in, points_in, size_in};
ghost use Rattle.remove.specs.Remove.{closed_up, taken_out, none_held, all_taken_out, Removable};

use layout::{HEAD_SIZE, HELD_OFFSET, PLACE_SIZE, POINTS_OFFSET, STATION_SIZE};

// The places after the one at `at`, up to `to`, move down by one place, and the last becomes zero.
#[tactic(auto, unfolding(crate::specs::Remove::closed_up))]
fn close_up(m: &mut [u8], at: usize, to: usize)
    requires { (at + place_size ≤ to) × (to ≤ length m.old) }
    ensures { m.new ≡ closed_up m.old at to }
{
    octets::shift_down(m, at, to, PLACE_SIZE);
    octets::clear(m, to - PLACE_SIZE, to);
}

// Takes the place at `at` out: it is one of the h places of the station of index i.
#[tactic(auto, unfolding(crate::specs::Remove::taken_out))]
pub fn take_out(m: &mut [u8], i: usize, h: usize, at: usize)
    requires { Removable m.old i h at }
    ensures { m.new ≡ taken_out m.old i h at }
{
    let station = layout::station_at(m, i);
    let n = layout::points_of(m);
    close_up(m, at, HEAD_SIZE + PLACE_SIZE * n);
    octets::put::<2>(m, station + HELD_OFFSET, h - 1);
    octets::put::<2>(m, POINTS_OFFSET, n - 1);
}

// The held of each of the n stations from `at` becomes 0.
#[tactic(auto, using(crate::proofs::Emptied::none_held_on, crate::proofs::Emptied::none_held_end, octets::proofs::Laws::length_over))]
fn none_held(m: &mut [u8], at: usize, n: usize)
    requires { at + station_size * n ≤ length m.old }
    ensures { m.new ≡ none_held m.old at n }
{
    for i in 0..n {
        octets::put::<2>(m, at + STATION_SIZE * i + HELD_OFFSET, 0);
    }
}

// Takes all points out and gives back how many there were.
#[tactic(auto, unfolding(crate::specs::Remove::all_taken_out))]
pub fn take_all_out(m: &mut [u8]) -> usize
    requires { (size_in m.old ≤ length m.old) × (points_in m.old ≤ capacity_in m.old) }
    ensures { (result ≡ points_in m.old) × (m.new ≡ all_taken_out m.old) }
{
    let k = layout::capacity_of(m);
    let stations = layout::stations_of(m);
    let n = layout::points_of(m);
    octets::clear(m, HEAD_SIZE, HEAD_SIZE + PLACE_SIZE * n);
    none_held(m, HEAD_SIZE + PLACE_SIZE * k, stations);
    octets::put::<2>(m, POINTS_OFFSET, 0);
    n
}

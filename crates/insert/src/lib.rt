// A point put into its station's places. Where it goes is found before, by `lookup::find`.
#![tactic(auto)]

ghost use Rattle.std.specs.Prelude.{◌≡◌, ◌+◌, ◌*◌, ◌≤◌, ◌<◌, length};
ghost use Rattle.layout.specs.Layout.{place_size};
ghost use Rattle.model.specs.Place.{place_of};
ghost use Rattle.insert.specs.Insert.{put_in, placed, HasRoom};

use layout::{HEAD_SIZE, HELD_OFFSET, PLACE_SIZE, POINTS_OFFSET};
use model::Point;

// Writes the place of a point of station ca at `at`; the places from there up to `to` move up by one place.
#[tactic(auto, unfolding(crate::specs::Insert::put_in))]
fn put_in(m: &mut [u8], at: usize, to: usize, ca: usize, p: Point)
    requires { (at ≤ to) × (to + place_size ≤ length m.old) × (ca < 65536) × (p.ioa < 16777216) }
    ensures { m.new ≡ put_in m.old at to (place_of ca p) }
{
    octets::shift_up(m, at, to, PLACE_SIZE);
    model::put_place(m, at, ca, p);
}

// Puts a point of station ca in at `at`: it becomes one of the places of the station of index i, which held h.
#[tactic(auto, unfolding(crate::specs::Insert::placed))]
pub fn insert(m: &mut [u8], ca: usize, p: Point, i: usize, h: usize, at: usize)
    requires { (ca < 65536) × (p.ioa < 16777216) × HasRoom m.old i h at }
    ensures { m.new ≡ placed m.old ca p i h at }
{
    let station = layout::station_at(m, i);
    let n = layout::points_of(m);
    put_in(m, at, HEAD_SIZE + PLACE_SIZE * n, ca, p);
    octets::put::<2>(m, station + HELD_OFFSET, h + 1);
    octets::put::<2>(m, POINTS_OFFSET, n + 1);
}

// A point's place of 48 octets, written.
ghost use Rattle.std.specs.Prelude.{◌≡◌, ◌+◌, ◌≤◌, ◌<◌, length};
ghost use Rattle.octets.specs.Over.{over};
ghost use Rattle.layout.specs.Layout.{place_size};
ghost use Rattle.model.specs.Place.{place_of};

use crate::Point;
use layout::{
    CA_OFFSET, COUNTER_OFFSET, GROUP_OFFSET, IOA_OFFSET, PLACE_SIZE, REST_OFFSET, VALUE_OFFSET,
};

// The 48 octets of a point of station ca.
pub fn place_of(ca: usize, p: Point) -> [u8; PLACE_SIZE]
    requires { (ca < 65536) × (p.ioa < 16777216) }
    ensures { result ≡ place_of ca p }
{
    let mut place = [0; PLACE_SIZE];
    place[0] = p.kind;
    octets::put::<2>(&mut place, CA_OFFSET, ca);
    octets::put::<3>(&mut place, IOA_OFFSET, p.ioa as usize);
    octets::put::<2>(&mut place, GROUP_OFFSET, usize::from(p.group));
    place[COUNTER_OFFSET] = p.counter;
    place[VALUE_OFFSET..REST_OFFSET].copy_from_slice(&p.value);
    place
}

// Writes the place of a point of station ca.
pub fn put_place(m: &mut [u8], at: usize, ca: usize, p: Point)
    requires { (at + place_size ≤ length m.old) × (ca < 65536) × (p.ioa < 16777216) }
    ensures { m.new ≡ over m.old at (place_of ca p) }
{
    let octets = place_of(ca, p);
    octets::copy_in(&octets, m, at);
}

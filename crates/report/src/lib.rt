// What a report is: which points a command asks for, of which places and in which terms, how their objects are packed into ASDUs, and in which order. The octets are written by the crates above.
#![tactic(auto)]

ghost use Rattle.std.specs.Prelude.{◌≡◌, ◌+◌, ◌≤◌, length};
ghost use Rattle.layout.specs.Layout.{place_size};
ghost use Rattle.model.specs.Place.{point_at};
ghost use Rattle.report.specs.Selection.{selects};

use layout::{COUNTER_OFFSET, GROUP_OFFSET};

// The points that a command asks for: every one (global interrogation, counters general), those of an interrogation group 1 to 16, or those of a counter group 1 to 4.
#[derive(Clone, Copy)]
pub enum Selection {
    Every,
    Group(u8),
    CounterGroup(u8),
}

// The n places from `base`: every station's, or one station's own. An enum of the two would have base and n in both cases, and be no plainer.
#[derive(Clone, Copy)]
pub struct Reach {
    pub base: usize,
    pub n: usize,
    pub every: bool,
}

// What all ASDUs of a report have in common: the length limit, the cause and the common address.
#[derive(Clone, Copy)]
pub struct Terms {
    pub limit: usize,
    pub cause: u8,
    pub ca: u16,
}

// Does the selection take the point of the place at `at`?
pub fn selects_at(m: &[u8], at: usize, s: Selection) -> bool
    requires { at + place_size ≤ length m.now }
    ensures { result ≡ selects s (point_at m.now at) }
{
    match s {
        Selection::Every => true,
        Selection::Group(g) => octets::number_at::<2>(m, at + GROUP_OFFSET) == usize::from(g),
        Selection::CounterGroup(g) => m[at + COUNTER_OFFSET] == g,
    }
}

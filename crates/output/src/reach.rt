// The places that a common address speaks of: a station's, or under 65,535 those of every station.
ghost use Rattle.std.specs.Prelude.{◌≡◌, ◌≤◌, length};
ghost use Rattle.layout.specs.Layout.{most_stations, stations_in, size_in};
ghost use Rattle.output.specs.Reach.{seat_reach, reach_of};

use asdu::header::GLOBAL_COMMON_ADDRESS;
use layout::HEAD_SIZE;
use lookup::Seat;
use report::Reach;

// A station's own places; none where the plan has no such station.
fn seat_reach(seat: Option<Seat>) -> Reach
    ensures { result ≡ seat_reach seat }
{
    match seat {
        Some(seat) => Reach {
            base: seat.first,
            n: seat.held,
            every: false,
        },
        None => Reach {
            base: HEAD_SIZE,
            n: 0,
            every: false,
        },
    }
}

// The places that a common address speaks of.
#[tactic(auto, unfolding(crate::specs::Reach::reach_of))]
pub fn reach_of(m: &[u8], ca: u16) -> Reach
    requires { (stations_in m.now ≤ most_stations) × (size_in m.now ≤ length m.now) }
    ensures { result ≡ reach_of m.now ca }
{
    if ca == GLOBAL_COMMON_ADDRESS {
        return Reach {
            base: HEAD_SIZE,
            n: layout::points_of(m),
            every: true,
        };
    }
    seat_reach(lookup::seat_at(m, usize::from(ca)))
}

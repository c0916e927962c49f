// Whether an address stands in a slice of point records.
#![tactic(auto)]

ghost use Rattle.std.specs.Prelude.{◌≡◌};
ghost use Rattle.registry.specs.Registry.{stands_in};

use model::Request;

// Does the point's address stand among the points?
pub fn stands_in(point: &Request, points: &[Request]) -> bool
    ensures { result ≡ stands_in point.now points.now }
{
    points
        .iter()
        .any(|p| p.ca == point.ca && p.ioa == point.ioa)
}

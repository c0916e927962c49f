// The registration of a batch given as a slice of point records of any length. No more points can be held than a table has places, so the first ones decide on room; but every point is tested before any is given room.
#![tactic(auto)]

ghost use Rattle.std.specs.Prelude.{◌≡◌, [], map, true};
ghost use Rattle.table.specs.Memory.{well_formed, table_of};
ghost use Rattle.registry.specs.Registry.{batch_fault, registering_all};
ghost use Rattle.replies.specs.Replies.{Replies, placed};
ghost use Rattle.points.specs.Points.{whole};
ghost use Rattle.point_lists.specs.Later.{last_first, later_tests, answer_of};

use limits::outcome::Refusal;
use model::Request;
use points::DECIDING;
use registry::Fault;

// The first of the tests 11 to 15 and 17 that a point fails.
fn fault_alone(m: &[u8], point: Request) -> Result<(), Refusal>
    requires { well_formed m.now ≡ true }
    ensures { result ≡ batch_fault (table_of m.now) [] (whole point) }
{
    let record = points::record_of(point);
    batch_tests::own_tests(m, &record, false).map_err(|fault| fault.refusal)
}

// The first of the tests 11 to 17 that a point fails, `earlier` being those that stand before it.
#[tactic(auto, using(crate::proofs::Faults::stands, crate::proofs::Faults::apart, crate::proofs::Faults::before))]
fn fault_of(m: &[u8], point: Request, earlier: &[Request]) -> Result<(), Refusal>
    requires { well_formed m.now ≡ true }
    ensures { result ≡ batch_fault (table_of m.now) (last_first earlier.now) (whole point) }
{
    let alone = fault_alone(m, point);
    match alone {
        Ok(_) | Err(Refusal::AlreadyRegistered) if among::stands_in(&point, earlier) => {
            Err(Refusal::AddressTwice)
        }
        _ => alone,
    }
}

// The own tests of the points after the first, which decide on room; the first that fails is named.
#[tactic(auto, unfolding(crate::specs::Later::later_tests))]
pub fn later_tests(m: &[u8], points: &[Request]) -> Result<(), Fault>
    ensures { placed result ≡ later_tests m.now points.now }
{
    if !wellformed::well_formed(m) {
        return Ok(());
    }
    for i in DECIDING..points.len() {
        if let Err(refusal) = fault_of(m, points[i], &points[..i]) {
            return Err(Fault { refusal, place: i });
        }
    }
    Ok(())
}

// The answer to the first points; a refusal for room (19, 20) gives way to the fault of a later point.
#[tactic(auto, using(crate::proofs::Rooms::for_room, crate::proofs::Rooms::not_for_room))]
fn answer_of(later: Result<(), Fault>, first: Result<(), Fault>) -> Result<(), Fault>
    ensures { placed result ≡ answer_of (placed later) (placed first) }
{
    match first {
        Err(
            Fault {
                refusal: Refusal::CeilingReached | Refusal::NotAdmitted,
                ..
            },
        ) => later.and(first),
        _ => first,
    }
}

// Registers a batch of point records: 3, then 11 to 17 of each in list order, then 19 and 20; all or none.
pub fn register_points(table: &mut [u8], points: &[Request]) -> Result<(), Fault>
    ensures { Replies (registering_all (map whole points.now)) table.old (placed result) table.new }
{
    let later = later_tests(table, points);
    let first = points::register_first(table, points);
    answer_of(later, first)
}

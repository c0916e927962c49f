// Calls of the two forms over records, with plain values in their signatures: arrays of point records, and a clock that comes and goes.
#![tactic(auto)]

ghost use Rattle.std.specs.Prelude.{map};
ghost use Rattle.replies.specs.Replies.{Replies, placed};
ghost use Rattle.answers.specs.Said.{answered};
ghost use Rattle.registry.specs.Registry.{registering_all};
ghost use Rattle.points.specs.Points.{whole};
ghost use Rattle.clock.specs.Clock.{Answers};

use clock::{Clock, Told};
use model::Request;
use registry::Fault;

// Registers a batch of N points.
pub fn register_batch<const N: usize>(table: &mut [u8], points: [Request; N]) -> Result<(), Fault>
    ensures { Replies (registering_all (map whole points.entry)) table.old (placed result) table.new }
{
    point_lists::register_points(table, &points)
}

// A system command on a clock that comes by value and goes back: it is kept here, and lent to the entry.
pub fn system_command(table: &mut [u8], before: Clock, asdu: &[u8], answer: &mut [u8]) -> Told
    ensures { Answers asdu.now table before answer (answered result.answered) result.clock }
{
    let mut kept = before;
    let answered = clock::system_command(table, &mut kept, asdu, answer);
    Told {
        answered,
        clock: kept,
    }
}

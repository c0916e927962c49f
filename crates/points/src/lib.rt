// A batch as a slice of point records: each is laid down as a flat record, the form that the batch entry reads.
#![tactic(auto)]

ghost use Rattle.std.specs.Prelude.{◌≡◌, ◌≤◌, ◌*◌, length, take};
ghost use Rattle.batch_records.specs.Records.{record_octets, records_in};
ghost use Rattle.replies.specs.Replies.{Replies, placed};
ghost use Rattle.registry.specs.Registry.{registering_all};
ghost use Rattle.points.specs.Points.{flat_record, flat_records, deciding_octets, batch_of};

use batch_records::RECORD_OCTETS;
use layout::MOST_PLACES;
use model::Request;
use registry::Fault;

// The octets of a point record.
pub fn record_of(q: Request) -> [u8; RECORD_OCTETS]
    ensures { result ≡ flat_record q }
{
    let mut octets = [0u8; RECORD_OCTETS];
    octets[..2].copy_from_slice(&q.ca.to_le_bytes());
    octets[2..6].copy_from_slice(&q.ioa.to_le_bytes());
    octets[6] = q.kind;
    octets[7] = u8::from(q.group.is_some());
    octets[8] = q.group.unwrap_or(0);
    octets[9] = u8::from(q.counter.is_some());
    octets[10] = q.counter.unwrap_or(0);
    octets[12..].copy_from_slice(&q.value);
    octets
}

// Lays the records of the points down, as many as there is room for, and gives their number back.
fn lay_down(records: &mut [u8], points: &[Request]) -> usize
    ensures room { record_octets * result ≤ length records.old }
    ensures laid { take (record_octets * result) records.new ≡ flat_records (take (records_in records.old) points.now) }
{
    let count = points.len().min(records.len() / RECORD_OCTETS);
    for i in 0..count {
        octets::copy_in(&record_of(points[i]), records, RECORD_OCTETS * i);
    }
    count
}

// How many points decide on room: one more than a table can hold.
pub const DECIDING: usize = MOST_PLACES + 1;

// The octets of their records.
const DECIDING_OCTETS: usize = RECORD_OCTETS * DECIDING;

// Registers a batch of point records by the first that decide: a longer one is refused in any case, and `point_lists` tests the points after them.
pub fn register_first(table: &mut [u8], points: &[Request]) -> Result<(), Fault>
    ensures { Replies (registering_all (batch_of deciding_octets points.now)) table.old (placed result) table.new }
{
    let mut records = [0u8; DECIDING_OCTETS];
    let count = lay_down(&mut records, points);
    batch::register_points(table, &records[..RECORD_OCTETS * count])
}

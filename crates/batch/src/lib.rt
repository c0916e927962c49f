// The registration of a batch of points: every point's own tests, then the share rule, then all are stored, or none. From `actor.rs`.
#![tactic(auto)]

ghost use Rattle.std.specs.Prelude.{◌≡◌, ◌+◌, ◌*◌, ◌≤◌, length};
ghost use Rattle.layout.specs.Layout.{station_size, most_places, most_stations};
ghost use Rattle.table.specs.Memory.{table_of};
ghost use Rattle.batch_records.specs.Records.{requests_in};
ghost use Rattle.merging.specs.Merge.{SortedNumbers};
ghost use Rattle.batch_room.specs.Room.{TookIn};
ghost use Rattle.batch.specs.Raise.{raised, Raisable, AllPass};
ghost use Rattle.replies.specs.Replies.{Replies, placed};
ghost use Rattle.registry.specs.Effect.{holding};
ghost use Rattle.registry.specs.Registry.{room_tests, registering_all};

use batch_records::RECORD_OCTETS;
use layout::{
    HEAD_SIZE, HELD_OFFSET, MOST_PLACES, MOST_STATIONS, PLACE_SIZE, POINTS_OFFSET, STATION_SIZE,
};
use limits::outcome::Refusal;
use registry::Fault;

// Adds to what each of the n stations from `at` holds what it took in.
#[tactic(auto, using(crate::proofs::Raised::raise_on, crate::proofs::Raised::raise_fits, crate::proofs::Raised::raisable_on, crate::proofs::Raised::raise_end, octets::proofs::Laws::length_over))]
fn raise_held(m: &mut [u8], taken: &[u16; MOST_STATIONS], at: usize, n: usize)
    requires { (n ≤ most_stations) × (at + station_size * n ≤ length m.old) × Raisable m.old taken.now 0 at n }
    ensures { m.new ≡ raised m.old taken.now 0 at n }
{
    for i in 0..n {
        let to = at + STATION_SIZE * i + HELD_OFFSET;
        let held = octets::number_at::<2>(m, to);
        octets::put::<2>(m, to, held + usize::from(taken[i]));
    }
}

// Stores the points of all records, which have passed every test; `taken` has what each station takes in, `numbers` the records in order.
fn store_all(m: &mut [u8], records: &[u8], taken: &[u16; MOST_STATIONS], numbers: &[u64])
    requires { AllPass m.old records.now × TookIn (table_of m.old) (requests_in records.now) taken.now × (most_places ≤ length numbers.now) × SortedNumbers records.now numbers.now }
    ensures { m.new ≡ holding m.old (table_of m.old) (room_tests (table_of m.old) 0 (requests_in records.now)).after }
{
    let k = layout::capacity_of(m);
    let stations = layout::stations_of(m);
    let n = layout::points_of(m);
    let count = records.len() / RECORD_OCTETS;
    merging::merge(m, records, numbers, count, n);
    raise_held(m, taken, HEAD_SIZE + PLACE_SIZE * k, stations);
    octets::put::<2>(m, POINTS_OFFSET, n + count);
}

// Registers a batch of points, given as flat records: 3, then 11 to 17 of each in list order, then 19 and 20; all or none.
pub fn register_points(table: &mut [u8], records: &[u8]) -> Result<(), Fault>
    ensures { Replies (registering_all (requests_in records.now)) table.old (placed result) table.new }
{
    if !wellformed::well_formed(table) {
        return Err(Fault {
            refusal: Refusal::TableNotWellFormed,
            place: 0,
        });
    }
    // No heap: arrays for the most that a table can have.
    let mut numbers = [0u64; MOST_PLACES];
    let apart = merging::order(records, &mut numbers);
    batch_tests::own_tests(table, records, apart)?;
    let mut taken = [0u16; MOST_STATIONS];
    batch_room::room_tests(table, records, &mut taken)?;
    store_all(table, records, &taken, &numbers);
    Ok(())
}

// The tests 11 to 17 of a batch's points, in list order. The table is only read.
#![tactic(auto)]

ghost use Rattle.std.specs.Prelude.{◌≡◌, true, false, [], ◌+◌, ◌*◌, ◌/◌, ◌≤◌, ◌<◌, length, is_ok};
ghost use Rattle.merging.specs.Merge.{Differ};
ghost use Rattle.layout.specs.Layout.{place_size};
ghost use Rattle.model.specs.Request.{request_at};
ghost use Rattle.table.specs.Memory.{well_formed, table_of};
ghost use Rattle.lookup.specs.Find.{find_at};
ghost use Rattle.batch_records.specs.Records.{record_octets, records_in, requests_in, earlier_at, stands_before};
ghost use Rattle.registry.specs.Registry.{batch_fault, own_tests};
ghost use Rattle.replies.specs.Replies.{placed};
ghost use Rattle.batch_tests.specs.Tests.{flag_count, address_flag, flag_at, comes_again};

use batch_records::{IOA_IN_RECORD, RECORD_OCTETS};
use limits::outcome::Refusal;
use registry::Fault;

// How many flags there are for the addresses passed.
const FLAGS: usize = 16384;

// Is there a point with the IOA among the n places from `first`?
fn is_held(m: &[u8], first: usize, n: usize, ioa: usize) -> bool
    requires { first + place_size * n ≤ length m.now }
    ensures { result ≡ is_ok (find_at m.now first n ioa) }
{
    lookup::find(m, first, n, ioa).is_ok()
}

// The flag of an address. Any number would be right; with this one stations that have the same IOAs do not share flags.
#[tactic(auto, unfolding(crate::specs::Tests::address_flag))]
fn flag_of(ca: usize, ioa: usize) -> usize
    requires { (ca < 65536) × (ioa < 4294967296) }
    ensures { (result ≡ address_flag ca ioa) × (result < flag_count) }
{
    (ioa + 10125 * ca) % FLAGS
}

// The flag of the record at `at`.
#[tactic(auto, unfolding(crate::specs::Tests::flag_at))]
fn flag_at(records: &[u8], at: usize) -> usize
    requires { at + record_octets ≤ length records.now }
    ensures { (result ≡ flag_at records.now at) × (result < flag_count) }
{
    let ca = octets::number_at::<2>(records, at);
    let ioa = octets::number_at::<4>(records, at + IOA_IN_RECORD);
    flag_of(ca, ioa)
}

// Does the address stand in one of the first n records? Only where its flag is set are they looked at.
fn stands_flagged(records: &[u8], ca: usize, ioa: usize, n: usize, flag: bool) -> bool
    requires { (record_octets * n ≤ length records.now) × (flag ≡ false → stands_before records.now ca ioa n ≡ false) }
    ensures { result ≡ stands_before records.now ca ioa n }
{
    flag && batch_records::stands_before(records, ca, ioa, n)
}

// The first of the tests 11 to 17 that the record of place i fails: the earlier records of the batch count for 16, the table for 12 and 17.
#[tactic(auto, using(lookup::proofs::Laws::seats_readable, lookup::proofs::Laws::places_readable))]
fn fault_at(m: &[u8], records: &[u8], i: usize, flag: bool) -> Result<(), Refusal>
    requires { (well_formed m.now ≡ true) × (record_octets * i + record_octets ≤ length records.now) × (flag ≡ false → comes_again records.now i ≡ false) }
    ensures { result ≡ batch_fault (table_of m.now) (earlier_at records.now i) (request_at records.now (record_octets * i)) }
{
    let request = model::request_at(records, RECORD_OCTETS * i);
    let ca = usize::from(request.ca);
    let ioa = request.ioa as usize;
    let Some(seat) = lookup::seat_at(m, ca) else {
        return model::own_fault(false, request);
    };
    model::own_fault(true, request)?;
    if stands_flagged(records, ca, ioa, i, flag) {
        return Err(Refusal::AddressTwice);
    }
    if is_held(m, seat.first, seat.held, ioa) {
        return Err(Refusal::AlreadyRegistered);
    }
    Ok(())
}

// The tests of one record after another; the flags of those that passed are set.
#[tactic(auto, using(crate::proofs::Flags::first_marked, crate::proofs::Flags::marked_on, crate::proofs::Flags::flag_says, crate::proofs::Flags::none_again, crate::proofs::Laws::own_start, crate::proofs::Laws::own_on, crate::proofs::Laws::own_stop, crate::proofs::Laws::own_end))]
fn tests_of(m: &[u8], records: &[u8], flags: &mut [bool; FLAGS], apart: bool) -> Result<(), Fault>
    requires { (well_formed m.now ≡ true) × (apart ≡ true → Differ records.now (records_in records.now)) }
    ensures { placed result ≡ own_tests (table_of m.now) [] 0 (requests_in records.now) }
{
    let n = records.len() / RECORD_OCTETS;
    for i in 0..n {
        let k = flag_at(records, RECORD_OCTETS * i);
        fault_at(m, records, i, !apart && flags[k]).map_err(|refusal| Fault { refusal, place: i })?;
        flags[k] = true;
    }
    Ok(())
}

// Every record passes its own tests, or the first that does not is named. `apart` says that no two have one address, where that is known.
pub fn own_tests(m: &[u8], records: &[u8], apart: bool) -> Result<(), Fault>
    requires { (well_formed m.now ≡ true) × (apart ≡ true → Differ records.now (records_in records.now)) }
    ensures { placed result ≡ own_tests (table_of m.now) [] 0 (requests_in records.now) }
{
    // No heap: flags in a fixed memory say which addresses can stand before, where a set would say which do.
    let mut flags = [false; FLAGS];
    tests_of(m, records, &mut flags, apart)
}

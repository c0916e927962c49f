// A point as a caller gives it for registration: read from its flat record, tested, and made a point.
ghost use Rattle.std.specs.Prelude.{◌≡◌, ◌+◌, ◌≤◌, ◌<◌, length};
ghost use Rattle.layout.specs.Layout.{value_size};
ghost use Rattle.model.specs.Place.{is_counter};
ghost use Rattle.model.specs.Request.{record_size, group_ok, counter_ok, given_group, element, own_fault, point_of, request_at};

use crate::{COUNTER_GROUPS, GROUPS, HIGHEST_IOA, M_IT_NA_1, M_IT_TB_1, Point, Request};
use layout::VALUE_SIZE;
use limits::outcome::Refusal;

// A record's group: the first octet says whether there is one, since the C interface has it so.
fn given_group(has: u8, group: u8) -> Option<u8>
    ensures { result ≡ given_group has group }
{
    (has != 0).then_some(group)
}

// The request in the record of 24 octets at `at`.
pub fn request_at(records: &[u8], at: usize) -> Request
    requires { at + record_size ≤ length records.now }
    ensures { result ≡ request_at records.now at }
{
    let ca = octets::number_at::<2>(records, at) as u16;
    let ioa = octets::number_at::<4>(records, at + 2) as u32;
    let kind = records[at + 6];
    let group = given_group(records[at + 7], records[at + 8]);
    let counter = given_group(records[at + 9], records[at + 10]);
    let value = octets::twelve_at(records, at + 12);
    Request {
        ca,
        ioa,
        kind,
        group,
        counter,
        value,
    }
}

// Does a group that is given lie from 1 to `most`?
#[tactic(auto, using(crate::proofs::Groups::group_below, crate::proofs::Groups::group_from))]
fn group_ok(most: u8, group: Option<u8>) -> bool
    ensures { result ≡ group_ok most group }
{
    group.is_none_or(|g| 1 <= g && g <= most)
}

// Is the type a counter's?
pub fn is_counter(kind: u8) -> bool
    ensures { result ≡ is_counter kind }
{
    if kind == M_IT_NA_1 {
        return true;
    }
    kind == M_IT_TB_1
}

// Is a counter group given only with a counter?
fn counter_ok(kind: u8, counter: Option<u8>) -> bool
    ensures { result ≡ counter_ok kind counter }
{
    counter.is_none() || is_counter(kind)
}

// The first of the tests 11 to 15 that fails, `planned` being whether the plan has the CA.
pub fn own_fault(planned: bool, q: Request) -> Result<(), Refusal>
    ensures { result ≡ own_fault planned q }
{
    if limits::size::point_octets(q.kind) < 1 {
        return Err(Refusal::UnknownTypeOrAddress);
    }
    if HIGHEST_IOA < q.ioa {
        return Err(Refusal::UnknownTypeOrAddress);
    }
    if !planned {
        return Err(Refusal::StationNotPlanned);
    }
    let group = q.group;
    if !group_ok(GROUPS, group) {
        return Err(Refusal::GroupOutOfRange);
    }
    let counter = q.counter;
    if !group_ok(COUNTER_GROUPS, counter) {
        return Err(Refusal::CounterGroupOutOfRange);
    }
    if !counter_ok(q.kind, counter) {
        return Err(Refusal::NotCounter);
    }
    Ok(())
}

// A value's octets, those past its element zero.
fn element_of(value: [u8; VALUE_SIZE], size: usize) -> [u8; VALUE_SIZE]
    requires { size ≤ value_size }
    ensures { result ≡ element size value }
{
    let mut octets = value;
    octets::clear(&mut octets, size, VALUE_SIZE);
    octets
}

// The point that a request becomes.
#[tactic(auto, unfolding(crate::specs::Request::point_of))]
pub fn point_of(q: Request) -> Point
    ensures { result ≡ point_of q }
{
    let size = limits::size::point_octets(q.kind);
    let given = q.value;
    let group = q.group;
    let counter = q.counter;
    let value = element_of(given, size);
    Point {
        kind: q.kind,
        ioa: q.ioa,
        group: u16::from(group.unwrap_or(0)),
        counter: counter.unwrap_or(0),
        value,
    }
}

// Registration and removal of one point, removal of all, and the share of a station. From `actor.rs`: `register_one_point`, `Unregister`, `UnregisterAll`.
// Every entry tests everything itself: any octets may be lent as the table, and any numbers be given.
#![tactic(auto)]

ghost use Rattle.std.specs.Prelude.{◌≡◌, true, Some};
ghost use Rattle.table.specs.Memory.{well_formed};
ghost use Rattle.lookup.specs.Seats.{seat_at};
ghost use Rattle.replies.specs.Replies.{Replies, placeless, numbered};
ghost use Rattle.registry.specs.Registry.{registering, unregistering, unregistering_all, share_on};
ghost use Rattle.actor.specs.Actor.{HasStation, room_at, station_share_at};

use layout::{HEAD_SIZE, PLACE_SIZE};
use limits::outcome::Refusal;
use lookup::Seat;
use model::Request;
use registry::StationShare;

// The share of the station of index i.
#[tactic(auto, unfolding(crate::specs::Actor::station_share_at))]
fn share_here(m: &[u8], i: usize) -> StationShare
    requires { HasStation m.now i }
    ensures { result ≡ station_share_at m.now i }
{
    let k = layout::capacity_of(m);
    let n = layout::stations_of(m);
    let points = layout::points_of(m);
    let sums = wellformed::add_up(m, HEAD_SIZE + PLACE_SIZE * k, n);
    let station = layout::station_at(m, i);
    StationShare {
        share: wellformed::share_at(m, station),
        free: k - points,
        unmet: sums.unmet,
    }
}

// The share rule's answer to one more point of the station of index i.
#[tactic(auto, unfolding(crate::specs::Actor::room_at, crate::specs::Actor::station_share_at))]
fn room_at(m: &[u8], i: usize) -> Result<(), Refusal>
    requires { HasStation m.now i }
    ensures { result ≡ room_at m.now i }
{
    let here = share_here(m, i);
    here.share.admission(here.free, here.unmet)
}

// Registers a point of a planned station, whose seat was found in a well-formed table.
#[tactic(auto, using(lookup::proofs::Laws::seats_readable, lookup::proofs::Laws::places_readable, lookup::proofs::Laws::seat_inside, crate::proofs::Register::register_own, crate::proofs::Register::register_known, crate::proofs::Register::register_room, crate::proofs::Register::register_bounds, crate::proofs::Register::register_done))]
fn register_here(table: &mut [u8], q: Request, seat: Seat) -> Result<(), Refusal>
    requires { (well_formed table.old ≡ true) × (seat_at table.old q.ca ≡ Some seat) }
    ensures { Replies (registering q) table.old (placeless result) table.new }
{
    model::own_fault(true, q)?;
    let Err(at) = lookup::find(table, seat.first, seat.held, q.ioa as usize) else {
        return Err(Refusal::AlreadyRegistered);
    };
    room_at(table, seat.index)?;
    let point = model::point_of(q);
    insert::insert(table, q.ca as usize, point, seat.index, seat.held, at);
    Ok(())
}

// Registers one point: 3, then 11 to 15 and 17 in order, then 19 and 20; with 0 the point is in its place.
#[tactic(auto, using(lookup::proofs::Laws::seats_readable))]
pub fn register_point(table: &mut [u8], q: Request) -> Result<(), Refusal>
    ensures { Replies (registering q) table.old (placeless result) table.new }
{
    if !wellformed::well_formed(table) {
        return Err(Refusal::TableNotWellFormed);
    }
    let Some(seat) = lookup::seat_at(table, q.ca as usize) else {
        return model::own_fault(false, q);
    };
    register_here(table, q, seat)
}

// Removes one point: 3, then 18; with 0 its room is free at once.
#[tactic(auto, using(lookup::proofs::Laws::seats_readable, lookup::proofs::Laws::places_readable, crate::proofs::Unregister::out_bounds))]
pub fn unregister_point(table: &mut [u8], ca: u16, ioa: u32) -> Result<(), Refusal>
    ensures { Replies (unregistering ca ioa) table.old (placeless result) table.new }
{
    if !wellformed::well_formed(table) {
        return Err(Refusal::TableNotWellFormed);
    }
    let Some(seat) = lookup::seat_at(table, ca as usize) else {
        return Err(Refusal::NotRegistered);
    };
    let Ok(at) = lookup::find(table, seat.first, seat.held, ioa as usize) else {
        return Err(Refusal::NotRegistered);
    };
    remove::take_out(table, seat.index, seat.held, at);
    Ok(())
}

// Removes all points: 3, else their number; the plan stays.
pub fn unregister_all(table: &mut [u8]) -> Result<usize, Refusal>
    ensures { Replies unregistering_all table.old (numbered result) table.new }
{
    if !wellformed::well_formed(table) {
        return Err(Refusal::TableNotWellFormed);
    }
    Ok(remove::take_all_out(table))
}

// A station's reservation, ceiling and held, and what is free and unmet in the table: 3, then 12.
#[tactic(auto, using(lookup::proofs::Laws::seats_readable, lookup::proofs::Laws::seat_inside, crate::proofs::Unregister::share_no_table, crate::proofs::Unregister::share_absent, crate::proofs::Unregister::share_found))]
pub fn station_share(table: &[u8], ca: u16) -> Result<StationShare, Refusal>
    ensures { result ≡ share_on ca table.now }
{
    if !wellformed::well_formed(table) {
        return Err(Refusal::TableNotWellFormed);
    }
    let Some(seat) = lookup::seat_at(table, ca as usize) else {
        return Err(Refusal::StationNotPlanned);
    };
    Ok(share_here(table, seat.index))
}

// The share rule over a batch, as if its points were registered one by one: numbers 19 and 20. The table is only read.
#![tactic(auto)]

ghost use Rattle.std.specs.Prelude.{◌≡◌, ◌+◌, ◌≤◌, ◌<◌, length, replicate};
ghost use Rattle.layout.specs.Layout.{station_size, most_stations, stations_in, size_in};
ghost use Rattle.batch_records.specs.Records.{requests_in};
ghost use Rattle.replies.specs.Replies.{placed};
ghost use Rattle.table.specs.Memory.{table_of};
ghost use Rattle.batch_room.specs.Room.{share_with, standing_of, Turned, AllTurned, room_reply, TookIn};

use batch_records::RECORD_OCTETS;
use layout::{HEAD_SIZE, MOST_STATIONS, PLACE_SIZE};
use limits::outcome::Refusal;
use limits::share::Share;
use registry::Fault;

// What is free, and what is kept for all stations.
#[derive(Clone, Copy)]
pub struct Standing {
    pub free: usize,
    pub unmet: usize,
}

// The share rule asked once: what is free and kept with one point more, or a refusal.
#[tactic(auto, unfolding(crate::specs::Room::standing_of))]
fn ask(share: Share, now: Standing) -> Result<Standing, Refusal>
    ensures { result ≡ standing_of share now }
{
    share.admission(now.free, now.unmet)?;
    let more = share.take_in();
    let met = share.unmet().saturating_sub(more.unmet());
    Ok(Standing {
        free: now.free.saturating_sub(1),
        unmet: now.unmet.saturating_sub(met),
    })
}

// The share of the station whose octets lie from `at`, with `taken` points more than the table has.
#[tactic(auto, unfolding(crate::specs::Room::share_with))]
fn share_with(m: &[u8], at: usize, taken: u16) -> Share
    requires { at + station_size ≤ length m.now }
    ensures { (result ≡ share_with m.now at taken) × (result.ceiling < 65536) }
{
    let share = wellformed::share_at(m, at);
    Share {
        held: share.held + usize::from(taken),
        reservation: share.reservation,
        ceiling: share.ceiling,
    }
}

// The turn of a request of station `ca`; `taken` has what each station of the plan took in at the turns before.
#[tactic(auto, using(lookup::proofs::Laws::seat_inside, crate::proofs::Laws::admitted_is), unfolding(crate::specs::Room::share_with, crate::specs::Room::standing_at, crate::specs::Room::taken_at))]
fn turn(
    m: &[u8],
    taken: &mut [u16; MOST_STATIONS],
    ca: usize,
    now: Standing,
) -> Result<Standing, Refusal>
    requires { (stations_in m.now ≤ most_stations) × (size_in m.now ≤ length m.now) }
    ensures { Turned m.now taken.old ca now result taken.new }
{
    let seat = lookup::seat_at(m, ca).ok_or(Refusal::StationNotPlanned)?;
    let station = layout::station_at(m, seat.index);
    let share = share_with(m, station, taken[seat.index]);
    let after = ask(share, now)?;
    taken[seat.index] += 1;
    Ok(after)
}

// The turns of all records, from what is free and kept before the first.
#[tactic(auto, using(crate::proofs::Laws::run_start, crate::proofs::Laws::taken_start, crate::proofs::Laws::run_on_lem, crate::proofs::Laws::taken_on, crate::proofs::Laws::run_stop, crate::proofs::Laws::taken_stop, crate::proofs::Laws::run_end, crate::proofs::Laws::taken_end))]
fn turns(
    m: &[u8],
    records: &[u8],
    taken: &mut [u16; MOST_STATIONS],
    first: Standing,
) -> Result<(), Fault>
    requires { (stations_in m.now ≤ most_stations) × (size_in m.now ≤ length m.now) }
    ensures { AllTurned m.now taken.old first (requests_in records.now) (placed result) taken.new }
{
    let mut now = first;
    for i in 0..records.len() / RECORD_OCTETS {
        let ca = octets::number_at::<2>(records, RECORD_OCTETS * i);
        now = turn(m, taken, ca, now).map_err(|refusal| Fault { refusal, place: i })?;
    }
    Ok(())
}

// The share rule over a batch: done, or the first point that has no room. `taken`, which has nothing yet, tells what each station took in.
pub fn room_tests(m: &[u8], records: &[u8], taken: &mut [u16; MOST_STATIONS]) -> Result<(), Fault>
    requires { (stations_in m.now ≤ most_stations) × (size_in m.now ≤ length m.now) × (taken.old ≡ replicate most_stations 0) }
    ensures { (placed result ≡ room_reply (table_of m.now) (requests_in records.now)) × TookIn (table_of m.now) (requests_in records.now) taken.new }
{
    let k = layout::capacity_of(m);
    let n = layout::stations_of(m);
    let sums = wellformed::add_up(m, HEAD_SIZE + PLACE_SIZE * k, n);
    let first = Standing {
        free: k.saturating_sub(sums.held),
        unmet: sums.unmet,
    };
    turns(m, records, taken, first)
}

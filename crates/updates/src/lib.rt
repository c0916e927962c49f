// The updates of a process command: sized first, then stored and told, one after another. From `apply_model_updates` of `commands.rs`.
#![tactic(auto)]

ghost use Rattle.std.specs.Prelude.{◌≡◌, true, ◌+◌, ◌*◌, ◌≤◌, length};
ghost use Rattle.layout.specs.Layout.{value_offset, value_size};
ghost use Rattle.table.specs.Memory.{well_formed};
ghost use Rattle.answers.specs.Process.{update_octets, update_at};
ghost use Rattle.updates.specs.Updates.{UpdateIn, target_at, stored, most_told, told_one, told_by_all, left_one, left_by_all, Applies};

use asdu::cot;
use layout::VALUE_OFFSET;
use limits::size::{ADDRESS_OCTETS, HEADER_OCTETS};
use output::single;

// ---- the flat form of an update: CA 2, IOA 3, type 1, value 12

const UPDATE_IOA_OFFSET: usize = 2;

const UPDATE_TYPE_OFFSET: usize = 5;

const UPDATE_VALUE_OFFSET: usize = 6;

pub const UPDATE_OCTETS: usize = 18;

// ---- which point an update means

// The place of the point that the update at `at` means; none where its address is unknown or the point has another type.
#[tactic(auto, using(lookup::proofs::Laws::seats_readable, lookup::proofs::Laws::places_readable, crate::proofs::Meant::held_bounds), unfolding(crate::specs::Updates::target_at))]
fn can_apply_update(m: &[u8], updates: &[u8], at: usize) -> Option<usize>
    requires { UpdateIn m.now updates.now at }
    ensures { result ≡ target_at m.now (update_at updates.now at) }
{
    let ca = octets::number_at::<2>(updates, at);
    let ioa = octets::number_at::<3>(updates, at + UPDATE_IOA_OFFSET);
    let seat = lookup::seat_at(m, ca)?;
    let place = lookup::find(m, seat.first, seat.held, ioa).ok()?;
    if m[place] != updates[at + UPDATE_TYPE_OFFSET] {
        return None;
    }
    Some(place)
}

// ---- sizes

// The octets that the update at `at` tells: an ASDU of one object, or none.
#[tactic(auto, using(crate::proofs::Turns::skipped_told, crate::proofs::Turns::place_length))]
fn told_of(m: &[u8], updates: &[u8], at: usize) -> usize
    requires { UpdateIn m.now updates.now at }
    ensures { (result ≡ length (told_one m.now updates.now at)) × (result ≤ most_told) }
{
    match can_apply_update(m, updates, at) {
        Some(_) => HEADER_OCTETS
            + ADDRESS_OCTETS
            + limits::size::point_octets(updates[at + UPDATE_TYPE_OFFSET]),
        None => 0,
    }
}

// The octets that the first n updates will tell; nothing is written.
#[tactic(auto, using(crate::proofs::Turns::size_on, crate::proofs::Turns::size_end, crate::proofs::Turns::size_all))]
pub fn told_octets(m: &[u8], updates: &[u8], n: usize) -> usize
    requires { (well_formed m.now ≡ true) × (update_octets * n ≤ length updates.now) }
    ensures { result ≡ length (told_by_all m.now updates.now 0 n) }
{
    let mut sum = 0;
    for i in 0..n {
        sum += told_of(m, updates, UPDATE_OCTETS * i);
    }
    sum
}

// ---- storing and telling

// Stores the element of a value that lies in `updates` at `from`: past it a place is zero already.
#[tactic(auto, unfolding(crate::specs::Updates::stored))]
fn store(m: &mut [u8], place: usize, updates: &[u8], from: usize, kind: u8)
    requires { (place + (value_offset + value_size) ≤ length m.old) × (from + value_size ≤ length updates.now) }
    ensures { m.new ≡ stored m.old place kind updates.now from }
{
    let element = limits::size::point_octets(kind);
    octets::copy_part(updates, from, element, m, place + VALUE_OFFSET);
}

// Stores the update at `at` and tells it in `out` from `o` on, with its own CA and cause 3, and gives the place after; skipped, nothing is stored or told.
#[tactic(auto, using(crate::proofs::Turns::skipped_told, crate::proofs::Turns::skipped_left, crate::proofs::Turns::place_inside, crate::proofs::Turns::place_told, crate::proofs::Turns::over_none))]
fn apply_one(m: &mut [u8], updates: &[u8], at: usize, out: &mut [u8], o: usize) -> usize
    requires { UpdateIn m.old updates.now at × (o + length (told_one m.old updates.now at) ≤ length out.old) }
    ensures { Applies (left_one m.old updates.now at) (told_one m.old updates.now at) out.old o result m.new out.new }
{
    let Some(place) = can_apply_update(m, updates, at) else {
        return o;
    };
    let kind = updates[at + UPDATE_TYPE_OFFSET];
    let ca = octets::number_at::<2>(updates, at) as u16;
    store(m, place, updates, at + UPDATE_VALUE_OFFSET, kind);
    single::put_single(out, o, cot::SPONTANEOUS_DATA, ca, m, place)
}

// Stores the first n updates in their order, and tells them at the front of `out`, which has room for all.
#[tactic(auto, using(crate::proofs::Turns::going_room))]
pub fn apply_model_updates(m: &mut [u8], updates: &[u8], n: usize, out: &mut [u8]) -> usize
    requires { (well_formed m.old ≡ true) × (update_octets * n ≤ length updates.now) × (length (told_by_all m.old updates.now 0 n) ≤ length out.old) }
    ensures { Applies (left_by_all m.old updates.now 0 n) (told_by_all m.old updates.now 0 n) out.old 0 result m.new out.new }
{
    let mut o = 0;
    for i in 0..n {
        o = apply_one(m, updates, UPDATE_OCTETS * i, out, o);
    }
    o
}

// The C interface: every entry with plain numbers, octets and lent memory. DESIGN.md, section 5. No function requires anything of its arguments.
// The crate `khuvelter_c` exports them.
#![tactic(auto)]

ghost use Rattle.std.specs.Prelude.{◌≡◌, []};
ghost use Rattle.registry.specs.Registry.{share_on};
ghost use Rattle.answers.specs.Said.{answered, lent};
ghost use Rattle.replies.specs.Replies.{numbered, placed};
ghost use Rattle.system_command_handler.specs.Handler.{at_entry, at_exit};
ghost use Rattle.commands.specs.Entry.{as_found, as_left};
ghost use Rattle.khuvelter.specs.Interface.{is_set, narrowed, plain_reply, place_reply, answer_reply, flat_share};
ghost use Rattle.khuvelter.specs.Calls.{table_alone, Meets};
ghost use Rattle.khuvelter.specs.Calls.Change.{register_point, register_points, unregister_point, unregister_all};
ghost use Rattle.khuvelter.specs.Calls.Question.{connection_started, system, process};
ghost use Rattle.khuvelter.specs.Calls.Call.{open_table, change, ask};

use answers::Written;
use limits::outcome;
use limits::outcome::Refusal;
use registry::{Fault, StationShare};

// What every call gives back: document 01's number; the place of the faulty point of a refused batch, or the number of points removed by
// `khuvelter_unregister_all`, else 0; the octets written to the answer and to the spontaneous memory, 0 unless the number is 0.
#[repr(C)]
#[derive(Clone, Copy)]
pub struct Reply {
    pub number: u32,
    pub place: u32,
    pub octets: u32,
    pub spontaneous: u32,
}

// A station's share: 3, 12 or 0; its reservation, ceiling and held; what is free and unmet in the table.
#[repr(C)]
#[derive(Clone, Copy)]
pub struct Share {
    pub number: u32,
    pub reservation: u32,
    pub ceiling: u32,
    pub held: u32,
    pub free: u32,
    pub unmet: u32,
}

// ---- answers in plain numbers

// A number in 32 bits: C gets the low ones, as `narrowed` says, where `try_from` would refuse.
fn narrow(n: usize) -> u32
    ensures { result ≡ narrowed n }
{
    (n % 4294967296) as u32
}

// An outcome alone.
fn plain_reply(outcome: Result<(), Refusal>) -> Reply
    ensures { result ≡ plain_reply outcome }
{
    Reply {
        number: outcome::number_of(outcome),
        place: 0,
        octets: 0,
        spontaneous: 0,
    }
}

// A number of points, or a refusal.
fn number_reply(removed: Result<usize, Refusal>) -> Reply
    ensures { result ≡ place_reply (numbered removed) }
{
    match removed {
        Ok(n) => Reply {
            place: narrow(n),
            ..plain_reply(Ok(()))
        },
        Err(refusal) => plain_reply(Err(refusal)),
    }
}

// The answer to a batch: a refusal names the place of the faulty point.
fn place_reply(batch: Result<(), Fault>) -> Reply
    ensures { result ≡ place_reply (placed batch) }
{
    match batch {
        Ok(_) => plain_reply(Ok(())),
        Err(fault) => Reply {
            place: narrow(fault.place),
            ..plain_reply(Err(fault.refusal))
        },
    }
}

// The answer of a call that writes octets.
fn answer_reply(written: Result<Written, Refusal>) -> Reply
    ensures { result ≡ answer_reply (answered written) }
{
    match written {
        Ok(w) => Reply {
            octets: narrow(w.octets),
            spontaneous: narrow(w.spontaneous),
            ..plain_reply(Ok(()))
        },
        Err(unanswered) => plain_reply(Err(unanswered)),
    }
}

// A station's share.
fn flat_share(share: Result<StationShare, Refusal>) -> Share
    ensures { result ≡ flat_share share }
{
    match share {
        Ok(s) => Share {
            number: 0,
            reservation: narrow(s.share.reservation),
            ceiling: narrow(s.share.ceiling),
            held: narrow(s.share.held),
            free: narrow(s.free),
            unmet: narrow(s.unmet),
        },
        Err(refusal) => Share {
            number: refusal.number(),
            reservation: 0,
            ceiling: 0,
            held: 0,
            free: 0,
            unmet: 0,
        },
    }
}

// ---- the entries

// Opens a table of capacity K under a plan, CA, reservation and ceiling for each station: 10, or 0 and the fresh table.
pub fn khuvelter_open(table: &mut [u8], capacity: u32, plan: &[u16]) -> Reply
    ensures { Meets (open_table capacity plan.now) (table_alone table.old) result (table_alone table.new) }
{
    plain_reply(opening::open(table, capacity, plan))
}

// Registers one point, given as a record of 24 octets: 3, then 11 to 15 and 17, then 19 and 20.
pub fn khuvelter_register_point(table: &mut [u8], record: &[u8; 24]) -> Reply
    ensures { Meets (change (register_point «record».now)) (table_alone table.old) result (table_alone table.new) }
{
    let request = model::request_at(record, 0);
    plain_reply(actor::register_point(table, request))
}

// Registers a batch of points, given as records of 24 octets one after another: all or none; octets after the last whole record are ignored.
pub fn khuvelter_register_points(table: &mut [u8], records: &[u8]) -> Reply
    ensures { Meets (change (register_points records.now)) (table_alone table.old) result (table_alone table.new) }
{
    place_reply(batch::register_points(table, records))
}

// Removes one point: 3, then 18.
pub fn khuvelter_unregister_point(table: &mut [u8], ca: u16, ioa: u32) -> Reply
    ensures { Meets (change (unregister_point ca ioa)) (table_alone table.old) result (table_alone table.new) }
{
    plain_reply(actor::unregister_point(table, ca, ioa))
}

// Removes all points: 3, else their number as the place; the plan stays.
pub fn khuvelter_unregister_all(table: &mut [u8]) -> Reply
    ensures { Meets (change unregister_all) (table_alone table.old) result (table_alone table.new) }
{
    number_reply(actor::unregister_all(table))
}

// The start of a connection: 3, then 4, else the end of initialisation.
pub fn khuvelter_connection_started(table: &[u8], answer: &mut [u8]) -> Reply
    ensures { Meets (ask connection_started) (lent table.now [] answer.old []) result (lent table.now [] answer.new []) }
{
    answer_reply(connection_start::connection_started(table, answer))
}

// The share of a station: 3, then 12.
pub fn khuvelter_share(table: &[u8], ca: u16) -> Share
    ensures { result ≡ flat_share (share_on ca table.now) }
{
    flat_share(actor::station_share(table, ca))
}

// A system command: interrogation, counters, read, clock, tests, reset process. `clock` is seven octets of time and the known flag.
pub fn khuvelter_system_command(
    table: &mut [u8],
    clock: &mut [u8; 8],
    asdu: &[u8],
    answer: &mut [u8],
) -> Reply
    ensures { Meets (ask (system asdu.now)) (at_entry table clock.old answer) result (at_exit table clock.new answer) }
{
    answer_reply(system_command_handler::system_command(table, clock, asdu, answer))
}

// A process command with the caller's proposal; `negative` is 0 for no, anything else for yes: an octet, since the C interface has it so.
pub fn khuvelter_process_command(
    table: &mut [u8],
    asdu: &[u8],
    negative: u8,
    reply_type: u8,
    reply: &[u8],
    updates: &[u8],
    answer: &mut [u8],
    spontaneous: &mut [u8],
) -> Reply
    ensures { Meets (ask (process asdu.now negative reply_type reply.now updates.now)) (as_found table answer spontaneous) result (as_left table answer spontaneous) }
{
    answer_reply(commands::process_command(
        table,
        asdu,
        is_set(negative),
        reply_type,
        reply,
        updates,
        answer,
        spontaneous,
    ))
}

// A flag octet: 0 for no, anything else for yes.
fn is_set(flag: u8) -> bool
    ensures { result ≡ is_set flag }
{
    flag != 0
}

// The C interface as a static library, libkhuvelter.a: every export is the entry of the crate `khuvelter` that has its name, with the same clauses.
// From C or Rust each slice is two arguments, a pointer and a length. No function requires anything of its arguments.
#![tactic(auto)]

ghost use Rattle.std.specs.Prelude.{◌≡◌, []};
ghost use Rattle.registry.specs.Registry.{share_on};
ghost use Rattle.answers.specs.Said.{lent};
ghost use Rattle.system_command_handler.specs.Handler.{at_entry, at_exit};
ghost use Rattle.commands.specs.Entry.{as_found, as_left};
ghost use Rattle.khuvelter.specs.Interface.{flat_share};
ghost use Rattle.khuvelter.specs.Calls.{table_alone, Meets};
ghost use Rattle.khuvelter.specs.Calls.Change.{register_point, register_points, unregister_point, unregister_all};
ghost use Rattle.khuvelter.specs.Calls.Question.{connection_started, system, process};
ghost use Rattle.khuvelter.specs.Calls.Call.{open_table, change, ask};

use khuvelter::{Reply, Share};

// Opens a table of capacity K under a plan, CA, reservation and ceiling for each station: 10, or 0 and the fresh table.
#[unsafe(no_mangle)]
pub extern "C" fn khuvelter_open(table: &mut [u8], capacity: u32, plan: &[u16]) -> Reply
    ensures { Meets (open_table capacity plan.now) (table_alone table.old) result (table_alone table.new) }
{
    khuvelter::khuvelter_open(table, capacity, plan)
}

// Registers one point, given as a record of 24 octets: 3, then 11 to 15 and 17, then 19 and 20.
#[unsafe(no_mangle)]
pub extern "C" fn khuvelter_register_point(table: &mut [u8], record: &[u8; 24]) -> Reply
    ensures { Meets (change (register_point «record».now)) (table_alone table.old) result (table_alone table.new) }
{
    khuvelter::khuvelter_register_point(table, record)
}

// Registers a batch of points, given as records of 24 octets one after another: all or none; octets after the last whole record are ignored.
#[unsafe(no_mangle)]
pub extern "C" fn khuvelter_register_points(table: &mut [u8], records: &[u8]) -> Reply
    ensures { Meets (change (register_points records.now)) (table_alone table.old) result (table_alone table.new) }
{
    khuvelter::khuvelter_register_points(table, records)
}

// Removes one point: 3, then 18.
#[unsafe(no_mangle)]
pub extern "C" fn khuvelter_unregister_point(table: &mut [u8], ca: u16, ioa: u32) -> Reply
    ensures { Meets (change (unregister_point ca ioa)) (table_alone table.old) result (table_alone table.new) }
{
    khuvelter::khuvelter_unregister_point(table, ca, ioa)
}

// Removes all points: 3, else their number as the place; the plan stays.
#[unsafe(no_mangle)]
pub extern "C" fn khuvelter_unregister_all(table: &mut [u8]) -> Reply
    ensures { Meets (change unregister_all) (table_alone table.old) result (table_alone table.new) }
{
    khuvelter::khuvelter_unregister_all(table)
}

// The start of a connection: 3, then 4, else the end of initialisation.
#[unsafe(no_mangle)]
pub extern "C" fn khuvelter_connection_started(table: &[u8], answer: &mut [u8]) -> Reply
    ensures { Meets (ask connection_started) (lent table.now [] answer.old []) result (lent table.now [] answer.new []) }
{
    khuvelter::khuvelter_connection_started(table, answer)
}

// The share of a station: 3, then 12.
#[unsafe(no_mangle)]
pub extern "C" fn khuvelter_share(table: &[u8], ca: u16) -> Share
    ensures { result ≡ flat_share (share_on ca table.now) }
{
    khuvelter::khuvelter_share(table, ca)
}

// A system command: interrogation, counters, read, clock, tests, reset process. `clock` is seven octets of time and the known flag.
#[unsafe(no_mangle)]
pub extern "C" fn khuvelter_system_command(
    table: &mut [u8],
    clock: &mut [u8; 8],
    asdu: &[u8],
    answer: &mut [u8],
) -> Reply
    ensures { Meets (ask (system asdu.now)) (at_entry table clock.old answer) result (at_exit table clock.new answer) }
{
    khuvelter::khuvelter_system_command(table, clock, asdu, answer)
}

// A process command with the caller's proposal; `negative` is 0 for no, anything else for yes.
#[unsafe(no_mangle)]
pub extern "C" fn khuvelter_process_command(
    table: &mut [u8],
    asdu: &[u8],
    negative: u8,
    reply_type: u8,
    reply: &[u8],
    updates: &[u8],
    answer: &mut [u8],
    spontaneous: &mut [u8],
) -> Reply
    ensures { Meets (ask (process asdu.now negative reply_type reply.now updates.now)) (as_found table answer spontaneous) result (as_left table answer spontaneous) }
{
    khuvelter::khuvelter_process_command(
        table,
        asdu,
        negative,
        reply_type,
        reply,
        updates,
        answer,
        spontaneous,
    )
}

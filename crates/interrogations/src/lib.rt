// Interrogation and counter interrogation: which points a command asks for, the answer to it, and the reset of counters. From `handle_interrogation`
// of `actor.rs`, `handle_counter_interrogation` of `system_command_handler.rs`, `interrogation_data_cot` and `counter_interrogation_data_cot` of `output.rs`.
#![tactic(auto)]

ghost use Rattle.std.specs.Prelude.{◌≡◌, true, ◌<◌, length, is_ok};
ghost use Rattle.limits.specs.Test.{pick};
ghost use Rattle.table.specs.Memory.{well_formed, table_of};
ghost use Rattle.asdu.specs.Command.{first_element};
ghost use Rattle.output.specs.Data.{TypesOk};
ghost use Rattle.answers.specs.Said.{answered, Sends, with_table};
ghost use Rattle.answers.specs.System.{qualifier_of, interrogated, choice_of, chosen, counter_cause, resets, reset_by, answer_to, interrogation_answer, counter_answer, after_counters};
ghost use Rattle.interrogations.specs.Interrogations.{CauseOf};

use answers::Written;
use asdu::asked::Confirmable;
use asdu::command::Command;
use asdu::cot;
use limits::outcome::Refusal;
use limits::size::{ADDRESS_OCTETS, HEADER_OCTETS};
use model::{M_IT_NA_1, M_IT_TB_1};
use report::Selection;

// ---- what a qualifier asks for

// The qualifier octet of the first object.
pub fn qualifier_of(asdu: &[u8]) -> u8
    requires { first_element < length asdu.now }
    ensures { result ≡ qualifier_of asdu.now }
{
    asdu[HEADER_OCTETS + ADDRESS_OCTETS]
}

// An interrogation's: 20 selects all points, 21 to 36 those of group 1 to 16.
#[tactic(auto, using(crate::proofs::Laws::asks_all, crate::proofs::Laws::asks_none_below, crate::proofs::Laws::asks_none_above, crate::proofs::Laws::asks_group))]
fn interrogated(qualifier: u8) -> Option<Selection>
    ensures { result ≡ interrogated qualifier }
{
    if qualifier == cot::INTERROGATION_GENERAL {
        return Some(Selection::Every);
    }
    if qualifier < 21 {
        return None;
    }
    if 36 < qualifier {
        return None;
    }
    Some(Selection::Group(qualifier - cot::INTERROGATION_GENERAL))
}

// Bits 0 to 5 of a counter interrogation's qualifier.
fn choice_of(qualifier: u8) -> u8
    ensures { result ≡ choice_of qualifier }
{
    qualifier % 64
}

// They choose: 5 all counters, 1 to 4 a group. One function for this and `interrogated` would take three numbers and the case, and be no plainer.
fn chosen(qualifier: u8) -> Option<Selection>
    ensures { result ≡ chosen qualifier }
{
    let choice = choice_of(qualifier);
    if choice == 5 {
        return Some(Selection::Every);
    }
    if choice < 1 {
        return None;
    }
    if 4 < choice {
        return None;
    }
    Some(Selection::CounterGroup(choice))
}

// The cause of its data: 37 for all, 37 + group for a group.
fn counter_interrogation_data_cot(qualifier: u8) -> u8
    ensures { result ≡ counter_cause qualifier }
{
    let choice = choice_of(qualifier);
    if choice == 5 {
        return cot::COUNTER_INTERROGATION_GENERAL;
    }
    cot::COUNTER_INTERROGATION_GENERAL + choice
}

// ---- the answer

// What a choice is answered by: its report, or one negative confirmation.
fn answer_to(
    answer: &mut [u8],
    table: &[u8],
    types: &[u8],
    cause: u8,
    choice: Option<Selection>,
    first: Confirmable,
) -> Result<Written, Refusal>
    requires { (well_formed table.now ≡ true) × TypesOk types.now × CauseOf choice cause }
    ensures { Sends (answer_to (table_of table.now) first.entry.command first.entry.asdu.now types.now cause choice) answer.old (answered result) answer.new }
{
    let Some(selection) = choice else {
        return confirming::deny(answer, first);
    };
    confirming::report(answer, table, types, cause, selection, first)
}

// The answer to an interrogation.
pub fn handle_interrogation(
    answer: &mut [u8],
    table: &[u8],
    first: Confirmable,
) -> Result<Written, Refusal>
    requires { (well_formed table.now ≡ true) × (first_element < length first.asdu.now) }
    ensures { Sends (interrogation_answer first.entry.command first.entry.asdu.now (table_of table.now)) answer.old (answered result) answer.new }
{
    let types = settings::interrogation_types_of(table);
    let qualifier = qualifier_of(first.asdu);
    answer_to(
        answer,
        table,
        &types,
        qualifier,
        interrogated(qualifier),
        first,
    )
}

// ---- counters

// Actions 2 and 3 of a counter interrogation set what was reported to 0; 0 and 1, and a choice that was denied, change nothing.
fn apply_counter_freeze_qualifier(
    table: &mut [u8],
    ca: u16,
    choice: Option<Selection>,
    qualifier: u8,
)
    requires { well_formed table.old ≡ true }
    ensures { table.new ≡ with_table (λ t. pick (resets qualifier) (reset_by t ca choice) t) table.old }
{
    if qualifier / 64 < 2 {
        return;
    }
    let Some(selection) = choice else {
        return;
    };
    let reach = output::reach::reach_of(table, ca);
    resets::reset(table, reach.base, reach.n, selection);
}

// The answer to a counter interrogation, which shows the values before a reset; then the reset, if the answer was given.
pub fn handle_counter_interrogation(
    table: &mut [u8],
    answer: &mut [u8],
    first: Confirmable,
) -> Result<Written, Refusal>
    requires { (well_formed table.old ≡ true) × (first_element < length first.asdu.now) }
    ensures sends { Sends (counter_answer first.entry.command first.entry.asdu.now (table_of table.old)) answer.old (answered result) answer.new }
    ensures table_after { table.new ≡ pick (is_ok result) (with_table (λ t. after_counters t first.entry.command.ca (qualifier_of first.entry.asdu.now)) table.old) table.old }
{
    let types = [M_IT_NA_1, M_IT_TB_1];
    let qualifier = qualifier_of(first.asdu);
    let choice = chosen(qualifier);
    let cause = counter_interrogation_data_cot(qualifier);
    let written = answer_to(answer, table, &types, cause, choice, first)?;
    apply_counter_freeze_qualifier(table, first.command.ca, choice, qualifier);
    Ok(written)
}

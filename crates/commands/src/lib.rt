// Process commands: a caller's proposal, its updates, the confirmation. From `commands.rs`; the async handler has become the proposal.
#![tactic(auto)]

ghost use Rattle.std.specs.Prelude.{◌≡◌, [], true, ◌+◌, ◌*◌, ◌/◌, ◌≤◌, ◌<◌, length, Ok};
ghost use Rattle.limits.specs.Test.{pick};
ghost use Rattle.limits.specs.Size.{class_of, control_octets, header_octets};
ghost use Rattle.table.specs.Memory.{well_formed};
ghost use Rattle.asdu.specs.Command.{is_process};
ghost use Rattle.asdu.specs.Header.{asdu_octets};
ghost use Rattle.asdu.specs.Puts.{Puts};
ghost use Rattle.answers.specs.Said.{answered, Leaves, as_it_is};
ghost use Rattle.answers.specs.Process.{update_octets, proposal_ok, process_cause_taken, confirmation_cause, process_reply, process_from, process_said};
ghost use Rattle.commands.specs.Entry.{proposal_of, proposed, WholeReply, as_found, as_left};

use answers::Written;
use asdu::command::{Command, Entry};
use asdu::cot;
use limits::outcome::Refusal;
use limits::size::{ADDRESS_OCTETS, BEFORE_OBJECTS, Class, HEADER_OCTETS};
use updates::UPDATE_OCTETS;

// ---- tests

// Are these causes of a command that is taken: request, activation, deactivation?
fn is_command_cot(cause: u8) -> bool
    ensures { result ≡ process_cause_taken cause }
{
    cause == cot::REQUEST || cause == cot::ACTIVATION || cause == cot::DEACTIVATION
}

// Is the type a process command's?
fn is_supported_command_type(kind: u8) -> bool
    ensures { result ≡ is_process (class_of kind) }
{
    limits::size::class_of(kind) == Some(Class::Process)
}

// Is the proposed reply of a process type, and its objects whole and not too many for the length limit?
fn is_proposal(limit: usize, kind: u8, reply: &[u8]) -> bool
    requires { control_octets + header_octets ≤ limit }
    ensures { result ≡ proposal_ok limit kind reply.now }
{
    if !is_supported_command_type(kind) {
        return false;
    }
    if limit - BEFORE_OBJECTS < reply.len() {
        return false;
    }
    let element = limits::size::element_octets(kind);
    reply.len() % (ADDRESS_OCTETS + element) == 0
}

// How many updates are read: none of a negative proposal.
fn updates_read(negative: bool, updates: &[u8]) -> usize
    ensures { (result ≡ pick negative 0 (length updates.now / update_octets)) × (update_octets * result ≤ length updates.now) }
{
    if negative {
        return 0;
    }
    updates.len() / UPDATE_OCTETS
}

// ---- the confirmation

// The cause of the confirmation: of a deactivation its own.
fn command_reply_cot(cause: u8) -> u8
    ensures { (result ≡ confirmation_cause cause) × (result < 64) }
{
    if cause == cot::DEACTIVATION {
        return cot::DEACTIVATION_CONFIRMATION;
    }
    cot::ACTIVATION_CONFIRMATION
}

// Writes the confirmation at the front of `answer`.
fn send_command_confirmation(
    answer: &mut [u8],
    command: Command,
    negative: bool,
    kind: u8,
    reply: &[u8],
) -> usize
    requires { WholeReply kind reply.now × (length reply.now < 256) × (header_octets + length reply.now ≤ length answer.old) }
    ensures { Puts (asdu_octets (process_reply command (proposal_of negative kind reply.now []))) answer.old result answer.new }
{
    let element = limits::size::element_octets(kind);
    let count = (reply.len() / (ADDRESS_OCTETS + element)) as u8;
    let cause = command_reply_cot(command.cause);
    asdu::confirmation::put_reply(answer, command, kind, count, cause, negative, reply)
}

// ---- the command

// Answers a command that was read: 1, 6, 5, 4, each known before anything is written; else the updates are stored and told, and the command confirmed.
fn handle_process_command(
    table: &mut [u8],
    command: Command,
    negative: bool,
    reply_type: u8,
    reply: &[u8],
    updates: &[u8],
    answer: &mut [u8],
    spontaneous: &mut [u8],
) -> Result<Written, Refusal>
    requires { well_formed table.old ≡ true }
    ensures { Leaves as_it_is (process_from [] (proposed negative reply_type reply updates) (Ok command)) (as_found table answer spontaneous) (answered result) (as_left table answer spontaneous) }
{
    if !is_command_cot(command.cause) {
        return Err(Refusal::Silent);
    }
    if !is_proposal(settings::limit_of(table), reply_type, reply) {
        return Err(Refusal::BadProposal);
    }
    let n = updates_read(negative, updates);
    let told = updates::told_octets(table, updates, n);
    if spontaneous.len() < told {
        return Err(Refusal::SpontaneousShort);
    }
    if answer.len() < HEADER_OCTETS + reply.len() {
        return Err(Refusal::AnswerShort);
    }
    updates::apply_model_updates(table, updates, n, spontaneous);
    let octets = send_command_confirmation(answer, command, negative, reply_type, reply);
    Ok(Written {
        octets,
        spontaneous: told,
    })
}

// The entry for process commands: a caller's proposal has a negative flag, a reply type, reply objects and updates.
pub fn process_command(
    table: &mut [u8],
    asdu: &[u8],
    negative: bool,
    reply_type: u8,
    reply: &[u8],
    updates: &[u8],
    answer: &mut [u8],
    spontaneous: &mut [u8],
) -> Result<Written, Refusal>
    ensures { Leaves as_it_is (process_said [] (proposed negative reply_type reply updates) asdu.now) (as_found table answer spontaneous) (answered result) (as_left table answer spontaneous) }
{
    if !wellformed::well_formed(table) {
        return Err(Refusal::TableNotWellFormed);
    }
    let limit = settings::limit_of(table);
    let command = asdu::command::parse(asdu, Entry::ProcessCommands, limit)?;
    handle_process_command(
        table,
        command,
        negative,
        reply_type,
        reply,
        updates,
        answer,
        spontaneous,
    )
}

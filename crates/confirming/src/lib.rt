// Answers that are written whole if they fit and not at all if they do not: a negative confirmation alone, the echo of all objects, and data
// between confirmation and termination. From `send_command_confirmation` of `commands.rs` and `handle_interrogation` of `actor.rs`.
#![tactic(auto)]

ghost use Rattle.std.specs.Prelude.{◌≡◌, true, [], ◌∷◌, ◌+◌, ◌≤◌, ◌<◌, length};
ghost use Rattle.octets.specs.Over.{over};
ghost use Rattle.table.specs.Memory.{well_formed, table_of};
ghost use Rattle.asdu.specs.Header.{asdu_octets};
ghost use Rattle.asdu.specs.Command.{first_element};
ghost use Rattle.output.specs.Data.{TypesOk};
ghost use Rattle.answers.specs.Said.{answered, Sends};
ghost use Rattle.answers.specs.System.{denied, terminated, echoed, reported};

use answers::Written;
use asdu::asked::{Asked, Confirmable};
use asdu::{confirmation, cot};
use limits::outcome::Refusal;
use limits::size::{ADDRESS_OCTETS, HEADER_OCTETS};
use report::{Selection, Terms};

// One negative confirmation with the first object alone.
pub fn deny(answer: &mut [u8], first: Confirmable) -> Result<Written, Refusal>
    ensures { Sends (denied first.entry.command first.entry.asdu.now ∷ []) answer.old (answered result) answer.new }
{
    if answer.len() < HEADER_OCTETS + ADDRESS_OCTETS + first.command.element {
        return Err(Refusal::AnswerShort);
    }
    Written::given(confirmation::put_confirmation(
        answer,
        first,
        cot::ACTIVATION_CONFIRMATION,
        true,
    ))
}

// The confirmation that echoes all objects.
pub fn echo(answer: &mut [u8], asked: Asked, negative: bool) -> Result<Written, Refusal>
    ensures { Sends (echoed asked.entry.command asked.entry.asdu.now negative ∷ []) answer.old (answered result) answer.new }
{
    if answer.len() < asked.asdu.len() {
        return Err(Refusal::AnswerShort);
    }
    Written::given(confirmation::put_echo(answer, asked, cot::ACTIVATION_CONFIRMATION, negative))
}

// Writes a termination into what remains of the answer memory from `at`.
fn put_termination(answer: &mut [u8], at: usize, first: Confirmable)
    requires { at + (first_element + first.command.element) ≤ length answer.old }
    ensures { answer.new ≡ over answer.old at (asdu_octets (terminated first.entry.command first.entry.asdu.now)) }
{
    confirmation::put_confirmation(&mut answer[at..], first, cot::ACTIVATION_TERMINATION, false);
}

// Data between confirmation and termination: the selected points that the command's CA speaks of.
pub fn report(
    answer: &mut [u8],
    table: &[u8],
    types: &[u8],
    cause: u8,
    selection: Selection,
    first: Confirmable,
) -> Result<Written, Refusal>
    requires { (well_formed table.now ≡ true) × TypesOk types.now × (cause < 64) }
    ensures { Sends (reported (table_of table.now) first.entry.command first.entry.asdu.now types.now cause selection) answer.old (answered result) answer.new }
{
    let command = first.command;
    let limit = settings::limit_of(table);
    let reach = output::reach::reach_of(table, command.ca);
    let before = HEADER_OCTETS + ADDRESS_OCTETS + command.element;
    let terms = Terms {
        limit,
        cause,
        ca: command.ca,
    };
    let Some(octets) = output::data::put_data(
        answer, before, before, table, reach, selection, types, terms,
    ) else {
        return Err(Refusal::AnswerShort);
    };
    confirmation::put_confirmation(answer, first, cot::ACTIVATION_CONFIRMATION, false);
    put_termination(answer, before + octets, first);
    Written::given(before + (octets + before))
}

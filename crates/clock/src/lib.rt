// The last master clock as a record that is lent and changed in place, and the entry for system commands that takes it so.
#![tactic(auto)]

ghost use Rattle.std.specs.Prelude.{◌≡◌, length};
ghost use Rattle.answers.specs.Said.{answered};
ghost use Rattle.clock.specs.Clock.{clock_of, fresh_clock, with_flag, Answers};

use answers::Written;
use limits::outcome::Refusal;

// The last master clock: seven octets of time, and whether one was received. The contract of `system_command` fixes the octets of a clock that is not
// known too, so it is no Option.
#[derive(Clone, Copy)]
pub struct Clock {
    pub octets: [u8; 7],
    pub known: bool,
}

// What a command gives back, and the clock after it.
#[derive(Clone, Copy)]
pub struct Told {
    pub answered: Result<Written, Refusal>,
    pub clock: Clock,
}

// A fresh clock: seven zeros, not known.
pub fn fresh_clock() -> Clock
    ensures { result ≡ fresh_clock }
{
    Clock {
        octets: [0, 0, 0, 0, 0, 0, 0],
        known: false,
    }
}

// Time and flag as eight octets.
pub fn octets_of(time: [u8; 7], known: bool) -> [u8; 8]
    ensures { (result ≡ with_flag time known) × (length result ≡ 8) }
{
    let mut flat = [u8::from(known); 8];
    flat[..7].copy_from_slice(&time);
    flat
}

// The clock of eight octets.
pub fn clock_of(flat: [u8; 8]) -> Clock
    ensures { (result ≡ clock_of flat) × (length flat ≡ 8) }
{
    let mut octets = [0; 7];
    octets.copy_from_slice(&flat[..7]);
    Clock {
        octets,
        known: flat[7] != 0,
    }
}

// The entry with the clock by value: all tests and the answer.
pub fn answer_command(table: &mut [u8], clock: Clock, asdu: &[u8], answer: &mut [u8]) -> Told
    ensures { Answers asdu.now table clock answer (answered result.answered) result.clock }
{
    let mut flat = octets_of(clock.octets, clock.known);
    let answered = system_command_handler::system_command(table, &mut flat, asdu, answer);
    Told {
        answered,
        clock: clock_of(flat),
    }
}

// The entry for system commands, the clock lent: after every test the first object's time of an accepted clock command is stored, else the clock stays as it was.
pub fn system_command(
    table: &mut [u8],
    clock: &mut Clock,
    asdu: &[u8],
    answer: &mut [u8],
) -> Result<Written, Refusal>
    ensures { Answers asdu.now table clock.old answer (answered result) clock.new }
{
    let told = answer_command(table, *clock, asdu, answer);
    *clock = told.clock;
    told.answered
}

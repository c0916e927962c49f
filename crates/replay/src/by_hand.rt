// The two forms over records, in the same way as the calls of the C interface, whose names their lines have: a batch as a slice of point
// records, a system command with the clock lent as a record.
use crate::command_calls::{ASDU_ROOM, asdu_in};
use crate::reply::Replay;
use answers::Written;
use khuvelter::Reply;
use limits::outcome;
use limits::outcome::Refusal;
use registry::Fault;
use script::series::RECORD;
use std::io;
use std::io::Write;

// Octets of three records.
const THREE_RECORDS: usize = 3 * RECORD;

// A number in 32 bits, as the C interface gives it; written once more, since a program compares with the library here.
fn narrow(n: usize) -> u32 {
    (n % 4294967296) as u32
}

// The reply to a batch: a refusal names the place of the faulty point.
fn batch_reply(batch: Result<(), Fault>) -> Reply {
    Reply {
        number: outcome::number_of(batch.map_err(|fault| fault.refusal)),
        place: batch.err().map_or(0, |fault| narrow(fault.place)),
        octets: 0,
        spontaneous: 0,
    }
}

// The reply to a system command, which tells nothing spontaneously.
fn command_reply(answered: Result<Written, Refusal>) -> Reply {
    Reply {
        number: outcome::number_of(answered.map(|_| ())),
        place: 0,
        octets: answered.map_or(0, |written| narrow(written.octets)),
        spontaneous: 0,
    }
}

// Registers the batch of none, one or three flat records as a slice of point records.
fn register(table: &mut [u8], records: &[u8]) -> Result<(), Fault> {
    match records.len() {
        RECORD => forms::register_batch(table, [model::request_at(records, 0)]),
        THREE_RECORDS => {
            let first = model::request_at(records, 0);
            let second = model::request_at(records, RECORD);
            let third = model::request_at(records, 2 * RECORD);
            forms::register_batch(table, [first, second, third])
        }
        _ => forms::register_batch(table, []),
    }
}

impl<'a, W: Write> Replay<'a, W> {
    // Register a batch.
    pub fn batch_of_records(&mut self) -> io::Result<()> {
        let length = self.script.length_in_four();
        let records = self.script.part(length);
        let batch = register(self.memories.table.lent_mut(), records);
        self.print("batch", batch_reply(batch))
    }

    // A system command.
    pub fn system_on_record(&mut self) -> io::Result<()> {
        let mut room = [0u8; ASDU_ROOM];
        let asdu = asdu_in(&mut self.script, &mut room);
        let memories = &mut self.memories;
        let before = clock::clock_of(memories.clock);
        let table = memories.table.lent_mut();
        let answer = memories.answer.lent_mut();
        let told = forms::system_command(table, before, asdu, answer);
        let after = told.clock;
        let time = after.octets;
        memories.clock = clock::octets_of(time, after.known);
        self.print("system", command_reply(told.answered))
    }
}

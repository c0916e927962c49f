// Start of a connection and commands, in the same way as the calls on the table.
use crate::reply::Replay;
use script::memory::{copy_in, first};
use script::reading::Script;
use std::io::{Result, Write};

// What the array of an ASDU has room for.
pub const ASDU_ROOM: usize = 512;

// Reads the octets of an ASDU: those given in the script, then zeros, and none at all where they have no room.
pub fn asdu_in<'a>(script: &mut Script<'_>, room: &'a mut [u8; ASDU_ROOM]) -> &'a [u8] {
    let length = script.length_in_two();
    let given = script.length_in_two();
    copy_in(script.part(given), room);
    first(room, length)
}

impl<'a, W: Write> Replay<'a, W> {
    // Start of a connection.
    pub fn started(&mut self) -> Result<()> {
        let memories = &mut self.memories;
        let table = memories.table.lent();
        let answer = memories.answer.lent_mut();
        let reply = khuvelter::khuvelter_connection_started(table, answer);
        self.print("started", reply)
    }

    // A system command.
    pub fn system(&mut self) -> Result<()> {
        let mut room = [0u8; ASDU_ROOM];
        let asdu = asdu_in(&mut self.script, &mut room);
        let memories = &mut self.memories;
        let table = memories.table.lent_mut();
        let clock = &mut memories.clock;
        let answer = memories.answer.lent_mut();
        let reply = khuvelter::khuvelter_system_command(table, clock, asdu, answer);
        self.print("system", reply)
    }

    // A process command with its proposal.
    pub fn process(&mut self) -> Result<()> {
        let mut room = [0u8; ASDU_ROOM];
        let asdu = asdu_in(&mut self.script, &mut room);
        let negative = self.script.octet();
        let reply_type = self.script.octet();
        let octets = self.script.length_in_two();
        let proposed = self.script.part(octets);
        let length = self.script.length_in_four();
        let updates = self.script.part(length);
        let memories = &mut self.memories;
        let table = memories.table.lent_mut();
        let answer = memories.answer.lent_mut();
        let spontaneous = memories.spontaneous.lent_mut();
        let reply = khuvelter::khuvelter_process_command(
            table,
            asdu,
            negative,
            reply_type,
            proposed,
            updates,
            answer,
            spontaneous,
        );
        self.print("process", reply)
    }
}

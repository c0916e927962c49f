// A replay, and the lines that its calls print.
use khuvelter::Reply;
use script::prepare::Memories;
use script::reading::Script;
use std::io::{Result, Write};

// Where the lines go, what is left of the script, and the memories that the calls get.
#[derive(Drop)]
pub struct Replay<'a, W: Write> {
    pub out: &'a mut W,
    pub script: Script<'a>,
    pub memories: Memories<'a>,
}

impl<'a, W: Write> Replay<'a, W> {
    // Begins the line of a call: the entry's name and its reply.
    pub fn print(&mut self, name: &str, reply: Reply) -> Result<()> {
        write!(
            self.out,
            "{name} {} {} {} {}",
            reply.number, reply.place, reply.octets, reply.spontaneous
        )
    }

    // Ends the line of a call with the checksum of all memory.
    pub fn print_checksum(&mut self) -> Result<()> {
        writeln!(self.out, " {}", self.memories.checksum())
    }
}

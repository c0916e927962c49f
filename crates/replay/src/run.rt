// The replay of a list: reads the script that an argument names, makes its steps one after another.
use crate::reply::Replay;
use script::prepare::Memories;
use script::reading::Script;
use std::alloc::Global;
use std::fs;
use std::io::{Result, Write};
use std::rt::Files;

// Octets of the table memory and of its copy, of an answer's and a spontaneous memory, and the most that is read of a script.
const TABLE_ROOM: usize = 200000;

const ANSWER_ROOM: usize = 65536;

const SCRIPT_ROOM: usize = 524288;

impl<'a, W: Write> Replay<'a, W> {
    // Makes the call that a letter names, on just the memory that is lent. Another letter is passed over.
    fn call(&mut self, letter: u8) -> Result<()> {
        match letter {
            b'o' => self.open(),
            b'r' => self.register(),
            b'b' => self.batch(),
            b'l' => self.batch_of_records(),
            b'n' => self.batch_of_series(),
            b'u' => self.unregister(),
            b'x' => self.clear(),
            b'h' => self.share(),
            b'c' => self.started(),
            b's' => self.system(),
            b'k' => self.system_on_record(),
            b'p' => self.process(),
            _ => Ok(()),
        }
    }

    // Makes the step that a letter names: sets memory, or makes a call and ends its line.
    fn step(&mut self, letter: u8) -> Result<()> {
        if self.memories.set(letter, &mut self.script) {
            return Ok(());
        }
        self.call(letter)?;
        self.print_checksum()
    }

    // Makes every step of a script of so many octets. Each takes at least one, so there are no more steps than octets.
    fn steps(&mut self, octets: usize) -> Result<()> {
        for _ in 0..octets {
            match self.script.letter() {
                Some(letter) => self.step(letter)?,
                None => return Ok(()),
            }
        }
        Ok(())
    }
}

// Replays a script that has been read.
fn replay_script<W: Write>(alloc: Global, out: &mut W, script: &[u8]) -> Result<()> {
    let mut table = vec![in alloc; 0u8; TABLE_ROOM]?;
    let mut kept = vec![in alloc; 0u8; TABLE_ROOM]?;
    let mut answer = vec![in alloc; 0u8; ANSWER_ROOM]?;
    let mut spontaneous = vec![in alloc; 0u8; ANSWER_ROOM]?;
    let mut replay = Replay {
        out,
        script: Script::new(script),
        memories: Memories::new(&mut table, &mut kept, &mut answer, &mut spontaneous),
    };
    replay.steps(script.len())
}

// Replays the list that an argument names, under a line with its name.
pub fn replay_list<R: Files + AllocGlobal, W: Write>(
    rt: &R,
    out: &mut W,
    name: &str,
) -> Result<()> {
    let script = fs::read(rt, name)?;
    writeln!(out, "list {name}")?;
    let n = script.len().min(SCRIPT_ROOM);
    replay_script(rt.alloc(), out, &script[..n])
}

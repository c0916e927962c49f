// The memories of a replay, and the steps of a script that set them.
use crate::memory::{Memory, checksum, copy_in};
use crate::reading::Script;

// The memories that are lent to the calls, and the copy that is kept of the table.
#[derive(Drop)]
pub struct Memories<'a> {
    pub table: Memory<'a>,
    pub kept: Memory<'a>,
    pub clock: [u8; 8],
    pub answer: Memory<'a>,
    pub spontaneous: Memory<'a>,
}

impl<'a> Memories<'a> {
    // Memories of which nothing is lent, with an unknown time.
    pub fn new(
        table: &'a mut [u8],
        kept: &'a mut [u8],
        answer: &'a mut [u8],
        spontaneous: &'a mut [u8],
    ) -> Memories<'a> {
        Memories {
            table: Memory::new(table),
            kept: Memory::new(kept),
            clock: [0; 8],
            answer: Memory::new(answer),
            spontaneous: Memory::new(spontaneous),
        }
    }

    // Makes the step of a letter, with what the script has after it, and says whether the letter is one of these. T, A and S lend a memory
    // filled with an octet; L lends a length of the table as it is; P sets one octet of it; K keeps a copy of what is lent of it; B puts it
    // back; C sets the clock.
    pub fn set(&mut self, letter: u8, script: &mut Script<'_>) -> bool {
        match letter {
            b'T' => self.table.lend_filled(script),
            b'A' => self.answer.lend_filled(script),
            b'S' => self.spontaneous.lend_filled(script),
            b'L' => self.table.lend(script),
            b'P' => self.table.put(script),
            b'K' => self.table.keep(&mut self.kept),
            b'B' => self.table.put_back(&self.kept),
            b'C' => copy_in(script.part(8), &mut self.clock),
            _ => return false,
        }
        true
    }

    // The checksum of all that is lent.
    pub fn checksum(&self) -> u64 {
        let table = checksum(0, self.table.lent());
        let clock = checksum(table, &self.clock);
        let answer = checksum(clock, self.answer.lent());
        checksum(answer, self.spontaneous.lent())
    }
}

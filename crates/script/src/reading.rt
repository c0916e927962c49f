// Reading a script from its start on. Past its end every octet is 0.
ghost use Rattle.std.specs.Prelude.{◌≡◌, ◌+◌, ◌*◌, ◌<◌, ◌≤◌, [], length, take, drop, slice_get, slice_index_or};

// What is left to read of a script.
#[derive(Drop)]
pub struct Script<'a> {
    left: &'a [u8],
}

impl<'a> Script<'a> {
    // A script of which nothing is read.
    pub fn new(octets: &'a [u8]) -> Script<'a>
        ensures { result.left.now ≡ octets.now }
    {
        Script { left: octets }
    }

    // Reads the letter of a step, if anything is left.
    pub fn letter(&mut self) -> Option<u8>
        ensures value { result ≡ slice_get self.old.left.now 0 }
        ensures left { self.new.left.now ≡ drop 1 self.old.left.now }
    {
        self.left.split_off_first().copied()
    }

    // Reads an octet.
    pub fn octet(&mut self) -> u8
        ensures value { result ≡ slice_index_or self.old.left.now 0 0 }
        ensures left { self.new.left.now ≡ drop 1 self.old.left.now }
    {
        self.letter().unwrap_or(0)
    }

    // Reads a number in two octets, low octet first.
    pub fn two(&mut self) -> u16
        ensures value { result ≡ slice_index_or self.old.left.now 0 0 + 256 * slice_index_or self.old.left.now 1 0 }
        ensures left { self.new.left.now ≡ drop 2 self.old.left.now }
    {
        u16::from_le_bytes([self.octet(), self.octet()])
    }

    // Reads a number in four octets, low octet first.
    pub fn four(&mut self) -> u32
        ensures left { self.new.left.now ≡ drop 4 self.old.left.now }
    {
        u32::from_le_bytes([self.octet(), self.octet(), self.octet(), self.octet()])
    }

    // Reads a length in two octets.
    pub fn length_in_two(&mut self) -> usize
        ensures left { self.new.left.now ≡ drop 2 self.old.left.now }
    {
        usize::from(self.two())
    }

    // Reads a length in four octets.
    pub fn length_in_four(&mut self) -> usize
        ensures left { self.new.left.now ≡ drop 4 self.old.left.now }
    {
        self.four() as usize
    }

    // Reads so many octets, or all that are left and gives none where the script ends before.
    pub fn part(&mut self, count: usize) -> &'a [u8]
        ensures whole { count ≤ length self.old.left.now → result.now ≡ take count self.old.left.now }
        ensures none { length self.old.left.now < count → result.now ≡ [] }
        ensures left { self.new.left.now ≡ drop count self.old.left.now }
    {
        match self.left.split_off(..count) {
            Some(part) => part,
            None => {
                self.left = &[];
                &[]
            }
        }
    }
}

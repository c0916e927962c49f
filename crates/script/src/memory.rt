// Memory that a script sets and lends to the calls, and a checksum over it.
ghost use Rattle.std.specs.Prelude.{◌≡◌, ◌<◌, ◌≤◌, [], ◌++◌, length, take, drop};

use crate::reading::Script;

// The checksum's multiplier and its modulus, the greatest prime below 2^32.
const MULTIPLIER: u64 = 16777619;

const MODULUS: u64 = 4294967291;

// A polynomial over the octets, on from the checksum of what came before; each octet counts one more than it is, so
// that zeros count too.
pub fn checksum(before: u64, memory: &[u8]) -> u64
    ensures { result < 4294967291 }
{
    let mut sum = before % MODULUS;
    for octet in memory {
        sum = (sum * MULTIPLIER + u64::from(*octet) + 1) % MODULUS;
    }
    sum
}

// Copies to the start of a memory what fits of another.
pub fn copy_in(from: &[u8], to: &mut [u8])
    ensures { to.new ≡ take (length to.old) from.now ++ drop (length from.now) to.old }
{
    let count = from.len().min(to.len());
    to[..count].copy_from_slice(&from[..count]);
}

// Reads numbers of two octets, as many as there are and fit.
pub fn numbers_in(from: &[u8], to: &mut [u16]) {
    let (pairs, _) = from.as_chunks();
    for (number, pair) in to.iter_mut().zip(pairs) {
        *number = u16::from_le_bytes(*pair);
    }
}

// The first so many octets, or none where there are fewer.
pub fn first(memory: &[u8], count: usize) -> &[u8]
    ensures whole { count ≤ length memory.now → result.now ≡ take count memory.now }
    ensures none { length memory.now < count → result.now ≡ [] }
{
    memory.get(..count).unwrap_or(&[])
}

// A memory, and how many of its octets are lent to the calls: all where it has fewer.
#[derive(Drop)]
pub struct Memory<'a> {
    octets: &'a mut [u8],
    lent: usize,
}

impl<'a> Memory<'a> {
    // A memory of which nothing is lent.
    pub fn new(octets: &'a mut [u8]) -> Memory<'a> {
        Memory { octets, lent: 0 }
    }

    // Lends as many octets as a script says, as they are.
    pub fn lend(&mut self, script: &mut Script<'_>) {
        self.lent = script.length_in_four();
    }

    // Lends as many octets as a script says, and sets each to the octet that it has next.
    pub fn lend_filled(&mut self, script: &mut Script<'_>) {
        self.lend(script);
        self.lent_mut().fill(script.octet());
    }

    // The octets that are lent, to read.
    pub fn lent(&self) -> &[u8]
        ensures { result.now ≡ take self.now.lent self.now.octets.now }
    {
        let count = self.lent.min(self.octets.len());
        &self.octets[..count]
    }

    // The octets that are lent, to write.
    pub fn lent_mut(&mut self) -> &mut [u8]
        ensures { result.now ≡ take self.old.lent self.old.octets.now }
    {
        let count = self.lent.min(self.octets.len());
        &mut self.octets[..count]
    }

    // Sets the octet at a place that a script names, if it is there.
    pub fn put(&mut self, script: &mut Script<'_>) {
        let at = script.length_in_four();
        let octet = script.octet();
        if let Some(place) = self.octets.get_mut(at) {
            *place = octet;
        }
    }

    // Keeps a copy of what is lent; of nothing where more is lent than there is.
    pub fn keep(&self, kept: &mut Memory<'_>) {
        copy_in(first(self.octets, self.lent), kept.octets);
    }

    // Puts back from a copy as much as is lent; nothing where more is lent than the copy has.
    pub fn put_back(&mut self, kept: &Memory<'_>) {
        copy_in(first(kept.octets, self.lent), self.octets);
    }
}

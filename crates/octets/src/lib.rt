// Lent memory as octets: moving, copying, numbers low octet first, the test for zero. The lowest layer over memory; it sees no point and no table.
#![tactic(auto)]

ghost use Rattle.std.specs.Prelude.{◌≡◌, ◌+◌, ◌-◌, ◌≤◌, ◌<◌, length, take, drop, replicate};
ghost use Rattle.octets.specs.Over.{over, shifted, lowered};
ghost use Rattle.octets.specs.Number.{twelve, zeros, number_of, octets_of, power};

// Writes all of `src` into `dst` from `at`.
#[tactic(auto, using(crate::proofs::Laws::copy_step, crate::proofs::Laws::copy_done))]
pub fn copy_in(src: &[u8], dst: &mut [u8], at: usize)
    requires { at + length src.now ≤ length dst.old }
    ensures { dst.new ≡ over dst.old at src.now }
{
    // Octet by octet: of `copy_from_slice` LLVM makes a call of memmove, which the C interface's header does not ask of its users.
    for i in 0..src.len() {
        dst[at + i] = src[i];
    }
}

// Moves the octets from `from` up to `to` up by `by`.
#[tactic(auto, using(crate::proofs::Laws::moved_up))]
pub fn shift_up(m: &mut [u8], from: usize, to: usize, by: usize)
    requires { (from ≤ to) × (to + by ≤ length m.old) }
    ensures { m.new ≡ shifted m.old from to by }
{
    m.copy_within(from..to, from + by);
}

// Writes the `len` octets of `src` from `from` into `dst` from `at`.
pub fn copy_part(src: &[u8], from: usize, len: usize, dst: &mut [u8], at: usize)
    requires { (from + len ≤ length src.now) × (at + len ≤ length dst.old) }
    ensures { dst.new ≡ over dst.old at (take len (drop from src.now)) }
{
    copy_in(&src[from..from + len], dst, at);
}

// Moves the octets from `from + by` up to `to` down by `by`.
#[tactic(auto, using(crate::proofs::Laws::down_step, crate::proofs::Laws::down_done))]
pub fn shift_down(m: &mut [u8], from: usize, to: usize, by: usize)
    requires { (from + by ≤ to) × (to ≤ length m.old) }
    ensures { m.new ≡ lowered m.old from to by }
{
    // Tried `copy_within`, and it misses speed. Of this loop LLVM makes moves of 32 octets.
    let start = from + by;
    for j in 0..to - start {
        m[from + j] = m[start + j];
    }
}

// Writes zeros from `from` up to `to`.
#[tactic(auto, using(crate::proofs::Laws::part_cleared))]
pub fn clear(m: &mut [u8], from: usize, to: usize)
    requires { (from ≤ to) × (to ≤ length m.old) }
    ensures { m.new ≡ over m.old from (replicate (to - from) 0) }
{
    m[from..to].fill(0);
}

// N octets from `at` as a number, low octet first.
pub fn number_at<const N: usize>(m: &[u8], at: usize) -> usize
    requires { (N ≤ 8) × (at + N ≤ length m.now) }
    ensures { (result ≡ number_of N m.now at) × (result < power N) }
{
    let mut octets = [0u8; 8];
    octets[..N].copy_from_slice(&m[at..at + N]);
    usize::from_le_bytes(octets)
}

// Writes a number as N octets from `at`, low octet first.
pub fn put<const N: usize>(m: &mut [u8], at: usize, v: usize)
    requires { (N ≤ 8) × (at + N ≤ length m.old) × (v < power N) }
    ensures { m.new ≡ over m.old at (octets_of N v) }
{
    copy_in(&v.to_le_bytes()[..N], m, at);
}

// Twelve octets from `at`, by value.
#[tactic(auto, using(crate::proofs::Bytes::twelve_is))]
pub fn twelve_at(m: &[u8], at: usize) -> [u8; 12]
    requires { at + 12 ≤ length m.now }
    ensures { result ≡ twelve m.now at }
{
    let mut octets = [0; 12];
    octets.copy_from_slice(&m[at..at + 12]);
    octets
}

// Are the n octets from `at` zero? All are looked at, so that the loop is one OR over the part.
pub fn all_zero(m: &[u8], at: usize, n: usize) -> bool
    requires { at + n ≤ length m.now }
    ensures { result ≡ zeros m.now at n }
{
    m[at..at + n].iter().fold(0, |any, x| any | *x) == 0
}

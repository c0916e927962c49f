// The data of a read command: sized first, then written, one ASDU for each object in the command's order. From `handle_read` of `system_command_handler.rs` and `monitoring_asdu_requested` of `output.rs`.
#![tactic(auto)]

ghost use Rattle.std.specs.Prelude.{◌≡◌, ◌+◌, ◌*◌, ◌≤◌, length};
ghost use Rattle.limits.specs.Size.{header_octets};
ghost use Rattle.layout.specs.Layout.{place_size};
ghost use Rattle.asdu.specs.Header.{wire};
ghost use Rattle.asdu.specs.Puts.{PutsAt};
ghost use Rattle.lookup.specs.Find.{find_at};
ghost use Rattle.answers.specs.Said.{size};
ghost use Rattle.read_data.specs.Reads.{asked_of, asked_at, requested_of, requested_by};

use asdu::asked::Asked;
use asdu::cot::REQUEST;
use limits::size::{ADDRESS_OCTETS, HEADER_OCTETS};

// The octets of the requested ASDU of the point with an IOA among the h places from `first`: header, address and element; none if no point has the IOA.
#[tactic(auto, using(crate::proofs::Turns::held_inside), unfolding(crate::specs::Reads::asked_of))]
fn found_octets(m: &[u8], first: usize, h: usize, ioa: usize) -> Option<usize>
    requires { first + place_size * h ≤ length m.now }
    ensures { result ≡ asked_of m.now (find_at m.now first h ioa) }
{
    let Ok(at) = lookup::find(m, first, h, ioa) else {
        return None;
    };
    Some(HEADER_OCTETS + ADDRESS_OCTETS + limits::size::point_octets(m[at]))
}

// The octets of the requested ASDUs of a command's objects, repeats included, from the h places from `first`; none if an object has an address that no
// point has. They are added up before any is written, since a refusal writes nothing.
#[tactic(auto, using(crate::proofs::Turns::asked_small, crate::proofs::Turns::asked_on, crate::proofs::Turns::asked_missing, crate::proofs::Turns::asked_end))]
pub fn read_octets(m: &[u8], first: usize, h: usize, asked: Asked) -> Option<usize>
    requires { first + place_size * h ≤ length m.now }
    ensures { result ≡ asked_at m.now first h asked.entry.asdu.now header_octets asked.entry.command.count }
{
    let mut octets = 0;
    for i in 0..usize::from(asked.command.count) {
        let ioa = octets::number_at::<3>(asked.asdu, HEADER_OCTETS + ADDRESS_OCTETS * i);
        octets += found_octets(m, first, h, ioa)?;
    }
    Some(octets)
}

// Writes the requested ASDU of the point with an IOA into what remains of `out` after `o`, and gives the place after its last octet.
#[tactic(auto, using(crate::proofs::Turns::held_inside, crate::proofs::Writing::found_is, crate::proofs::Writing::nothing_found, crate::proofs::Writing::over_nothing))]
fn put_found(
    out: &mut [u8],
    o: usize,
    m: &[u8],
    first: usize,
    h: usize,
    ioa: usize,
    ca: u16,
) -> usize
    requires { (first + place_size * h ≤ length m.now) × (o + size (requested_of m.now ca (find_at m.now first h ioa)) ≤ length out.old) }
    ensures { PutsAt o (wire (requested_of m.now ca (find_at m.now first h ioa))) out.old result out.new }
{
    let Ok(at) = lookup::find(m, first, h, ioa) else {
        return o;
    };
    output::single::put_single(out, o, REQUEST, ca, m, at)
}

// Writes the requested ASDUs of a command's objects, repeats included, one after another into what remains of `out` after `from`, and gives the place
// after the last octet.
#[tactic(auto, using(crate::proofs::Writing::next_fits))]
pub fn put_requested(
    out: &mut [u8],
    from: usize,
    m: &[u8],
    first: usize,
    h: usize,
    asked: Asked,
) -> usize
    requires inside { first + place_size * h ≤ length m.now }
    requires fits { from + size (requested_by m.now first h asked.command asked.asdu.now) ≤ length out.old }
    ensures { PutsAt from (wire (requested_by m.now first h asked.entry.command asked.entry.asdu.now)) out.old result out.new }
{
    let mut o = from;
    for i in 0..usize::from(asked.command.count) {
        let ioa = octets::number_at::<3>(asked.asdu, HEADER_OCTETS + ADDRESS_OCTETS * i);
        o = put_found(out, o, m, first, h, ioa, asked.command.ca);
    }
    o
}

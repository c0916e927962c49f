// One point in an ASDU of its own, straight from its place: told because it changed or because it was read.
ghost use Rattle.std.specs.Prelude.{◌+◌, ◌≤◌, ◌<◌, length};
ghost use Rattle.layout.specs.Layout.{place_size};
ghost use Rattle.asdu.specs.Header.{asdu_octets};
ghost use Rattle.asdu.specs.Puts.{Puts, PutsAt};
ghost use Rattle.model.specs.Place.{point_at};
ghost use Rattle.report.specs.Single.{single};

use chains::write;
use chains::write::Label;
use limits::size::ADDRESS_OCTETS;

// Writes the point of the place at `at` in an ASDU of its own at the front of `out`.
fn put_front(out: &mut [u8], cause: u8, ca: u16, m: &[u8], at: usize) -> usize
    requires { (cause < 64) × (at + place_size ≤ length m.now) × (length (asdu_octets (single cause ca (point_at m.now at))) ≤ length out.old) }
    ensures { Puts (asdu_octets (single cause ca (point_at m.now at))) out.old result out.new }
{
    let kind = m[at];
    let e = limits::size::point_octets(kind);
    let l = Label { kind, cause, ca };
    let h = write::data_header(l, 1);
    let o = asdu::header::put_header(out, h);
    write::put_object(out, o, m, at, e);
    o + (ADDRESS_OCTETS + e)
}

// Lends what remains of `out` after `o` to the writer of one point's ASDU, and gives the place after its last octet. Cause 3 tells a change, cause 5 answers a read.
#[tactic(auto, using(octets::proofs::Laws::lent_over))]
pub fn put_single(out: &mut [u8], o: usize, cause: u8, ca: u16, m: &[u8], at: usize) -> usize
    requires { (cause < 64) × (at + place_size ≤ length m.now) × (o + length (asdu_octets (single cause ca (point_at m.now at))) ≤ length out.old) }
    ensures { PutsAt o (asdu_octets (single cause ca (point_at m.now at))) out.old result out.new }
{
    let wrote = put_front(&mut out[o..], cause, ca, m, at);
    o + wrote
}

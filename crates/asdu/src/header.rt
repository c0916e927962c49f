// The six octets before the objects, and an ASDU made of a header and octets of objects.
ghost use Rattle.std.specs.Prelude.{◌≡◌, ◌++◌, ◌+◌, ◌≤◌, ◌<◌, length};
ghost use Rattle.limits.specs.Test.{pick};
ghost use Rattle.limits.specs.Size.{header_octets};
ghost use Rattle.asdu.specs.Header.{header};
ghost use Rattle.asdu.specs.Puts.{Puts};

use limits::size::HEADER_OCTETS;

// The common address that means every station.
pub const GLOBAL_COMMON_ADDRESS: u16 = 65535;

// The fields of a header; the sequence flag is none of them, being clear in all that we write.
#[derive(Clone, Copy)]
pub struct Header {
    pub kind: u8,
    pub count: u8,
    pub cause: u8,
    pub negative: bool,
    pub test: bool,
    pub originator: u8,
    pub ca: u16,
}

// A header as its six octets.
fn header_octets(h: Header) -> [u8; 6]
    requires { h.cause < 64 }
    ensures { result ≡ header h }
{
    let [low, high] = h.ca.to_le_bytes();
    let flags = 64 * u8::from(h.negative) + 128 * u8::from(h.test);
    [h.kind, h.count, h.cause + flags, h.originator, low, high]
}

// Writes a header at the front of `out`.
pub fn put_header(out: &mut [u8], h: Header) -> usize
    requires { (h.cause < 64) × (header_octets ≤ length out.old) }
    ensures { Puts (header h) out.old result out.new }
{
    let octets = header_octets(h);
    octets::copy_in(&octets, out, 0);
    HEADER_OCTETS
}

// Writes a header and the octets of its objects at the front of `out`.
pub fn put_asdu(out: &mut [u8], h: Header, objects: &[u8]) -> usize
    requires { (h.cause < 64) × (header_octets + length objects.now ≤ length out.old) }
    ensures { Puts (header h ++ objects.now) out.old result out.new }
{
    put_header(out, h);
    octets::copy_in(objects, out, HEADER_OCTETS);
    HEADER_OCTETS + objects.len()
}

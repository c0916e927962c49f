// Start of a connection: the end of initialisation. From `send_end_of_initialization` of `actor.rs`, and `end_of_initialization_asdu` and `station_common_address` of `output.rs`.
#![tactic(auto)]

ghost use Rattle.std.specs.Prelude.{◌≡◌, [], ◌+◌, ◌*◌, ◌≤◌, ◌<◌, length};
ghost use Rattle.asdu.specs.Header.{asdu_octets};
ghost use Rattle.asdu.specs.Puts.{Puts};
ghost use Rattle.layout.specs.Layout.{station_size};
ghost use Rattle.report.specs.Single.{end_of_initialization_asdu};
ghost use Rattle.answers.specs.Said.{answered, Leaves, as_it_is, lent};
ghost use Rattle.answers.specs.Start.{start_said};
ghost use Rattle.connection_start.specs.Starting.{common_address_at};

use answers::Written;
use asdu::cot::INITIATED;
use asdu::header::Header;
use asdu::types_id::M_EI_NA_1;
use layout::STATION_SIZE;
use limits::outcome::Refusal;
use limits::size::{ADDRESS_OCTETS, HEADER_OCTETS};

// The object of the end of initialisation: its address and one octet.
const OBJECT_OCTETS: usize = ADDRESS_OCTETS + 1;

// The octets of the end of initialisation.
const END_OF_INITIALIZATION_OCTETS: usize = HEADER_OCTETS + OBJECT_OCTETS;

// The common address of the first of the n stations from `at` that holds a point, or 0: the smallest, since the stations stand in ascending order. Document 01 has 0
// sent where no station holds a point, so it is no Option.
#[tactic(auto, using(crate::proofs::Laws::address_here, crate::proofs::Laws::address_on, crate::proofs::Laws::address_end))]
fn station_common_address(m: &[u8], at: usize, n: usize) -> usize
    requires { at + station_size * n ≤ length m.now }
    ensures { (result ≡ common_address_at m.now at n) × (result < 65536) }
{
    for i in 0..n {
        let station = at + STATION_SIZE * i;
        if layout::held_at(m, station) != 0 {
            return octets::number_at::<2>(m, station);
        }
    }
    0
}

// Writes the end of initialisation at the front of `out`: type 70, cause 4, IOA 0, octet 0.
#[tactic(auto, using(report::proofs::Single::length_end), unfolding(report::specs::Single::end_of_initialization_asdu, asdu::specs::Header::asdu_octets, asdu::specs::Header::object_octets, asdu::specs::Joined::joined))]
fn end_of_initialization_asdu(out: &mut [u8], ca: usize) -> usize
    requires { (ca < 65536) × (length (asdu_octets (end_of_initialization_asdu ca)) ≤ length out.old) }
    ensures { Puts (asdu_octets (end_of_initialization_asdu ca)) out.old result out.new }
{
    let h = Header {
        kind: M_EI_NA_1,
        count: 1,
        cause: INITIATED,
        negative: false,
        test: false,
        originator: 0,
        ca: ca as u16,
    };
    let object = [0u8; OBJECT_OCTETS];
    asdu::header::put_asdu(out, h, &object)
}

// The start of a connection: 3, then 4, else the end of initialisation, of the smallest common address with a point, or of 0.
pub fn connection_started(table: &[u8], answer: &mut [u8]) -> Result<Written, Refusal>
    ensures { Leaves as_it_is (start_said []) (lent table.now [] answer.old []) (answered result) (lent table.now [] answer.new []) }
{
    if !wellformed::well_formed(table) {
        return Err(Refusal::TableNotWellFormed);
    }
    if answer.len() < END_OF_INITIALIZATION_OCTETS {
        return Err(Refusal::AnswerShort);
    }
    let first = layout::station_at(table, 0);
    let ca = station_common_address(table, first, layout::stations_of(table));
    Written::given(end_of_initialization_asdu(answer, ca))
}

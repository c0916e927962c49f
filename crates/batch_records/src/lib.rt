// The flat list of records that a batch comes as: the size of one, and whether an address stands earlier in it.
#![tactic(auto)]

ghost use Rattle.std.specs.Prelude.{◌≡◌, ◌+◌, ◌*◌, ◌≤◌, ◌<◌, length};
ghost use Rattle.batch_records.specs.Records.{record_octets, has_address, stands_before};

// The octets of a record.
pub const RECORD_OCTETS: usize = 24;

// Where its IOA lies; the CA comes first.
pub const IOA_IN_RECORD: usize = 2;

// Has the record at `at` this address?
#[tactic(auto, using(crate::proofs::Laws::ca_differs, crate::proofs::Laws::ioa_test))]
fn has_address(records: &[u8], at: usize, ca: usize, ioa: usize) -> bool
    requires { at + record_octets ≤ length records.now }
    ensures { result ≡ has_address records.now at ca ioa }
{
    if octets::number_at::<2>(records, at) != ca {
        return false;
    }
    octets::number_at::<4>(records, at + IOA_IN_RECORD) == ioa
}

// Does the address stand in one of the first n records?
pub fn stands_before(records: &[u8], ca: usize, ioa: usize, n: usize) -> bool
    requires { record_octets * n ≤ length records.now }
    ensures { result ≡ stands_before records.now ca ioa n }
{
    (0..n).any(|i| has_address(records, RECORD_OCTETS * i, ca, ioa))
}

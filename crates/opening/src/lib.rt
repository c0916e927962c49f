// Opening a table in lent memory: every test first, then the head, the places, all unused, and the stations. Any numbers, any plan, any memory.
#![tactic(auto)]

ghost use Rattle.std.specs.Prelude.{◌≡◌, ◌+◌, ◌*◌, ◌/◌, ◌≤◌, ◌<◌, length};
ghost use Rattle.limits.specs.Test.{total};
ghost use Rattle.octets.specs.Over.{over};
ghost use Rattle.layout.specs.Layout.{station_size, most_stations};
ghost use Rattle.table.specs.Table.{numbers_ok, plan_ok, reserved, eight, entries, image};
ghost use Rattle.registry.specs.Opening.{planned, valid_plan, table_octets, opens, fresh, open_outcome, opened_memory};
ghost use Rattle.opening.specs.Head.{planned_at, head_start};

use layout::{HEAD_SIZE, MARK, MOST_PLACES, MOST_STATIONS, PLACE_SIZE, SPARE_OFFSET, STATION_SIZE};
use limits::outcome::Refusal;

// ---- a plan as it is lent: CA, reservation and ceiling of each station in turn

// The numbers of a station of a plan.
const STATION_NUMBERS: usize = 3;

// A station of a plan.
#[derive(Clone, Copy)]
struct Planned {
    ca: u16,
    reservation: u16,
    ceiling: u16,
}

impl Planned {
    // The station of index i.
    fn at(plan: &[u16], i: usize) -> Planned
        requires { 3 * i + 3 ≤ length plan.now }
        ensures { result ≡ planned_at plan.now (3 * i) }
    {
        Planned {
            ca: plan[STATION_NUMBERS * i],
            reservation: plan[STATION_NUMBERS * i + 1],
            ceiling: plan[STATION_NUMBERS * i + 2],
        }
    }

    // Are its numbers valid, its CA being at least `low`? Nothing is held.
    fn valid(self, k: usize, low: usize) -> bool
        ensures { result ≡ numbers_ok k low self.ca self.reservation self.ceiling 0 }
    {
        wellformed::numbers_ok(
            k,
            low,
            usize::from(self.ca),
            usize::from(self.reservation),
            usize::from(self.ceiling),
            0,
        )
    }

    // Its eight octets, nothing held.
    fn octets(self) -> [u8; STATION_SIZE]
        ensures { result ≡ eight self.ca self.reservation self.ceiling 0 }
    {
        let [ca0, ca1] = self.ca.to_le_bytes();
        let [r0, r1] = self.reservation.to_le_bytes();
        let [c0, c1] = self.ceiling.to_le_bytes();
        [ca0, ca1, r0, r1, c0, c1, 0, 0]
    }
}

// Are the numbers of all stations valid, CA strictly ascending? `wellformed` walks over octets, this over numbers; one walk over both would take a trait
// with its laws, and be no plainer.
#[tactic(auto, using(crate::proofs::Plan::plan_on, crate::proofs::Plan::plan_off, crate::proofs::Plan::plan_end))]
fn stations_ok(plan: &[u16], k: usize) -> bool
    ensures { result ≡ plan_ok k 1 (planned plan.now) }
{
    let mut low = 1;
    for i in 0..plan.len() / STATION_NUMBERS {
        let station = Planned::at(plan, i);
        if !station.valid(k, low) {
            return false;
        }
        low = usize::from(station.ca) + 1;
    }
    true
}

// The reservations of all stations, added up.
#[tactic(auto, using(crate::proofs::Plan::reserved_on, crate::proofs::Plan::reserved_end))]
fn reservations(plan: &[u16]) -> usize
    requires { length plan.now / 3 ≤ most_stations }
    ensures { result ≡ total reserved (planned plan.now) }
{
    let mut sum: usize = 0;
    for i in 0..plan.len() / STATION_NUMBERS {
        sum += usize::from(Planned::at(plan, i).reservation);
    }
    sum
}

// Is the plan valid under K?
#[tactic(auto, using(crate::proofs::Tests::k_zero, crate::proofs::Tests::k_high, crate::proofs::Tests::no_station, crate::proofs::Tests::many_stations, crate::proofs::Tests::plan_bad, crate::proofs::Tests::reserved_test))]
fn plan_ok(plan: &[u16], k: usize) -> bool
    ensures { result ≡ valid_plan k (planned plan.now) }
{
    let n = plan.len() / STATION_NUMBERS;
    if k < 1 {
        return false;
    }
    if MOST_PLACES < k {
        return false;
    }
    if n < 1 {
        return false;
    }
    if MOST_STATIONS < n {
        return false;
    }
    if !stations_ok(plan, k) {
        return false;
    }
    reservations(plan) <= k
}

// May a table of capacity K be opened under the plan in a memory of `octets` octets?
#[tactic(auto, using(crate::proofs::Tests::part_left, crate::proofs::Tests::plan_refused, crate::proofs::Tests::room_test, crate::proofs::Tests::k_few, crate::proofs::Tests::stations_few))]
pub fn may_open(plan: &[u16], k: usize, octets: usize) -> bool
    ensures { result ≡ opens k plan.now octets }
{
    if plan.len() % STATION_NUMBERS != 0 {
        return false;
    }
    if !plan_ok(plan, k) {
        return false;
    }
    PLACE_SIZE * k + STATION_SIZE * (plan.len() / STATION_NUMBERS) + HEAD_SIZE <= octets
}

// ---- the octets of a fresh table

// The octets of the head before those that are always zero: the mark, K, stations, no points, document 01's settings.
fn head_start(k: u16, n: u16) -> [u8; SPARE_OFFSET]
    ensures { result ≡ head_start k n }
{
    let [m0, m1, m2, m3] = (MARK as u32).to_le_bytes();
    let [k0, k1] = k.to_le_bytes();
    let [n0, n1] = n.to_le_bytes();
    [m0, m1, m2, m3, k0, k1, n0, n1, 0, 0, 0, 0, 0, 0]
}

// Writes the stations of the plan.
fn put_stations(table: &mut [u8], at: usize, plan: &[u16])
    requires { at + station_size * (length plan.now / 3) ≤ length table.old }
    ensures { table.new ≡ over table.old at (entries (planned plan.now)) }
{
    for i in 0..plan.len() / STATION_NUMBERS {
        let station = Planned::at(plan, i);
        octets::copy_in(&station.octets(), table, at + STATION_SIZE * i);
    }
}

// Writes the fresh table of a plan.
fn put_fresh(table: &mut [u8], k: usize, plan: &[u16])
    requires { (k < 65536) × (length plan.now / 3 < 65536) × (table_octets k (length plan.now / 3) ≤ length table.old) }
    ensures { table.new ≡ over table.old 0 (image (fresh k plan.now)) }
{
    let stations = HEAD_SIZE + PLACE_SIZE * k;
    let start = head_start(k as u16, (plan.len() / STATION_NUMBERS) as u16);
    octets::copy_in(&start, table, 0);
    octets::clear(table, SPARE_OFFSET, stations);
    put_stations(table, stations, plan);
}

// ---- the entry

// Opens a table of capacity K under a plan in the lent memory: InvalidPlan (10) and nothing written, or the fresh table.
pub fn open(table: &mut [u8], capacity: u32, plan: &[u16]) -> Result<(), Refusal>
    ensures { (result ≡ open_outcome capacity plan.now table.old) × (table.new ≡ opened_memory capacity plan.now table.old) }
{
    let k = capacity as usize;
    if !may_open(plan, k, table.len()) {
        return Err(Refusal::InvalidPlan);
    }
    put_fresh(table, k, plan);
    Ok(())
}

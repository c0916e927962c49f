// Counters set to 0 in a table's memory. From `apply_counter_freeze_qualifier` of `system_command_handler.rs`.
#![tactic(auto)]

ghost use Rattle.std.specs.Prelude.{◌≡◌, ◌+◌, ◌*◌, ◌≤◌, length};
ghost use Rattle.layout.specs.Layout.{place_size};
ghost use Rattle.resets.specs.Resets.{takes_at, reset_place, reset_places};

use layout::{PLACE_SIZE, VALUE_OFFSET};
use report::Selection;

// Is there a counter at the place, and does the selection take it?
#[tactic(auto, using(crate::proofs::Turns::not_taken, crate::proofs::Turns::is_taken))]
fn takes_at(m: &[u8], at: usize, selection: Selection) -> bool
    requires { at + place_size ≤ length m.now }
    ensures { result ≡ takes_at selection m.now at }
{
    if !model::is_counter(m[at]) {
        return false;
    }
    report::selects_at(m, at, selection)
}

// Sets the reading of the place at `at` to 0, the first four octets of its value, where it is a counter that the selection takes; the rest stays.
#[tactic(auto, using(crate::proofs::Turns::place_reset, crate::proofs::Turns::place_kept))]
fn reset_place(m: &mut [u8], at: usize, selection: Selection)
    requires { at + place_size ≤ length m.old }
    ensures { m.new ≡ reset_place selection m.old at }
{
    if takes_at(m, at, selection) {
        let reading = [0u8; 4];
        octets::copy_in(&reading, m, at + VALUE_OFFSET);
    }
}

// Sets the selected counters among the n places from `first` to 0.
#[tactic(auto, using(crate::proofs::Turns::reset_on, crate::proofs::Turns::reset_end, crate::proofs::Turns::length_place))]
pub fn reset(m: &mut [u8], first: usize, n: usize, selection: Selection)
    requires { first + place_size * n ≤ length m.old }
    ensures { m.new ≡ reset_places selection m.old first n }
{
    for i in 0..n {
        reset_place(m, first + PLACE_SIZE * i, selection);
    }
}

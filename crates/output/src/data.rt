// The data of an interrogation or counter command: sized first, then written between what stands before and after it.
ghost use Rattle.std.specs.Prelude.{◌≤◌, length};
ghost use Rattle.asdu.specs.Header.{wire};
ghost use Rattle.report.specs.Terms.{PlacesIn, LimitOk, TermsOk};
ghost use Rattle.chains.specs.Chain.{slots, Fresh};
ghost use Rattle.output.specs.Data.{TypesOk, data_of, SizedBy, Writes};

use crate::order;
use chains::link::SLOTS;
use chains::{link, write};
use layout::MOST_PLACES;
use report::{Reach, Selection, Terms};

// Sizes a report: links the selected places of a reach, in the order of an answer, into chains in memory lent by the caller, and gives its octets.
// The chains stay slices of any length, since the clauses of `size_report` may ask no more of its callers (docs/DECISIONS.md, 54).
pub fn size_report(
    m: &[u8],
    reach: Reach,
    s: Selection,
    limit: usize,
    types: &[u8],
    heads: &mut [u16],
    next: &mut [u16],
    counts: &mut [u16],
) -> usize
    requires { PlacesIn m.now reach × LimitOk limit × (length types.now ≤ slots) × Fresh reach heads.old next.old counts.old }
    ensures { SizedBy s limit types.now m.now reach heads.old next.old result heads.new next.new counts.new }
{
    let mut places: [u16; MOST_PLACES] = [0; MOST_PLACES];
    order::arrange(&mut places, m, reach);
    link::link(m, reach, &places, s, heads, next, counts);
    write::report_octets(limit, types, counts)
}

// The data of a reach: the report of its selected places, written into `out` after `before` octets if `after` more fit behind it, and not at all if not. Gives
// its octets, or none if there is no room.
pub fn put_data(
    out: &mut [u8],
    before: usize,
    after: usize,
    m: &[u8],
    reach: Reach,
    s: Selection,
    types: &[u8],
    terms: Terms,
) -> Option<usize>
    requires { (before ≤ 65536) × (after ≤ 65536) × PlacesIn m.now reach × TypesOk types.now × TermsOk terms }
    ensures { Writes before after (wire (data_of terms types.now s m.now reach)) out.old result out.new }
{
    // No heap: links are the places' numbers, in arrays of a fixed size.
    let mut heads: [u16; SLOTS] = [0; SLOTS];
    let mut next: [u16; MOST_PLACES] = [0; MOST_PLACES];
    let mut counts: [u16; SLOTS] = [0; SLOTS];
    let octets = size_report(
        m,
        reach,
        s,
        terms.limit,
        types,
        &mut heads,
        &mut next,
        &mut counts,
    );
    if out.len() < before + (octets + after) {
        return None;
    }
    write::put_report(
        &mut out[before..],
        terms,
        types,
        m,
        reach,
        &heads,
        &next,
        &counts,
    );
    Some(octets)
}

// What a table's settings say, asked of its memory. Today it has none: each of these is document 01's behaviour.
#![tactic(auto)]

ghost use Rattle.std.specs.Prelude.{◌≡◌, true, ◌≤◌};
ghost use Rattle.limits.specs.Size.{standard_limit};
ghost use Rattle.table.specs.Memory.{well_formed, table_of};
ghost use Rattle.table.specs.Settings.{limit_of};
ghost use Rattle.report.specs.Selection.{interrogation_types_of};

// The length limit L of an APDU.
pub fn limit_of(table: &[u8]) -> usize
    requires { well_formed table.now ≡ true }
    ensures { (result ≡ limit_of (table_of table.now)) × (25 ≤ result) × (result ≤ standard_limit) }
{
    limits::size::STANDARD_LIMIT
}

// The types of a global or group interrogation.
pub fn interrogation_types_of(table: &[u8]) -> [u8; 30]
    requires { well_formed table.now ≡ true }
    ensures { result ≡ interrogation_types_of (table_of table.now) }
{
    [
        1, 2, 3, 4, 5, 6, 7, 9, 10, 11, 12, 13, 14, 15, 17, 18, 19, 20, 21, 30, 31, 32, 33, 34, 35,
        36, 37, 38, 39, 40,
    ]
}

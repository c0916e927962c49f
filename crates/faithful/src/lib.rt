// Demand 2 of a report to one station: exactly the selected points, each once, by type then address, in ASDUs as full as allowed. A statement and its proof; no code.
#![tactic(auto)]

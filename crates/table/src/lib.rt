// The table in lent memory: what it means, and the test for well-formedness. Any octets, any length.
#![tactic(auto)]

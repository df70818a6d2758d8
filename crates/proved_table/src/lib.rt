#![tactic(auto)]

// The proved table of document 01, as 02 amends it, with no code: its lines are in specs/, the one statement that all of
// them hold in proofs/.
// Inner: no entry point.

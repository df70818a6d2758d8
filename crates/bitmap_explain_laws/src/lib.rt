#![tactic(auto)]

// Laws of the fault told of a bitmap: it has the refusal's number, its rule is broken at its place, and no other fault
// holds. No code. Inner: no entry point.

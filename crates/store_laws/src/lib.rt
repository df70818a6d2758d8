#![tactic(auto)]

// Laws of stores: what changes of the directory and the buffer mean, what put and drop do to the answers of fetch, that an owner's answers
// do not depend on what another owner does, and that load finds exactly what was saved. No code; the laws are in proofs/. Inner: no entry
// point.

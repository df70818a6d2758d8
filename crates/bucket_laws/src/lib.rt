#![tactic(auto)]

// Laws of buckets, over the definitions alone. Inner: no code, no entry point.

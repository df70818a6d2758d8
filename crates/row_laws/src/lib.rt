#![tactic(auto)]

// Laws of schemas, values and row blocks, over the definitions alone. Inner: no code, no entry point.

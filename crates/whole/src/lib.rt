// Laws of signed sums, in specs/; this crate has no code.
#![tactic(auto)]

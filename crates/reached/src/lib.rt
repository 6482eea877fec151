// No code: `specs/` has what the code of the calls asks of a reached book, for their proofs.
#![tactic(auto)]

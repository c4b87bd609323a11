// The statements of what the calls keep, and their proofs. No code.
#![tactic(auto)]

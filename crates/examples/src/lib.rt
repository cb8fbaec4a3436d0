// Examples have no code: see proofs/.
#![tactic(auto)]

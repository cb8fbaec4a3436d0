// That the marks of a day come to its sheet has no code: see proofs/.
#![tactic(auto)]

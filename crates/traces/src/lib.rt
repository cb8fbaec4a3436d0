// Traces have no code here: see specs/, and proofs/ for what is proved of them.
#![tactic(auto)]

// The hoist profile has no code here: see specs/, and proofs/ for what is proved of it.
#![tactic(auto)]

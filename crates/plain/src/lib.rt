// The plain engine is no code: see specs/, and proofs/ for what is proved of it.
#![tactic(auto)]

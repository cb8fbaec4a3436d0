// The order of events has no code: see specs/, and proofs/ for what is proved of it.
#![tactic(auto)]

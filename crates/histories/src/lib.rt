// Histories of calls stand apart from the code: see specs/, and proofs/ for what is proved of them.
#![tactic(auto)]

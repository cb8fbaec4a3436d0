// What each exported call leaves stands apart from the code: see specs/, and proofs/ for what is proved of it.
#![tactic(auto)]

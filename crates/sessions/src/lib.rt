// The text of a session stands apart from the code: see specs/, and proofs/ for what is computed with it.
#![tactic(auto)]

// Numbers as bytes and registers as sets of inputs: see specs/, and proofs/ for what is proved of them. There is no code.
#![tactic(auto)]

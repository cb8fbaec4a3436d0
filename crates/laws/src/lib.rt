// Laws and demands that follow from the rules: see proofs/. There is no code.
#![tactic(auto)]

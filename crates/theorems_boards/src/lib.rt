// No code: what is claimed of boards is in specs/, and the proofs are in proofs/.
#![tactic(auto)]

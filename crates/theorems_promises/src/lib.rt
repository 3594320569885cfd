// No code: proofs/ has the laws of the public calls' contracts. No second answer fits, nothing is asked, and the answer is the right one.
#![tactic(auto)]

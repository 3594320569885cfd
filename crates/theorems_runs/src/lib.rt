// What holds for every sequence of cycles, of the rules: no code. The statements are in specs/, their proofs in proofs/.
#![tactic(auto)]

// Own records (CR 14): the claims in specs/, laws in proofs/.
#![tactic(auto)]

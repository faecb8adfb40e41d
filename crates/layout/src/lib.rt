// The words of a store: definitions in specs/, laws in proofs/.
#![tactic(auto)]

// What calls promise over lists of calls: laws in proofs/. Nothing depends on them.
#![tactic(auto)]

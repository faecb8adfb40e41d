// Every small history, listed: definitions in specs/, laws in proofs/. Crate lister has the code.
#![tactic(auto)]

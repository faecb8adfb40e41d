// Records of issues (CR 14): definitions in specs/, laws in proofs/.
#![tactic(auto)]

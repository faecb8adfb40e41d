// The least set of items that holds a start and all that its members lead to: definitions in
// specs/, laws in proofs/.
#![tactic(auto)]

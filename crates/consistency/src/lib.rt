// Demand 3: its statement in specs/.
#![tactic(auto)]

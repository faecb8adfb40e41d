// The history model (document 01's book): definitions in specs/.
#![tactic(auto)]

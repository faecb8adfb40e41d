// A prepared run goes through (change request 11): its statement in specs/, laws alone.
#![tactic(auto)]

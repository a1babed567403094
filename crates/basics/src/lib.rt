// Definitions and laws that the other crates share; there is no code here.
#![tactic(auto)]

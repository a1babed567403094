// Theorems about the definitions; there is no code here.
#![tactic(auto)]

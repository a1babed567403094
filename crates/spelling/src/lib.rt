// The definition of the normal text, and laws about it; there is no code here.
#![tactic(auto)]
